//! What is said of a class, by place.

ghost use Rattle.std.specs.Prelude.{◌≡◌};
ghost use Rattle.std.specs.Option.{option_map_or};
ghost use Rattle.ad_schema_classes.specs.Chains.{list_at};
ghost use Rattle.ad_schema_classes.specs.Rows.{part_of, nexts};

use ad_bytes::List;
use ad_ids::Guid;

/// What is said of a class. All numbers are places among the attributes or the classes.
#[derive(Drop)]
pub struct ClassLinks {
    /// Its GUID.
    pub guid: Guid,
    /// Its superclass.
    pub above: Option<u32>,
    /// The naming attribute that it names itself.
    pub naming: Option<u32>,
    /// The attributes that its objects must have.
    pub musts: List<u32>,
    /// The attributes that its objects may have.
    pub mays: List<u32>,
    /// Its auxiliary classes and its superclass.
    pub neighbours: List<u32>,
    /// The classes below whose objects its own may stand.
    pub superiors: List<u32>,
}

/// Which attributes of a class are meant.
#[derive(Clone, Copy, Debug, PartialEq, Eq)]
pub enum Part {
    Must,
    May,
}

/// The attributes that a class names so.
pub(crate) fn part_of(part: Part, link: &ClassLinks) -> &[u32]
    ensures { result.now ≡ part_of part link.entry.now }
{
    match part {
        Part::Must => link.musts.as_slice(),
        Part::May => link.mays.as_slice(),
    }
}

/// The classes next to a class.
#[tactic(auto, unfolding(crate::specs::Chains::list_at))]
pub(crate) fn next_to(links: &[ClassLinks], class: u32) -> &[u32]
    ensures { result.now ≡ list_at (nexts links.entry.now) class }
{
    match links.get(class as usize) {
        Some(link) => link.neighbours.as_slice(),
        None => &[],
    }
}
