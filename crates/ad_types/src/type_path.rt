//! A path of at most three GUIDs as a value.

ghost use Rattle.std.specs.Prelude.{◌≡◌, [], ◌∷◌};
ghost use Rattle.ad_types.specs.Path.{guids_of, last_guid};

use ad_ids::Guid;

// So many GUIDs in order, and none without a meaning.
#[derive(Clone, Copy, Debug, PartialEq, Eq)]
enum Guids {
    Zero,
    One([Guid; 1]),
    Two([Guid; 2]),
    Three([Guid; 3]),
}

/// What is asked about ([MS-ADTS] 5.1.3): up to three GUIDs, from the object's class down.
///
/// For an attribute these are its object's class, its property set where it is in one, and the attribute; for an
/// extended right or a validated write the right; for a child that class; for anything else none.
#[derive(Clone, Copy, Debug, PartialEq, Eq)]
pub struct Path {
    guids: Guids,
}

impl Path {
    /// The path without GUIDs, which is about the object as a whole.
    pub fn empty() -> Path
        ensures { guids_of result ≡ [] }
    {
        Path { guids: Guids::Zero }
    }

    /// The path of this GUID alone.
    pub fn one(guid: Guid) -> Path
        ensures { guids_of result ≡ guid ∷ [] }
    {
        Path {
            guids: Guids::One([guid]),
        }
    }

    /// The path of two GUIDs.
    pub fn two(above: Guid, guid: Guid) -> Path
        ensures { guids_of result ≡ above ∷ guid ∷ [] }
    {
        Path {
            guids: Guids::Two([above, guid]),
        }
    }

    /// The path of three GUIDs.
    pub fn three(top: Guid, above: Guid, guid: Guid) -> Path
        ensures { guids_of result ≡ top ∷ above ∷ guid ∷ [] }
    {
        Path {
            guids: Guids::Three([top, above, guid]),
        }
    }

    /// The GUIDs in order.
    pub fn guids(&self) -> &[Guid]
        ensures { result.now ≡ guids_of self.now }
    {
        match &self.guids {
            Guids::Zero => &[],
            Guids::One(guids) => guids,
            Guids::Two(guids) => guids,
            Guids::Three(guids) => guids,
        }
    }
}

/// The last GUID of a path, where it has one.
pub fn last_of(guids: &[Guid]) -> Option<Guid>
    ensures { result ≡ last_guid guids.now }
{
    let mut last = None;
    for guid in guids {
        last = Some(*guid);
    }
    last
}
