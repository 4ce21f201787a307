//! The identifiers that an object had before.

ghost use Rattle.std.specs.Prelude.{◌≡◌, true, filter_map, map, OnOk};
ghost use Rattle.std.specs.Option.{option_map};
ghost use Rattle.ad_ids.specs.SidValue.{contains_sid};
ghost use Rattle.ad_dir_objects.specs.Seen.{stored_seen};
ghost use Rattle.ad_dir_model.specs.Object.{stored_in};
ghost use Rattle.ad_dir_model.specs.Objects.{object_at};
ghost use Rattle.ad_principals.specs.Groups.{sid_stored, history_of};
ghost use Rattle.ad_principals.specs.Reaching.{Takes};

use crate::taking::take;
use ad_dir::{Dir, Stored, sid_of, stored_of};
use ad_ids::Sid;
use ad_schema::AttrId;
use indexmap::IndexSet;
use std::alloc::AllocError;

// The identifier that a value is.
fn sid_stored(stored: &Stored) -> Option<Sid>
    ensures { result ≡ sid_stored (stored_seen stored.now) }
{
    match stored {
        Stored::Plain(value) => sid_of(value.shown()),
        Stored::Link(_) => None,
    }
}

// Takes the identifier that a value is, if it is one.
fn take_stored(taken: &mut IndexSet<Sid>, stored: &Stored) -> Result<(), AllocError>
    ensures { OnOk result (Takes (λ s. sid_stored (stored_seen stored.now) ≡ Some s)
        taken.old.keys taken.new.keys) }
{
    match sid_stored(stored) {
        Some(sid) => take(taken, sid),
        None => Ok(()),
    }
}

// Takes the identifiers that values are.
fn take_values(taken: &mut IndexSet<Sid>, values: &[Stored]) -> Result<(), AllocError>
    ensures { OnOk result (Takes (λ s. contains_sid (filter_map sid_stored
        (map stored_seen values.now)) s ≡ true) taken.old.keys taken.new.keys) }
{
    for value in values {
        take_stored(taken, value)?;
    }
    Ok(())
}

// The values that an object has of an attribute; one that isn't live has none.
fn values_at(dir: &Dir, number: u32, attr: AttrId) -> &[Stored]
    ensures { map stored_seen result.now
        ≡ stored_in (object_at dir.entry.now.objects number).values attr.0 }
{
    match dir.object(number) {
        Some(object) => stored_of(object.values.as_slice(), attr),
        None => &[],
    }
}

/// Takes the identifiers that an object had before: those of its sIDHistory.
#[tactic(auto, unfolding(crate::specs::Groups::history_of))]
pub(crate) fn take_history(
    taken: &mut IndexSet<Sid>,
    dir: &Dir,
    number: u32,
) -> Result<(), AllocError>
    ensures { OnOk result (Takes (λ s. contains_sid (history_of dir.now number) s ≡ true)
        taken.old.keys taken.new.keys) }
{
    match dir.schema().attr(b"sIDHistory") {
        Some(attr) => take_values(taken, values_at(dir, number, attr)),
        None => Ok(()),
    }
}
