//! A set to which objects are taken, each once, in the order in which they come.

ghost use Rattle.std.specs.Prelude.{◌≡◌, ◌==◌, ◌&&◌, map, OnOk};
ghost use Rattle.ad_dir_objects.specs.Seen.{stored_seen};
ghost use Rattle.ad_dir_model.specs.Object.{is_link_to, names};
ghost use Rattle.ad_dir_model.specs.Protection.{has};
ghost use Rattle.ad_protect.specs.Spreading.{Takes};

use ad_dir::Stored;
use indexmap::IndexSet;
use std::alloc::AllocError;

// Takes an object, where it wasn't taken before.
fn take(taken: &mut IndexSet<u32>, number: u32) -> Result<(), AllocError>
    ensures { OnOk result (Takes (λ n. number == n) taken.old.keys taken.new.keys) }
{
    taken.insert(number)?;
    Ok(())
}

/// The same where it is to be taken.
pub(crate) fn take_if(
    wanted: bool,
    taken: &mut IndexSet<u32>,
    number: u32,
) -> Result<(), AllocError>
    ensures { OnOk result (Takes (λ n. wanted && number == n) taken.old.keys taken.new.keys) }
{
    if wanted {
        return take(taken, number);
    }
    Ok(())
}

/// Takes all of these.
pub(crate) fn take_all(taken: &mut IndexSet<u32>, numbers: &[u32]) -> Result<(), AllocError>
    ensures { OnOk result (Takes (has numbers.now) taken.old.keys taken.new.keys) }
{
    for number in numbers {
        take(taken, *number)?;
    }
    Ok(())
}

// Takes the object that a value names.
fn take_linked(taken: &mut IndexSet<u32>, value: &Stored) -> Result<(), AllocError>
    ensures { OnOk result (Takes (λ n. is_link_to n (stored_seen value.now)) taken.old.keys
        taken.new.keys) }
{
    match value {
        Stored::Link(number) => take(taken, *number),
        Stored::Plain(_) => Ok(()),
    }
}

/// Takes the objects that the values name.
pub(crate) fn take_links(taken: &mut IndexSet<u32>, values: &[Stored]) -> Result<(), AllocError>
    ensures { OnOk result (Takes (λ n. names n (map stored_seen values.now)) taken.old.keys
        taken.new.keys) }
{
    for value in values {
        take_linked(taken, value)?;
    }
    Ok(())
}
