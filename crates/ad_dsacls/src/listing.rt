//! The lines of an object's descriptor.

ghost use Rattle.std.specs.Prelude.{◌≡◌, true, IfOk};
ghost use Rattle.ad_dir_model.specs.Objects.{is_live};
ghost use Rattle.ad_dir_model.specs.Names.{name_text};
ghost use Rattle.ad_dsacls.specs.Listing.{listing};

use crate::entries::put_lines;
use ad_dir::{Dir, live_sd};
use std::alloc::{AllocError, Global};

// The text of the name of a live object.
fn name_text(alloc: Global, dir: &Dir, number: u32) -> Result<Vec<u8>, AllocError>
    requires { is_live dir.now.objects number ≡ true }
    ensures { IfOk result (λ text. text.items ≡ name_text dir.now number) }
{
    dir.dn(alloc, number)?.text(alloc)
}

/// What stands in the descriptor of a live object, in lines that end with LF: `object` with its name, `owner` and
/// `group` with their identifiers, `dacl` and `sacl` with whether they are protected, and after each list its
/// entries in order. An entry is its kind, its identifier, its rights, its object type, its inherited type, its
/// flags and whether it is inherited, parted by blanks, with `-` for what is empty. Codes and numbers are those of
/// the canonical text of a descriptor. A type is the name of the first class of its GUID, else of the first
/// attribute, else of the first right, else the GUID.
///
/// # Errors
///
/// Out of memory.
pub fn list(alloc: Global, dir: &Dir, number: u32) -> Result<Vec<u8>, AllocError>
    requires { is_live dir.now.objects number ≡ true }
    ensures { IfOk result (λ text. text.items ≡ listing dir.now number) }
{
    let sd = live_sd(dir, number).to_sd(alloc)?;
    let name = name_text(alloc, dir, number)?;
    let mut out = Vec::new(alloc);
    put_lines(alloc, &mut out, dir.schema(), name.as_slice(), &sd)?;
    Ok(out)
}
