//! The line that says why there are no differences.

ghost use Rattle.std.specs.Prelude.{◌≡◌, true, IfOk};
ghost use Rattle.ad_bytes.specs.Puts.{labelled};
ghost use Rattle.ad_dir_model.specs.Objects.{is_live};
ghost use Rattle.ad_dir_model.specs.Names.{name_text};
ghost use Rattle.ad_diff_rights.specs.Parties.{IsOfLive};
ghost use Rattle.ad_diff.specs.Answers.{fault_line};

use crate::pieces::put_name_line;
use ad_diff_rights::DiffFault;
use ad_dir::Dir;
use std::alloc::{AllocError, Global};

// The line of a label and the name of a live object.
fn name_line(alloc: Global, label: &[u8], dir: &Dir, number: u32) -> Result<Vec<u8>, AllocError>
    requires { is_live dir.now.objects number ≡ true }
    ensures { IfOk result (λ line. line.items ≡ labelled label.now (name_text dir.now number)) }
{
    let mut line = Vec::new(alloc);
    put_name_line(alloc, &mut line, label, dir, number)?;
    Ok(line)
}

/// The line of a fault; that of want of memory is empty.
///
/// # Errors
///
/// Out of memory.
pub(crate) fn line_of(
    alloc: Global,
    before: &Dir,
    after: &Dir,
    fault: DiffFault,
) -> Result<Vec<u8>, AllocError>
    requires { IsOfLive before.now after.now fault }
    ensures { IfOk result (λ line. line.items ≡ fault_line before.now after.now fault) }
{
    match fault {
        DiffFault::Before(number) => name_line(alloc, b"too many groups before ", before, number),
        DiffFault::After(number) => name_line(alloc, b"too many groups after ", after, number),
        DiffFault::Memory => Ok(Vec::new(alloc)),
    }
}
