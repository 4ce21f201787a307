//! The line of a fault.

ghost use Rattle.std.specs.Prelude.{◌≡◌, IfOk};
ghost use Rattle.ad_ldifmod.specs.declared.fault.GrantFault.TheVariants.{Bad};
ghost use Rattle.cmd_grants.specs.Lines.{word_of, grant_line};

use ad_ldifmod::GrantKind;
use cmd_call::fault_line;
use std::alloc::{AllocError, Global};

fn word_of(kind: GrantKind) -> &'static str
    ensures { result.now ≡ word_of kind }
{
    match kind {
        GrantKind::Form => "form",
        GrantKind::Entry => "entry",
        GrantKind::Name => "name",
        GrantKind::TooLong => "too long",
    }
}

/// The line that says which line goes wrong, and why.
///
/// # Errors
///
/// Memory ran out.
pub(crate) fn grant_line(alloc: Global, line: u32, kind: GrantKind) -> Result<Vec<u8>, AllocError>
    ensures { IfOk result (λ text. text.items ≡ grant_line (Bad line kind)) }
{
    fault_line(alloc, line, word_of(kind).as_bytes())
}
