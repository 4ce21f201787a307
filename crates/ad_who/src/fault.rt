//! Why a question isn't answered, and the line that says so.

ghost use Rattle.std.specs.Prelude.{◌≡◌, IfOk};
ghost use Rattle.ad_who.specs.declared.fault.AskFault.TheVariants as ask_fault;
ghost use Rattle.ad_who.specs.Faults.{fault_line, IsLiveIf, IsOfLive};

use crate::identity::put_name_or;
use ad_dir::Dir;
use ad_principals::put;
use std::alloc::{AllocError, Global};

/// Why a question isn't answered.
#[derive(Clone, Copy, Debug, PartialEq, Eq)]
pub enum AskFault {
    /// Nothing has the name.
    NoObject,
    /// Several accounts have it.
    Several,
    /// What has the name is no identity.
    NoPrincipal,
    /// A further identifier isn't the text of one.
    NoIdentifier,
    /// The right is none, or nothing has the name in it.
    NoRight,
    /// The identity has more groups than a token may: that of the object of this number, or one without.
    TooMany(Option<u32>),
    /// Memory ran out.
    Memory,
}

impl From<AllocError> for AskFault {
    ghost from_gives = { λ _ e. e ≡ ask_fault.Memory };

    fn from(_: AllocError) -> AskFault {
        AskFault::Memory
    }
}

fn whole(alloc: Global, line: &[u8]) -> Result<Vec<u8>, AllocError>
    ensures { IfOk result (λ text. text.items ≡ line.now) }
{
    line.to_vec(alloc)
}

fn many(alloc: Global, dir: &Dir, number: Option<u32>) -> Result<Vec<u8>, AllocError>
    requires { IsLiveIf dir.now number }
    ensures { IfOk result (λ text. text.items ≡ fault_line dir.now (ask_fault.TooMany number)) }
{
    let mut text = Vec::new(alloc);
    put(&mut text, b"too many groups ")?;
    put_name_or(alloc, &mut text, dir, number)?;
    Ok(text)
}

/// The line of a fault; that of want of memory is empty.
///
/// # Errors
///
/// Memory ran out.
pub(crate) fn line_of(alloc: Global, dir: &Dir, fault: AskFault) -> Result<Vec<u8>, AllocError>
    requires { IsOfLive dir.now fault }
    ensures { IfOk result (λ text. text.items ≡ fault_line dir.now fault) }
{
    match fault {
        AskFault::NoObject => whole(alloc, b"no object\n"),
        AskFault::Several => whole(alloc, b"several objects\n"),
        AskFault::NoPrincipal => whole(alloc, b"no principal\n"),
        AskFault::NoIdentifier => whole(alloc, b"no identifier\n"),
        AskFault::NoRight => whole(alloc, b"no right\n"),
        AskFault::TooMany(number) => many(alloc, dir, number),
        AskFault::Memory => whole(alloc, b""),
    }
}
