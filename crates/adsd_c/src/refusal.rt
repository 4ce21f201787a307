//! Why a call gives nothing, and the code for it.

ghost use Rattle.std.specs.Prelude.{◌≡◌};
ghost use Rattle.adsd_c.specs.declared.refusal.Refusal.TheVariants.{Memory as NoMemory};
ghost use Rattle.adsd_c.specs.Refusal.{code_of, code_of_kind, place_of};

use ad_acl::AclWriteFault;
use ad_sddl::{SddlFault, SddlKind};
use std::alloc::AllocError;

/// Why a call gives nothing.
#[derive(Clone, Copy, Debug, PartialEq, Eq)]
pub(crate) enum Refusal {
    /// Memory ran out.
    Memory,
    /// The bytes of the descriptor are none.
    Sd,
    /// The bytes of the parent's descriptor are none.
    Parent,
    /// The bytes of the token are none.
    Token,
    /// The bytes of the object's own identifier are neither one nor absent.
    OwnSid,
    /// The bytes of the path aren't none to three GUIDs.
    Path,
    /// The levels make no tree.
    Tree,
    /// The bytes or the text of an identifier are none.
    Sid,
    /// The bytes or the text of a GUID are none.
    Guid,
    /// A list takes more than 65,535 bytes.
    TooLong,
    /// The bytes are the normal bytes of no descriptor.
    Normal,
    /// The bytes of the domain's identifier are neither one nor absent.
    Domain,
    /// A descriptor's text goes wrong after so many bytes.
    Text { place: usize, kind: SddlKind },
}

impl From<AllocError> for Refusal {
    ghost from_gives = { λ _ e. e ≡ NoMemory };

    fn from(_: AllocError) -> Refusal {
        Refusal::Memory
    }
}

impl From<AclWriteFault> for Refusal {
    ghost use Rattle.adsd_c.specs.Refusal.{of_list};

    ghost from_gives = { λ fault e. e ≡ of_list fault };

    fn from(fault: AclWriteFault) -> Refusal {
        match fault {
            AclWriteFault::TooLong => Refusal::TooLong,
            AclWriteFault::Memory => Refusal::Memory,
        }
    }
}

impl From<SddlFault> for Refusal {
    ghost use Rattle.adsd_c.specs.Refusal.{of_text};

    ghost from_gives = { λ fault e. e ≡ of_text fault };

    fn from(fault: SddlFault) -> Refusal {
        match fault {
            SddlFault::Bad { place, kind } => Refusal::Text { place, kind },
            SddlFault::Memory => Refusal::Memory,
        }
    }
}

fn code_of_kind(kind: SddlKind) -> u32
    ensures { result ≡ code_of_kind kind }
{
    match kind {
        SddlKind::Part => 32,
        SddlKind::Repeated => 33,
        SddlKind::Sid => 34,
        SddlKind::Domain => 35,
        SddlKind::AceKind => 36,
        SddlKind::Flag => 37,
        SddlKind::Rights => 38,
        SddlKind::Guid => 39,
        SddlKind::Shape => 40,
    }
}

/// The code that tells it.
pub(crate) fn code_of(fault: Refusal) -> u32
    ensures { result ≡ code_of fault }
{
    match fault {
        Refusal::Memory => 1,
        Refusal::Sd => 3,
        Refusal::Parent => 4,
        Refusal::Token => 5,
        Refusal::OwnSid => 6,
        Refusal::Path => 7,
        Refusal::Tree => 8,
        Refusal::Sid => 9,
        Refusal::Guid => 10,
        Refusal::TooLong => 11,
        Refusal::Normal => 12,
        Refusal::Domain => 13,
        Refusal::Text { kind, .. } => code_of_kind(kind),
    }
}

/// How many bytes of a text stand before what goes wrong.
pub(crate) fn place_of(fault: Refusal) -> usize
    ensures { result ≡ place_of fault }
{
    match fault {
        Refusal::Text { place, .. } => place,
        _ => 0,
    }
}
