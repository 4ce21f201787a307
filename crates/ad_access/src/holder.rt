//! The passes of a token, and which identifiers answer in each.

ghost use Rattle.std.specs.Prelude.{◌≡◌, ℕ, List, Ok};
ghost use Rattle.ad_ids.specs.SidValue.{SidValue};
ghost use Rattle.ad_ids.specs.SidReading.{sid_at};
ghost use Rattle.ad_ids.specs.SidBegun.{begins_with_one};
ghost use Rattle.ad_access.specs.Holder.{holds, denies_by, answers_to};
ghost use Rattle.ad_access.specs.Rank.{holder_of};

use ad_acl::AceKind;
use ad_ids::{Sid, Token};

/// Which of the principals of a token.
#[derive(Clone, Copy)]
pub enum Rank {
    /// The one that holds the user and the enabled groups.
    First,
    /// The one that holds the restricting identifiers.
    Second,
}

/// Whether the principal holds the identifier.
pub fn holds(token: &Token, rank: Rank, sid: &Sid) -> bool
    ensures { result ≡ holds (holder_of token.now rank) sid.now }
{
    match rank {
        Rank::First => token.holds(sid),
        Rank::Second => token.restricting.contains(sid),
    }
}

/// Whether the principal denies by the identifier.
pub fn denies_by(token: &Token, rank: Rank, sid: &Sid) -> bool
    ensures { result ≡ denies_by (holder_of token.now rank) sid.now }
{
    match rank {
        Rank::First => { holds(token, rank, sid) || token.deny_only.contains(sid) }
        Rank::Second => holds(token, rank, sid),
    }
}

/// Whether the principal answers to the identifier for an entry of this kind: an allow entry asks whether
/// it holds it, any other whether it denies by it.
pub fn answers_to(kind: AceKind, token: &Token, rank: Rank, sid: &Sid) -> bool
    ensures { result ≡ answers_to kind (holder_of token.now rank) sid.now }
{
    match kind {
        AceKind::Allow => holds(token, rank, sid),
        AceKind::Deny | AceKind::Audit => denies_by(token, rank, sid),
    }
}

// Whether the principal holds the identifier that the bytes begin with.
fn holds_begun(token: &Token, rank: Rank, bytes: &[u8]) -> bool
    ensures { result ≡ begins_with_one bytes.now (holder_of token.now rank).held }
{
    match rank {
        Rank::First => token.user.begins(bytes) || token.groups.contains_begun(bytes),
        Rank::Second => token.restricting.contains_begun(bytes),
    }
}

// Whether the principal denies by the identifier that the bytes begin with.
fn denies_by_begun(token: &Token, rank: Rank, bytes: &[u8]) -> bool
    ensures { result ≡ begins_with_one bytes.now (holder_of token.now rank).denied_by }
{
    match rank {
        Rank::First => { holds_begun(token, rank, bytes) || token.deny_only.contains_begun(bytes) }
        Rank::Second => holds_begun(token, rank, bytes),
    }
}

/// The same as [`answers_to`], of the identifier that the bytes begin with.
pub fn answers_to_begun(kind: AceKind, token: &Token, rank: Rank, bytes: &[u8]) -> bool
    ensures { (sid : SidValue) (rest : List ℕ) → sid_at bytes.now ≡ Ok (sid, rest)
        → result ≡ answers_to kind (holder_of token.now rank) sid }
{
    match kind {
        AceKind::Allow => holds_begun(token, rank, bytes),
        AceKind::Deny => denies_by_begun(token, rank, bytes),
        AceKind::Audit => denies_by_begun(token, rank, bytes),
    }
}
