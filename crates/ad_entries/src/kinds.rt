//! The kinds of objects: of those of one kind a token may read and change the same attributes.

ghost use Rattle.std.specs.Prelude.{◌≡◌, ℕ, true, IsTrue};
ghost use Rattle.std.specs.Option.{option_copied};
ghost use Rattle.ad_acl.specs.declared.kind.AceKind.TheVariants.{Allow, Deny};
ghost use Rattle.ad_ids.specs.declared.token.Token.{Token as Asker};
ghost use Rattle.ad_access.specs.Holder.{first_holder, second_holder, holds, denies_by};
ghost use Rattle.ad_dir_model.specs.Objects.{is_live};
ghost use Rattle.ad_entries.specs.Kinds.{AnswersSo, IsOf};

use ad_dir::{Dir, live_object};
use ad_ids::{Sid, Token};

/// How the principals of a token answer to the identifier that an object has of its own.
#[derive(Clone, Copy)]
pub struct SelfMatch {
    /// The first holds it.
    pub holds: bool,
    /// The first denies by it.
    pub denies: bool,
    /// The second holds it.
    pub restricted: bool,
}

/// The objects of one descriptor and class to whose own identifier the principals of a token answer alike.
#[derive(Clone, Copy)]
pub struct Kind {
    /// The number of an object that has the descriptor.
    pub sample: u32,
    pub class: u32,
    pub own: SelfMatch,
}

fn is_denied_by(token: &Token, sid: &Sid) -> bool
    ensures { result ≡ denies_by (first_holder token.now) sid.now }
{
    token.holds(sid) || token.deny_only.contains(sid)
}

fn is_restricted_to(token: &Token, sid: &Sid) -> bool
    ensures { result ≡ holds (second_holder token.now) sid.now }
{
    token.restricting.contains(sid)
}

// How the holders answer to an identifier, if there is one.
fn answers(token: &Token, sid: Option<&Sid>) -> SelfMatch
    ensures { AnswersSo token.now (option_copied sid.entry) result }
{
    match sid {
        Some(sid) => SelfMatch {
            holds: token.holds(sid),
            denies: is_denied_by(token, sid),
            restricted: is_restricted_to(token, sid),
        },
        None => SelfMatch {
            holds: false,
            denies: false,
            restricted: false,
        },
    }
}

/// The kind of a live object.
pub(crate) fn kind_of(dir: &Dir, token: &Token, number: u32) -> Kind
    requires { is_live dir.now.objects number ≡ true }
    ensures live { is_live dir.now.objects result.sample ≡ true }
    ensures of { IsOf dir.now token.now result number }
{
    Kind {
        sample: number,
        class: live_object(dir, number).class.0,
        own: answers(token, dir.self_sid(number)),
    }
}

fn same_own(a: SelfMatch, b: SelfMatch) -> bool
    ensures { IsTrue result → (a.holds ≡ b.holds) × (a.denies ≡ b.denies)
        × (a.restricted ≡ b.restricted) }
{
    a.holds == b.holds && a.denies == b.denies && a.restricted == b.restricted
}

/// Whether two kinds are one.
pub(crate) fn same_kind(dir: &Dir, a: Kind, b: Kind) -> bool
    requires a { is_live dir.now.objects a.sample ≡ true }
    requires b { is_live dir.now.objects b.sample ≡ true }
    ensures { IsTrue result → (token : Asker) (number : ℕ) → IsOf dir.now token a number
        → IsOf dir.now token b number }
{
    a.class == b.class && same_own(a.own, b.own) && dir.same_descriptor(a.sample, b.sample)
}
