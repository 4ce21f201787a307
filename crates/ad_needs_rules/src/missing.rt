//! Which need of an operation is missing.

ghost use Rattle.std.specs.Prelude.{◌≡◌, ◌||◌, [], ◌∷◌, true, IfOk};
ghost use Rattle.ad_dir_model.specs.Objects.{is_live};
ghost use Rattle.ad_needs_rules.specs.Needs.{is_met, need_of};
ghost use Rattle.ad_needs_rules.specs.Checks.{all_met};
ghost use Rattle.ad_needs_rules.specs.Judged.{asked, refusal_of};

use crate::asking::{Ask, is_granted, want_of};
use crate::need::Need;
use crate::outcome::Verdict;
use ad_bytes::List;
use ad_dir::Dir;
use ad_ids::Token;
use std::alloc::{AllocError, Global};

fn need_of_one(alloc: Global, ask: &Ask) -> Result<Need, AllocError>
    ensures { IfOk result (λ need. need ≡ need_of (asked ask.now ∷ [])) }
{
    let mut alternatives = List::new(alloc);
    alternatives.push(want_of(ask))?;
    Ok(Need { alternatives })
}

fn need_of_either(alloc: Global, first: &Ask, second: &Ask) -> Result<Need, AllocError>
    ensures { IfOk result (λ need. need ≡ need_of (asked first.now ∷ asked second.now ∷ [])) }
{
    let mut alternatives = List::new(alloc);
    alternatives.push(want_of(first))?;
    alternatives.push(want_of(second))?;
    Ok(Need { alternatives })
}

#[tactic(auto, unfolding(crate::specs::Needs::is_met))]
fn is_one_met(dir: &Dir, token: &Token, ask: &Ask) -> bool
    requires { is_live dir.now.objects ask.now.object ≡ true }
    ensures { result ≡ is_met dir.now token.now (asked ask.now ∷ []) }
{
    is_granted(dir, token, ask)
}

#[tactic(auto, unfolding(crate::specs::Needs::is_met))]
fn is_either_met(dir: &Dir, token: &Token, first: &Ask, second: &Ask) -> bool
    requires first { is_live dir.now.objects first.now.object ≡ true }
    requires second { is_live dir.now.objects second.now.object ≡ true }
    ensures { result ≡ is_met dir.now token.now (asked first.now ∷ asked second.now ∷ []) }
{
    is_granted(dir, token, first) || is_granted(dir, token, second)
}

/// The refusal where what is asked for isn't granted. Its object is live.
///
/// # Errors
///
/// Memory ran out.
#[tactic(auto, unfolding(crate::specs::Judged::refusal_of, crate::specs::Checks::first_failing))]
pub fn unless_granted(
    alloc: Global,
    dir: &Dir,
    token: &Token,
    ask: &Ask,
) -> Result<Option<Verdict>, AllocError>
    requires { is_live dir.now.objects ask.now.object ≡ true }
    ensures { IfOk result (λ refusal. refusal
        ≡ refusal_of (all_met dir.now token.now ((asked ask.now ∷ []) ∷ []))) }
{
    if is_one_met(dir, token, ask) {
        return Ok(None);
    }
    let need = need_of_one(alloc, ask)?;
    Ok(Some(Verdict::Missing(need)))
}

/// The refusal where neither of the two is granted. Their objects are live.
///
/// # Errors
///
/// Memory ran out.
#[tactic(auto, unfolding(crate::specs::Judged::refusal_of, crate::specs::Checks::first_failing))]
pub fn unless_either(
    alloc: Global,
    dir: &Dir,
    token: &Token,
    first: &Ask,
    second: &Ask,
) -> Result<Option<Verdict>, AllocError>
    requires first { is_live dir.now.objects first.now.object ≡ true }
    requires second { is_live dir.now.objects second.now.object ≡ true }
    ensures { IfOk result (λ refusal. refusal
        ≡ refusal_of (all_met dir.now token.now ((asked first.now ∷ asked second.now ∷ []) ∷ []))) }
{
    if is_either_met(dir, token, first, second) {
        return Ok(None);
    }
    let need = need_of_either(alloc, first, second)?;
    Ok(Some(Verdict::Missing(need)))
}
