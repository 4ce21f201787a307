//! What a question asks for at an object, and whether a token meets it.

ghost use Rattle.std.specs.Prelude.{◌≡◌, true, map, IfOk};
ghost use Rattle.std.specs.List.{AllByRecursion};
ghost use Rattle.ad_types.specs.Path.{guids_of};
ghost use Rattle.ad_dir_model.specs.Objects.{is_live};
ghost use Rattle.ad_access_dir.specs.Sight.{is_granted};
ghost use Rattle.ad_needs_rules.specs.Needs.{is_met};
ghost use Rattle.ad_questions.specs.Question.{IsQuestion};
ghost use Rattle.ad_questions.specs.Requirements.{requirements, are_met, is_allowed, alternative_seen, requirements_seen};
ghost use Rattle.ad_questions.specs.Requirements.{IsJudged, AreJudged};

use crate::alternative::{Alternative, push_none};
use crate::asking::{put_request, put_sight_for};
use crate::possible::is_for;
use crate::question::Question;
use ad_access_dir::grants;
use ad_dir::Dir;
use ad_ids::Token;
use std::alloc::{AllocError, Global};

// The requirements, one after the other.
#[tactic(auto, unfolding(crate::specs::Requirements::requirements))]
fn collected(
    alloc: Global,
    dir: &Dir,
    question: Question,
    number: u32,
) -> Result<Vec<Vec<Alternative>>, AllocError>
    requires live { is_live dir.now.objects number ≡ true }
    requires known { IsQuestion dir.now.schema question }
    ensures { IfOk result (λ found. requirements_seen found.items
        ≡ requirements dir.now question number) }
{
    let mut found = Vec::new(alloc);
    if !is_for(dir, question, number) {
        push_none(alloc, &mut found)?;
        return Ok(found);
    }
    put_sight_for(alloc, &mut found, dir, question, number)?;
    put_request(alloc, &mut found, dir, question, number)?;
    Ok(found)
}

/// What a question asks for at a live object: requirements in order, each of which has to be met by one of its
/// alternatives. One without alternatives is met by nobody: so it is where the request can't be for the object. Each
/// alternative is of a live object, and of a right that is no generic one.
///
/// # Errors
///
/// Memory ran out.
pub fn requirements(
    alloc: Global,
    dir: &Dir,
    question: Question,
    number: u32,
) -> Result<Vec<Vec<Alternative>>, AllocError>
    requires live { is_live dir.now.objects number ≡ true }
    requires known { IsQuestion dir.now.schema question }
    ensures needed { IfOk result (λ found. requirements_seen found.items
        ≡ requirements dir.now question number) }
    ensures judged { IfOk result (λ found. AreJudged dir.now (requirements_seen found.items)) }
{
    dir.invariants();
    collected(alloc, dir, question, number)
}

// ---- whether a token meets it

// The right is granted, which is no generic one.
fn is_right_granted(dir: &Dir, token: &Token, alternative: Alternative) -> bool
    requires { IsJudged dir.now (alternative_seen alternative) }
    ensures { result ≡ is_granted dir.now token.now alternative.object (guids_of alternative.path)
        alternative.bit }
{
    let right = 1 << alternative.bit;
    grants(dir, token, alternative.object, &alternative.path, right)
}

/// Whether one of some alternatives is granted, each of which is of a live object.
#[tactic(auto, unfolding(ad_needs_rules::specs::Needs::is_met))]
pub fn is_met(dir: &Dir, token: &Token, requirement: &[Alternative]) -> bool
    requires { AllByRecursion (IsJudged dir.now) (map alternative_seen requirement.now) }
    ensures { result ≡ is_met dir.now token.now (map alternative_seen requirement.now) }
{
    for alternative in requirement {
        if is_right_granted(dir, token, *alternative) {
            return true;
        }
    }
    false
}

/// Whether each of some requirements is met.
pub fn are_met(dir: &Dir, token: &Token, requirements: &[Vec<Alternative>]) -> bool
    requires { AreJudged dir.now (requirements_seen requirements.now) }
    ensures { result ≡ are_met dir.now token.now (requirements_seen requirements.now) }
{
    for requirement in requirements {
        if !is_met(dir, token, requirement.as_slice()) {
            return false;
        }
    }
    true
}

/// Whether a token is told yes: it meets what the question asks for at a live object.
///
/// # Errors
///
/// Memory ran out.
#[tactic(auto, unfolding(crate::specs::Requirements::is_allowed))]
pub fn is_allowed(
    alloc: Global,
    dir: &Dir,
    token: &Token,
    question: Question,
    number: u32,
) -> Result<bool, AllocError>
    requires live { is_live dir.now.objects number ≡ true }
    requires known { IsQuestion dir.now.schema question }
    ensures { IfOk result (λ allowed. allowed ≡ is_allowed dir.now token.now question number) }
{
    let needed = requirements(alloc, dir, question, number)?;
    Ok(are_met(dir, token, needed.as_slice()))
}
