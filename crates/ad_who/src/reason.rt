//! Why a token is told yes.

ghost use Rattle.std.specs.Prelude.{◌≡◌, [], Option, map, true};
ghost use Rattle.std.specs.List.{AllByRecursion};
ghost use Rattle.ad_types.specs.Path.{guids_of};
ghost use Rattle.ad_access_dir.specs.Sight.{is_granted};
ghost use Rattle.ad_questions.specs.Requirements.{alternative_seen, requirements_seen, IsJudged, AreJudged};
ghost use Rattle.ad_who.specs.Decider.{decider_at, grants};
ghost use Rattle.ad_who.specs.Reason.{last_of, on_object, reason_of, told};

use crate::decider::{Decider, decider_on};
use ad_dir::Dir;
use ad_ids::Token;
use ad_questions::{Alternative, are_met};

/// Why a token is told yes: what decides the right by which it meets the last requirement.
#[derive(Clone, Copy, Debug, PartialEq, Eq)]
pub enum Reason {
    /// Nothing is needed.
    Free,
    /// What decides a right on the object itself.
    Own(Decider),
    /// What decides a right on its parent.
    Above(Decider),
}

fn on_object(is_own: bool, decider: Decider) -> Reason
    ensures { result ≡ on_object is_own decider }
{
    if is_own {
        return Reason::Own(decider);
    }
    Reason::Above(decider)
}

// The last of some requirements.
fn last_of(needed: &[Vec<Alternative>]) -> &[Alternative]
    ensures { map alternative_seen result.now ≡ last_of (requirements_seen needed.entry.now) }
{
    match needed.last() {
        Some(last) => last.as_slice(),
        None => &[],
    }
}

// What decides one alternative.
fn decider_of(dir: &Dir, token: &Token, one: Alternative) -> Decider
    requires judged { IsJudged dir.now (alternative_seen one) }
    requires alone { token.now.restricting ≡ [] }
    ensures decider { result ≡ decider_at dir.now token.now one.object (guids_of one.path) one.bit }
    ensures granted { grants result ≡ is_granted dir.now token.now one.object (guids_of one.path)
        one.bit }
{
    decider_on(dir, token, one.object, &one.path, one.bit)
}

// What decides the first alternative that is granted.
#[tactic(auto, unfolding(crate::specs::Reason::reason_of))]
fn reason_of(dir: &Dir, token: &Token, number: u32, requirement: &[Alternative]) -> Reason
    requires judged { AllByRecursion (IsJudged dir.now) (map alternative_seen requirement.now) }
    requires alone { token.now.restricting ≡ [] }
    ensures { result ≡ reason_of dir.now token.now number (map alternative_seen requirement.now) }
{
    for one in requirement {
        let decider = decider_of(dir, token, *one);
        if decider.grants() {
            return on_object(one.object == number, decider);
        }
    }
    Reason::Free
}

/// Why a token without restricting identifiers meets requirements about an object: what decides the right by which it
/// meets the last of them. None where it doesn't meet one. It takes no memory.
#[tactic(auto, unfolding(crate::specs::Reason::told))]
pub fn reason_on(
    dir: &Dir,
    token: &Token,
    number: u32,
    needed: &[Vec<Alternative>],
) -> Option<Reason>
    requires judged { AreJudged dir.now (requirements_seen needed.now) }
    requires alone { token.now.restricting ≡ [] }
    ensures { result ≡ told dir.now token.now number (requirements_seen needed.now) }
{
    if !are_met(dir, token, needed) {
        return None;
    }
    Some(reason_of(dir, token, number, last_of(needed)))
}
