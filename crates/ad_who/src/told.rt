//! What is told: an answer, or the line that says why there is none.

ghost use Rattle.std.specs.Prelude.{◌≡◌, true, false, map, IfOk};
ghost use Rattle.std.specs.Option.{option_map};
ghost use Rattle.std.specs.String.{string_bytes};
ghost use Rattle.ad_who.specs.Faults.{fault_line, is_memory, IsOfLive};
ghost use Rattle.ad_who.specs.Answers.{TokenTold, WhoTold, CanTold};

use crate::fault::{AskFault, line_of};
use crate::having::who_lines;
use crate::reaching::can_lines;
use crate::tokens::token_lines;
use ad_dir::Dir;
use std::alloc::{AllocError, Global};

/// A text, and whether it is an answer; else it is the line that says why there is none.
#[derive(Drop)]
pub struct Answer {
    pub answered: bool,
    pub text: Vec<u8>,
}

// The line of a fault, but for want of memory.
fn refusal(alloc: Global, dir: &Dir, fault: AskFault) -> Result<Answer, AllocError>
    requires { IsOfLive dir.now fault }
    ensures { IfOk result (λ told. (told.answered ≡ false) × (is_memory fault ≡ false)
        × (told.text.items ≡ fault_line dir.now fault)) }
{
    if fault == AskFault::Memory {
        return Err(AllocError);
    }
    let text = line_of(alloc, dir, fault)?;
    Ok(Answer {
        answered: false,
        text,
    })
}

fn answer_of(text: Vec<u8>) -> Answer
    ensures { (result.answered ≡ true) × (result.text.items ≡ text.items) }
{
    Answer {
        answered: true,
        text,
    }
}

/// The token of the object of a name, with the identifiers that further texts are: its user, owner, primary group,
/// groups and privileges, a line each; or the line that says which word is wrong, from the left, or why there is no
/// such token.
///
/// # Errors
///
/// Memory ran out.
pub fn token(alloc: Global, dir: &Dir, name: &str, sids: &[String]) -> Result<Answer, AllocError>
    ensures { IfOk result (λ told. TokenTold dir.now name.now (map string_bytes sids.now)
        told.answered told.text.items) }
{
    match token_lines(alloc, dir, name.as_bytes(), sids) {
        Ok(text) => Ok(answer_of(text)),
        Err(fault) => refusal(alloc, dir, fault),
    }
}

/// Who has a right on the object of a name: a line for each principal to whose token it is granted, by rising
/// numbers, with what decides, its identifier and its name; or the line that says which word is wrong, from the left,
/// or who has too many groups.
///
/// # Errors
///
/// Memory ran out.
pub fn who(alloc: Global, dir: &Dir, right: &str, name: &str) -> Result<Answer, AllocError>
    ensures { IfOk result (λ told. WhoTold dir.now right.now name.now told.answered
        told.text.items) }
{
    match who_lines(alloc, dir, right.as_bytes(), name.as_bytes()) {
        Ok(text) => Ok(answer_of(text)),
        Err(fault) => refusal(alloc, dir, fault),
    }
}

/// On which objects the token of the object of a name has a right: a line for each at or below the base on which it
/// is granted, by rising numbers, with what decides and its name; or the line that says which word is wrong, from the
/// left, or why there is no token. Where no base is given it is the root.
///
/// # Errors
///
/// Memory ran out.
pub fn can(
    alloc: Global,
    dir: &Dir,
    name: &str,
    right: &str,
    base: Option<&str>,
) -> Result<Answer, AllocError>
    ensures { IfOk result (λ told. CanTold dir.now name.now right.now
        (option_map (λ text. text.now) base.entry) told.answered told.text.items) }
{
    match can_lines(alloc, dir, name.as_bytes(), right.as_bytes(), base) {
        Ok(text) => Ok(answer_of(text)),
        Err(fault) => refusal(alloc, dir, fault),
    }
}
