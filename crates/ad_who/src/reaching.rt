//! On which objects a principal has a right.

ghost use Rattle.std.specs.Prelude.{◌≡◌, ◌++◌, ◌∷◌, [], Ok, true, All, filter, if◌then◌else◌, Some, IfSome, IfOk, IfErr, OnOk};
ghost use Rattle.std.specs.List.{flat_map};
ghost use Rattle.std.specs.Option.{option_map};
ghost use Rattle.ad_dir_model.specs.Changes.{goes_with};
ghost use Rattle.ad_dir_model.specs.Objects.{is_live};
ghost use Rattle.ad_ids.specs.declared.token.Token.{Token as TokenValue};
ghost use Rattle.ad_identities.specs.declared.identity.Identity.{Identity as IdentityValue};
ghost use Rattle.ad_identities.specs.Identities.{IsIdentity, IsIdentityToken};
ghost use Rattle.ad_bytes.specs.Puts.{ended};
ghost use Rattle.ad_dir_model.specs.Names.{name_text};
ghost use Rattle.ad_questions.specs.Question.{IsQuestion};
ghost use Rattle.ad_questions.specs.Requirements.{requirements_seen, AreJudged};
ghost use Rattle.ad_who.specs.Lines.{told_line, can_line, can_text};
ghost use Rattle.ad_who.specs.Faults.{IsNameFault, IsNoIdentity, IsOfLive};
ghost use Rattle.ad_who.specs.Answers.{base_named, IsCanText, IsCanRefusal};

use crate::fault::AskFault;
use crate::identity::{identity_lives, token_if};
use crate::pieces::put_reason;
use crate::reason::reason_on;
use crate::tokens::{identity_asked, object_named};
use ad_dir::{Dir, ROOT, goes_with};
use ad_identities::Identity;
use ad_ids::Token;
use ad_principals::{Members, put_name};
use ad_questions::{Alternative, Question, question_of, requirements};
use std::alloc::{AllocError, Global};

// ---- the lines

// The line of a live object, where the token meets what is needed.
#[tactic(auto, unfolding(crate::specs::Lines::told_line))]
fn put_told_line(
    alloc: Global,
    into: &mut Vec<u8>,
    dir: &Dir,
    token: &Token,
    number: u32,
    needed: &[Vec<Alternative>],
) -> Result<(), AllocError>
    requires live { is_live dir.now.objects number ≡ true }
    requires judged { AreJudged dir.now (requirements_seen needed.now) }
    requires alone { token.now.restricting ≡ [] }
    ensures { OnOk result (into.new.items ≡ into.old.items ++ told_line dir.now token.now number
        (requirements_seen needed.now) (ended (name_text dir.now number))) }
{
    let reason = match reason_on(dir, token, number, needed) {
        Some(reason) => reason,
        None => return Ok(()),
    };
    put_reason(into, reason)?;
    put_name(alloc, into, dir, number)
}

// The line of a live object, where the token is told yes.
fn put_can_line(
    alloc: Global,
    into: &mut Vec<u8>,
    dir: &Dir,
    token: &Token,
    question: Question,
    number: u32,
) -> Result<(), AllocError>
    requires live { is_live dir.now.objects number ≡ true }
    requires known { IsQuestion dir.now.schema question }
    requires alone { token.now.restricting ≡ [] }
    ensures { OnOk result (into.new.items ≡ into.old.items ++ can_line dir.now token.now question
        number) }
{
    let needed = requirements(alloc, dir, question, number)?;
    put_told_line(alloc, into, dir, token, number, needed.as_slice())
}

// The same, where the object is the base or stands below it.
fn put_if_within(
    alloc: Global,
    into: &mut Vec<u8>,
    dir: &Dir,
    token: &Token,
    question: Question,
    base: u32,
    number: u32,
) -> Result<(), AllocError>
    requires live { is_live dir.now.objects number ≡ true }
    requires known { IsQuestion dir.now.schema question }
    requires alone { token.now.restricting ≡ [] }
    ensures { OnOk result (into.new.items ≡ into.old.items
        ++ flat_map (can_line dir.now token.now question) (if goes_with dir.now base number then number
        ∷ [] else [])) }
{
    if goes_with(dir, base, number) {
        return put_can_line(alloc, into, dir, token, question, number);
    }
    Ok(())
}

fn put_can_lines(
    alloc: Global,
    into: &mut Vec<u8>,
    dir: &Dir,
    token: &Token,
    question: Question,
    base: u32,
    numbers: &[u32],
) -> Result<(), AllocError>
    requires live { All (λ number. is_live dir.now.objects number ≡ true) numbers.now }
    requires known { IsQuestion dir.now.schema question }
    requires alone { token.now.restricting ≡ [] }
    ensures { OnOk result (into.new.items ≡ into.old.items
        ++ flat_map (can_line dir.now token.now question)
        (filter (goes_with dir.now base) numbers.now)) }
{
    for number in numbers {
        put_if_within(alloc, into, dir, token, question, base, *number)?;
    }
    Ok(())
}

#[tactic(auto, unfolding(crate::specs::Lines::can_text))]
fn can_text(
    alloc: Global,
    dir: &Dir,
    token: &Token,
    question: Question,
    base: u32,
) -> Result<Vec<u8>, AllocError>
    requires known { IsQuestion dir.now.schema question }
    requires alone { token.now.restricting ≡ [] }
    ensures { IfOk result (λ text. text.items ≡ can_text dir.now token.now question base) }
{
    let numbers = dir.numbers(alloc)?;
    let mut text = Vec::new(alloc);
    put_can_lines(
        alloc,
        &mut text,
        dir,
        token,
        question,
        base,
        numbers.as_slice(),
    )?;
    Ok(text)
}

// The object of a name, and the root where none is given.
fn base_named(alloc: Global, dir: &Dir, base: Option<&str>) -> Result<u32, AskFault>
    ensures number { IfOk result (λ number. base_named dir.now
        (option_map (λ text. text.now) base.entry) ≡ Ok number) }
    ensures fault { IfErr result
        (IsNameFault (base_named dir.now (option_map (λ text. text.now) base.entry))) }
{
    match base {
        Some(base) => object_named(alloc, dir, base.as_bytes()),
        None => Ok(ROOT),
    }
}

// The lines for the token of an identity.
fn can_of(
    alloc: Global,
    dir: &Dir,
    identity: &Identity,
    question: Question,
    base: u32,
) -> Result<Vec<u8>, AskFault>
    requires identity { IsIdentity dir.now identity.now }
    requires known { IsQuestion dir.now.schema question }
    ensures text { IfOk result (λ text. (token : TokenValue) × IsIdentityToken dir.now identity.now token
        × (text.items ≡ can_text dir.now token question base)) }
    ensures fault { IfErr result (IsNoIdentity dir.now (Some identity.now)) }
    ensures live { IfErr result (IsOfLive dir.now) }
{
    identity_lives(dir, identity);
    let members = Members::of(alloc, dir)?;
    match token_if(alloc, dir, &members, identity)? {
        Some(token) => Ok(can_text(alloc, dir, &token, question, base)?),
        None => Err(AskFault::TooMany(identity.number)),
    }
}

// The lines for what a name represents.
fn can_from(
    alloc: Global,
    dir: &Dir,
    found: Option<Identity>,
    question: Question,
    base: u32,
) -> Result<Vec<u8>, AskFault>
    requires identity { IfSome found (IsIdentity dir.now) }
    requires known { IsQuestion dir.now.schema question }
    ensures text { IfOk result (λ text. (identity : IdentityValue) × (found ≡ Some identity)
        × ((token : TokenValue) × IsIdentityToken dir.now identity token
        × (text.items ≡ can_text dir.now token question base))) }
    ensures fault { IfErr result (IsNoIdentity dir.now found) }
    ensures live { IfErr result (IsOfLive dir.now) }
{
    match found {
        Some(identity) => can_of(alloc, dir, &identity, question, base),
        None => Err(AskFault::NoPrincipal),
    }
}

/// A line for each object at and below a base about which the token of the identity of a name is told yes, by rising
/// numbers: why, and the object's name. Where no base is given it is the root.
///
/// # Errors
///
/// The first from the left: `NoObject` or `Several` of the name, `NoRight`, those of the base, and then `NoPrincipal`
/// or `TooMany` of the token. `Memory` where memory ran out.
pub(crate) fn can_lines(
    alloc: Global,
    dir: &Dir,
    name: &[u8],
    right: &[u8],
    base: Option<&str>,
) -> Result<Vec<u8>, AskFault>
    ensures text { IfOk result (λ text. IsCanText dir.now name.now right.now
        (option_map (λ text. text.now) base.entry) text.items) }
    ensures refusal { IfErr result (IsCanRefusal dir.now name.now right.now
        (option_map (λ text. text.now) base.entry)) }
    ensures live { IfErr result (IsOfLive dir.now) }
{
    let found = identity_asked(alloc, dir, name)?;
    let question = match question_of(dir.schema(), right) {
        Some(question) => question,
        None => return Err(AskFault::NoRight),
    };
    let from = base_named(alloc, dir, base)?;
    can_from(alloc, dir, found, question, from)
}
