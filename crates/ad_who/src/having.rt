//! Who has a right on an object: each identity, by its token.

ghost use Rattle.std.specs.Prelude.{◌≡◌, ◌++◌, [], Option, None, List, ℕ, true, All, IfOk, IfErr, OnOk};
ghost use Rattle.ad_dir_model.specs.Objects.{is_live};
ghost use Rattle.ad_ids.specs.declared.token.Token.{Token as TokenValue};
ghost use Rattle.ad_identities.specs.declared.identity.Identity.{Identity as IdentityValue};
ghost use Rattle.ad_identities.specs.Identities.{IsIdentity, AreIdentities};
ghost use Rattle.ad_principals.specs.Membership.{AreMembersOf};
ghost use Rattle.ad_questions.specs.Question.{IsQuestion};
ghost use Rattle.ad_questions.specs.Requirements.{requirements, requirements_seen, AreJudged};
ghost use Rattle.ad_who.specs.Lines.{identity_text, IsTokenIf, told_line, who_line, AreWhoLines};
ghost use Rattle.ad_who.specs.Faults.{IsLiveIf, IsOfLive};
ghost use Rattle.ad_who.specs.Answers.{IsWhoText, IsWhoRefusal};

use crate::fault::AskFault;
use crate::identity::{identity_lives, put_identity, token_if};
use crate::pieces::put_reason;
use crate::reason::reason_on;
use crate::tokens::object_named;
use ad_dir::Dir;
use ad_identities::{Identity, identities};
use ad_ids::Token;
use ad_principals::{Members, put};
use ad_questions::{Alternative, Question, question_of, requirements};
use std::alloc::{AllocError, Global};

// The line of an identity with its token, where this meets what is needed of an object.
#[tactic(auto, unfolding(crate::specs::Lines::told_line))]
fn put_token_line(
    alloc: Global,
    into: &mut Vec<u8>,
    dir: &Dir,
    number: u32,
    needed: &[Vec<Alternative>],
    identity: &Identity,
    token: &Token,
) -> Result<(), AllocError>
    requires judged { AreJudged dir.now (requirements_seen needed.now) }
    requires named { IsLiveIf dir.now identity.now.number }
    requires alone { token.now.restricting ≡ [] }
    ensures { OnOk result (into.new.items ≡ into.old.items ++ told_line dir.now token.now number
        (requirements_seen needed.now) (identity_text dir.now identity.now)) }
{
    let reason = match reason_on(dir, token, number, needed) {
        Some(reason) => reason,
        None => return Ok(()),
    };
    put_reason(into, reason)?;
    put_identity(alloc, into, dir, identity)
}

// The line of one without a token.
fn put_none_line(
    alloc: Global,
    into: &mut Vec<u8>,
    dir: &Dir,
    number: u32,
    needed: &[Vec<Alternative>],
    identity: &Identity,
) -> Result<(), AllocError>
    requires { IsLiveIf dir.now identity.now.number }
    ensures { OnOk result (into.new.items ≡ into.old.items ++ who_line dir.now number
        (requirements_seen needed.now) identity.now None) }
{
    put(into, b"none ")?;
    put_identity(alloc, into, dir, identity)
}

// The line of an identity.
fn put_who_line(
    alloc: Global,
    into: &mut Vec<u8>,
    dir: &Dir,
    members: &Members,
    number: u32,
    needed: &[Vec<Alternative>],
    identity: &Identity,
) -> Result<(), AllocError>
    requires members { AreMembersOf dir.now members.now }
    requires judged { AreJudged dir.now (requirements_seen needed.now) }
    requires identity { IsIdentity dir.now identity.now }
    ensures { OnOk result ((token : Option TokenValue) × IsTokenIf dir.now identity.now token
        × (into.new.items ≡ into.old.items ++ who_line dir.now number
        (requirements_seen needed.now) identity.now token)) }
{
    identity_lives(dir, identity);
    let found = token_if(alloc, dir, members, identity)?;
    match found {
        Some(token) => put_token_line(alloc, into, dir, number, needed, identity, &token),
        None => put_none_line(alloc, into, dir, number, needed, identity),
    }
}

// The lines of identities.
fn put_who_lines(
    alloc: Global,
    into: &mut Vec<u8>,
    dir: &Dir,
    members: &Members,
    number: u32,
    needed: &[Vec<Alternative>],
    identities: &[Identity],
) -> Result<(), AllocError>
    requires members { AreMembersOf dir.now members.now }
    requires judged { AreJudged dir.now (requirements_seen needed.now) }
    requires identities { All (IsIdentity dir.now) identities.now }
    ensures { OnOk result ((lines : List ℕ) × (into.new.items ≡ into.old.items ++ lines)
        × AreWhoLines dir.now number (requirements_seen needed.now) identities.now lines) }
{
    for identity in identities {
        put_who_line(alloc, into, dir, members, number, needed, identity)?;
    }
    Ok(())
}

// The lines of all identities, for a question about a live object.
fn who_of(alloc: Global, dir: &Dir, question: Question, number: u32) -> Result<Vec<u8>, AllocError>
    requires known { IsQuestion dir.now.schema question }
    requires live { is_live dir.now.objects number ≡ true }
    ensures { IfOk result (λ text. (all : List IdentityValue) × AreIdentities dir.now all
        × AreWhoLines dir.now number (requirements dir.now question number) all text.items) }
{
    let needed = requirements(alloc, dir, question, number)?;
    let all = identities(alloc, dir)?;
    let members = Members::of(alloc, dir)?;
    let mut text = Vec::new(alloc);
    put_who_lines(
        alloc,
        &mut text,
        dir,
        &members,
        number,
        needed.as_slice(),
        all.as_slice(),
    )?;
    Ok(text)
}

/// A line for each identity whose token is told yes to a question about the object of a name, in the order of identities:
/// why, its identifier and its name; and `none` in place of why for each that has too many groups for a token.
///
/// # Errors
///
/// The first from the left: `NoRight`, `NoObject` or `Several` of the name. `Memory` where memory ran out.
pub(crate) fn who_lines(
    alloc: Global,
    dir: &Dir,
    right: &[u8],
    name: &[u8],
) -> Result<Vec<u8>, AskFault>
    ensures text { IfOk result (λ text. IsWhoText dir.now right.now name.now text.items) }
    ensures refusal { IfErr result (IsWhoRefusal dir.now right.now name.now) }
    ensures live { IfErr result (IsOfLive dir.now) }
{
    let question = match question_of(dir.schema(), right) {
        Some(question) => question,
        None => return Err(AskFault::NoRight),
    };
    let number = object_named(alloc, dir, name)?;
    let text = who_of(alloc, dir, question, number)?;
    Ok(text)
}
