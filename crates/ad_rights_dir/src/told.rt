//! What is told: an answer, or the line that says why there is none.

ghost use Rattle.std.specs.Prelude.{◌≡◌, ◌++◌, List, true, false, All, IfOk};
ghost use Rattle.std.specs.List.{flat_map};
ghost use Rattle.std.specs.Option.{option_map};
ghost use Rattle.ad_bytes.specs.Reading.{GivesUnless};
ghost use Rattle.ad_principals.specs.Named.{is_memory};
ghost use Rattle.ad_questions.specs.Question.{IsQuestion};
ghost use Rattle.ad_ids.specs.declared.token.Token.{Token as TokenValue};
ghost use Rattle.ad_identities.specs.declared.identity.Identity.{Identity as IdentityValue};
ghost use Rattle.ad_identities.specs.Identities.{AreIdentities};
ghost use Rattle.ad_sets.specs.Told.{row_facts};
ghost use Rattle.ad_rights_rows.specs.Rows.{AreParties, rows_below};
ghost use Rattle.ad_rights_dir.specs.Rights.{none_line, fact_line, base_named, RightsTold};
ghost use Rattle.ad_rights_rows.specs.Kept.{AreKept};
ghost use Rattle.ad_rights_dir.specs.Kept.{IsOfLive};

use crate::lines::{put_facts, put_none_lines};
use ad_dir::{Dir, ROOT};
use ad_principals::{NameFault, principal_named};
use ad_questions::{Question, question_of};
use ad_rights_judged::Judged;
use ad_rights_rows::{Parties, all_parties, below, places, put_ends, told_rows};
use ad_sets::{Fact, facts_of};
use std::alloc::{AllocError, Global};

/// A text, and whether it is an answer; else it is the line that says why there is none.
#[derive(Drop)]
pub struct Answer {
    pub answered: bool,
    pub text: Vec<u8>,
}

fn refusal(alloc: Global, line: &[u8]) -> Result<Answer, AllocError>
    ensures { IfOk result (λ told. (told.answered ≡ false) × (told.text.items ≡ line.now)) }
{
    let text = line.to_vec(alloc)?;
    Ok(Answer {
        answered: false,
        text,
    })
}

// The object of a name, and the root where none is given.
fn base_named(alloc: Global, dir: &Dir, base: Option<&str>) -> Result<u32, NameFault>
    ensures { GivesUnless is_memory (λ number. number) result (base_named dir.now
        (option_map (λ text. text.now) base.entry)) }
{
    match base {
        Some(base) => principal_named(alloc, dir, base.as_bytes()),
        None => Ok(ROOT),
    }
}

// What is told of the objects at and below a base.
fn facts(
    alloc: Global,
    dir: &Dir,
    parties: &Parties,
    question: Question,
    from: u32,
) -> Result<Vec<Fact>, AllocError>
    requires question { IsQuestion dir.now.schema question }
    requires parties { AreKept dir.now parties.now }
    ensures facts { IfOk result (λ facts. facts.items ≡ row_facts (rows_below dir.now
        parties.now.members.items parties.now.tokens.all.items question from)) }
    ensures live { IfOk result (λ facts. All (IsOfLive dir.now) facts.items) }
{
    let all = below(alloc, dir, from)?;
    let places = places(alloc, parties.members.as_slice())?;
    let mut judged = Judged::new(alloc);
    let ends = put_ends(alloc, dir, &parties.tokens, &mut judged)?;
    let rows = told_rows(
        alloc,
        dir,
        parties,
        &places,
        &mut judged,
        ends,
        question,
        all.as_slice(),
    )?;
    facts_of(alloc, judged.sets(), rows.as_slice())
}

// The lines of parties.
fn lines(
    alloc: Global,
    dir: &Dir,
    parties: &Parties,
    question: Question,
    from: u32,
) -> Result<Vec<u8>, AllocError>
    requires question { IsQuestion dir.now.schema question }
    requires parties { AreKept dir.now parties.now }
    ensures { IfOk result (λ text. text.items ≡ flat_map (none_line dir.now) parties.now.without.items
        ++ flat_map (fact_line dir.now parties.now.members.items) (row_facts (rows_below dir.now
        parties.now.members.items parties.now.tokens.all.items question from))) }
{
    let facts = facts(alloc, dir, parties, question, from)?;
    let mut text = Vec::new(alloc);
    put_none_lines(alloc, &mut text, dir, parties.without.as_slice())?;
    put_facts(
        alloc,
        &mut text,
        dir,
        parties.members.as_slice(),
        facts.as_slice(),
    )?;
    Ok(text)
}

fn text_of(alloc: Global, dir: &Dir, question: Question, from: u32) -> Result<Vec<u8>, AllocError>
    requires { IsQuestion dir.now.schema question }
    ensures { IfOk result (λ text. (all : List IdentityValue) × (members : List IdentityValue)
        × (tokens : List TokenValue) × (without : List IdentityValue) × AreIdentities dir.now all
        × AreParties dir.now all members tokens without
        × (text.items ≡ flat_map (none_line dir.now) without ++ flat_map (fact_line dir.now members)
        (row_facts (rows_below dir.now members tokens question from)))) }
{
    let parties = all_parties(alloc, dir)?;
    lines(alloc, dir, &parties, question, from)
}

/// Who is told yes to a question on which objects at and below a base: the line of each identity that has too many
/// groups for a token; and then, by rising numbers of objects, the members of each set at the first object that it
/// tells, and the line of each object on which anybody is told yes. Or the line that says which word is wrong, from the
/// left. Where no base is given it is the root.
///
/// # Errors
///
/// Memory ran out.
pub fn rights(
    alloc: Global,
    dir: &Dir,
    right: &str,
    base: Option<&str>,
) -> Result<Answer, AllocError>
    ensures { IfOk result (λ told. RightsTold dir.now right.now
        (option_map (λ text. text.now) base.entry) told.answered told.text.items) }
{
    let Some(question) = question_of(dir.schema(), right.as_bytes()) else {
        return refusal(alloc, b"no right\n");
    };
    match base_named(alloc, dir, base) {
        Ok(from) => {
            let text = text_of(alloc, dir, question, from)?;
            Ok(Answer {
                answered: true,
                text,
            })
        }
        Err(NameFault::NoObject) => refusal(alloc, b"no object\n"),
        Err(NameFault::Several) => refusal(alloc, b"several objects\n"),
        Err(NameFault::Memory) => Err(AllocError),
    }
}
