//! What decides a step: why its last question is told yes.

ghost use Rattle.std.specs.Prelude.{◌≡◌, ◌++◌, [], true, map, codes, IfOk, OnOk, IfSome};
ghost use Rattle.std.specs.List.{list_any, list_all};
ghost use Rattle.std.specs.Option.{option_copied};
ghost use Rattle.ad_bytes.specs.Puts.{spaced};
ghost use Rattle.ad_dir_model.specs.Objects.{is_live};
ghost use Rattle.ad_control_graph.specs.Kinds.{row};
ghost use Rattle.ad_control_graph.specs.Texts.{texts_seen, asking_seen};
ghost use Rattle.ad_control.specs.Edges.{has_value, has_one, may_ask, goes};
ghost use Rattle.ad_control.specs.Lines.{what};
ghost use Rattle.ad_control_lines.specs.Deciding.{reason_for, last_reason, decided, reason_word};

use ad_control_graph::{Asking, Kind};
use ad_dir::Dir;
use ad_ids::Token;
use ad_policies::first_value;
use ad_principals::put_spaced;
use ad_questions::{is_allowed, question_of, requirements};
use ad_who::{Reason, put_reason, reason_on};
use std::alloc::{AllocError, Global};

// ---- whether a way goes

// The object has a value of the attribute of a name.
#[tactic(auto, unfolding(ad_control::specs::Edges::has_value))]
fn has_value(dir: &Dir, number: u32, name: &[u8]) -> bool
    ensures { result ≡ has_value dir.now number name.now }
{
    first_value(dir, number, dir.schema().attr(name)).is_some()
}

// It has a value of one of these.
fn has_any(dir: &Dir, number: u32, names: &[&[u8]]) -> bool
    ensures { result ≡ list_any (has_value dir.now number) (texts_seen names.now) }
{
    for name in names {
        if has_value(dir, number, name) {
            return true;
        }
    }
    false
}

// The same, or none is named.
fn has_one(dir: &Dir, number: u32, names: &[&[u8]]) -> bool
    ensures { result ≡ has_one dir.now number (texts_seen names.now) }
{
    names.is_empty() || has_any(dir, number, names)
}

// The token is told yes to the question of a text, if there is such a question.
#[tactic(auto, unfolding(ad_control::specs::Edges::may_ask))]
fn may_ask(
    alloc: Global,
    dir: &Dir,
    token: &Token,
    number: u32,
    text: &[u8],
) -> Result<bool, AllocError>
    requires { is_live dir.now.objects number ≡ true }
    ensures { IfOk result (λ told. told ≡ may_ask dir.now token.now number text.now) }
{
    match question_of(dir.schema(), text) {
        Some(question) => is_allowed(alloc, dir, token, question, number),
        None => Ok(false),
    }
}

// It is told yes to all of these.
fn may_ask_all(
    alloc: Global,
    dir: &Dir,
    token: &Token,
    number: u32,
    texts: &[&[u8]],
) -> Result<bool, AllocError>
    requires { is_live dir.now.objects number ≡ true }
    ensures { IfOk result (λ told. told ≡ list_all (may_ask dir.now token.now number)
        (texts_seen texts.now)) }
{
    for text in texts {
        if !may_ask(alloc, dir, token, number, text)? {
            return Ok(false);
        }
    }
    Ok(true)
}

#[tactic(auto, unfolding(ad_control::specs::Edges::goes))]
fn goes(
    alloc: Global,
    dir: &Dir,
    token: &Token,
    number: u32,
    way: Asking,
) -> Result<bool, AllocError>
    requires { is_live dir.now.objects number ≡ true }
    ensures { IfOk result (λ it. it ≡ goes dir.now token.now number (asking_seen way)) }
{
    if !has_one(dir, number, way.stored) {
        return Ok(false);
    }
    may_ask_all(alloc, dir, token, number, way.asks)
}

// ---- why

// Why the token is told yes to the question of a text.
#[tactic(auto, unfolding(crate::specs::Deciding::reason_for))]
fn reason_for(
    alloc: Global,
    dir: &Dir,
    token: &Token,
    number: u32,
    text: &[u8],
) -> Result<Option<Reason>, AllocError>
    requires live { is_live dir.now.objects number ≡ true }
    requires alone { token.now.restricting ≡ [] }
    ensures { IfOk result (λ reason. reason ≡ reason_for dir.now token.now number text.now) }
{
    match question_of(dir.schema(), text) {
        Some(question) => {
            let needed = requirements(alloc, dir, question, number)?;
            Ok(reason_on(dir, token, number, needed.as_slice()))
        }
        None => Ok(None),
    }
}

// Why it is told yes to the last of some.
#[tactic(auto, unfolding(crate::specs::Deciding::last_reason))]
fn last_reason(
    alloc: Global,
    dir: &Dir,
    token: &Token,
    number: u32,
    texts: &[&[u8]],
) -> Result<Option<Reason>, AllocError>
    requires live { is_live dir.now.objects number ≡ true }
    requires alone { token.now.restricting ≡ [] }
    ensures { IfOk result (λ reason. reason ≡ last_reason dir.now token.now number
        (texts_seen texts.now)) }
{
    match texts.last() {
        Some(text) => reason_for(alloc, dir, token, number, text),
        None => Ok(None),
    }
}

// By the first way that goes.
fn decided(
    alloc: Global,
    dir: &Dir,
    token: &Token,
    number: u32,
    ways: &[Asking],
) -> Result<Option<Reason>, AllocError>
    requires live { is_live dir.now.objects number ≡ true }
    requires alone { token.now.restricting ≡ [] }
    ensures { IfOk result (λ reason. reason ≡ decided dir.now token.now number
        (map asking_seen ways.now)) }
{
    for way in ways {
        if goes(alloc, dir, token, number, *way)? {
            return last_reason(alloc, dir, token, number, way.asks);
        }
    }
    Ok(None)
}

// ---- the word

fn put_reason_if(into: &mut Vec<u8>, reason: Option<Reason>) -> Result<(), AllocError>
    ensures { OnOk result (into.new.items ≡ into.old.items ++ spaced (reason_word reason)) }
{
    match reason {
        Some(reason) => put_reason(into, reason),
        None => put_spaced(into, b"-"),
    }
}

/// What decides a step of a kind to a live object, by a token, and a blank.
///
/// # Errors
///
/// Out of memory.
pub(crate) fn put_what(
    alloc: Global,
    into: &mut Vec<u8>,
    dir: &Dir,
    token: Option<&Token>,
    kind: Kind,
    number: u32,
) -> Result<(), AllocError>
    requires live { is_live dir.now.objects number ≡ true }
    requires alone { IfSome (option_copied token) (λ own. own.restricting ≡ []) }
    ensures { OnOk result (into.new.items ≡ into.old.items
        ++ spaced (what dir.now (option_copied token.entry) kind number)) }
{
    match token {
        Some(token) => {
            let reason = decided(alloc, dir, token, number, kind.ways())?;
            put_reason_if(into, reason)
        }
        None => put_spaced(into, b"-"),
    }
}
