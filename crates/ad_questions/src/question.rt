//! Which question a text asks: for a right, or for what one intends.

ghost use Rattle.std.specs.Prelude.{◌≡◌, List, IfSome};
ghost use Rattle.std.specs.Option.{option_map};
ghost use Rattle.std.specs.Str.{bytes_eq};
ghost use Rattle.ad_schema.specs.declared.line.SchemaRecord.{SchemaRecord};
ghost use Rattle.ad_questions.specs.Question.{by_word, behind, reads, writes, adds, rights, by_name, question_of};
ghost use Rattle.ad_questions.specs.Question.{IsQuestion};

use crate::asked::{Asked, right_asked};
use ad_needs_rules::is_descriptor;
use ad_schema::{AttrId, ClassId, Schema};

/// What is asked of an object: whether a token has a right there, or whether a request of its is refused for want of
/// one.
#[derive(Clone, Copy, Debug, PartialEq, Eq)]
pub enum Question {
    /// A right, by itself or on a path.
    Right(Asked),
    /// The object is visible.
    See,
    /// A search that names the attribute shows its values.
    Read(AttrId),
    /// A search that names nTSecurityDescriptor shows a part of it.
    ReadDescriptor,
    /// The attribute's values are replaced.
    Write(AttrId),
    /// The password is replaced, without the old one.
    Reset,
    /// One adds oneself to the group.
    Join,
    /// An object of the class is added below it.
    Add(ClassId),
    /// It is deleted, alone.
    Delete,
    /// Its DACL is replaced.
    Dacl,
    /// Its owner is replaced.
    Owner,
}

fn is_word(text: &[u8], word: &[u8]) -> bool
    ensures { result ≡ bytes_eq text.now word.now }
{
    text == word
}

// A word by itself.
#[tactic(auto, unfolding(crate::specs::Question::by_word))]
fn by_word(text: &[u8]) -> Option<Question>
    ensures asked { result ≡ by_word text.now }
    ensures known { (schema : List SchemaRecord) → IfSome result (IsQuestion schema) }
{
    if is_word(text, b"see") {
        return Some(Question::See);
    }
    if is_word(text, b"reset") {
        return Some(Question::Reset);
    }
    if is_word(text, b"join") {
        return Some(Question::Join);
    }
    if is_word(text, b"delete") {
        return Some(Question::Delete);
    }
    if is_word(text, b"dacl") {
        return Some(Question::Dacl);
    }
    if is_word(text, b"owner") {
        return Some(Question::Owner);
    }
    None
}

// What stands in a text after a word that it begins with.
#[tactic(auto, unfolding(crate::specs::Question::behind))]
fn behind<'a>(word: &[u8], text: &'a [u8]) -> Option<&'a [u8]>
    ensures { option_map (λ rest. rest.now) result ≡ behind word.now text.entry.now }
{
    match text.strip_prefix(word) {
        Some(rest) => Some(rest),
        None => None,
    }
}

// An attribute is read, or the descriptor.
#[tactic(auto, unfolding(crate::specs::Question::reads))]
fn reads(schema: &Schema, name: &[u8]) -> Option<Question>
    ensures asked { result ≡ reads schema.now name.now }
    ensures known { IfSome result (IsQuestion schema.now) }
{
    if is_descriptor(name) {
        return Some(Question::ReadDescriptor);
    }
    match schema.attr(name) {
        Some(attr) => Some(Question::Read(attr)),
        None => None,
    }
}

fn writes(schema: &Schema, name: &[u8]) -> Option<Question>
    ensures asked { result ≡ writes schema.now name.now }
    ensures known { IfSome result (IsQuestion schema.now) }
{
    match schema.attr(name) {
        Some(attr) => Some(Question::Write(attr)),
        None => None,
    }
}

fn adds(schema: &Schema, name: &[u8]) -> Option<Question>
    ensures asked { result ≡ adds schema.now name.now }
    ensures known { IfSome result (IsQuestion schema.now) }
{
    match schema.class(name) {
        Some(class) => Some(Question::Add(class)),
        None => None,
    }
}

fn rights(schema: &Schema, text: &[u8]) -> Option<Question>
    ensures asked { result ≡ rights schema.now text.now }
    ensures known { IfSome result (IsQuestion schema.now) }
{
    match right_asked(schema, text) {
        Some(asked) => Some(Question::Right(asked)),
        None => None,
    }
}

// A word with a name, and else a right.
#[tactic(auto, unfolding(crate::specs::Question::by_name))]
fn by_name(schema: &Schema, text: &[u8]) -> Option<Question>
    ensures asked { result ≡ by_name schema.now text.now }
    ensures known { IfSome result (IsQuestion schema.now) }
{
    match behind(b"read:", text) {
        Some(name) => reads(schema, name),
        None => match behind(b"write:", text) {
            Some(name) => writes(schema, name),
            None => match behind(b"add:", text) {
                Some(name) => adds(schema, name),
                None => rights(schema, text),
            },
        },
    }
}

/// The question that a text asks: `see`, `reset`, `join`, `delete`, `dacl` and `owner`; `read:` and `write:` with an
/// attribute and `add:` with a class, by their names without regard to ASCII case; or a right, as `right_asked` reads
/// it. None where it is no such text, or nothing has the name.
#[tactic(auto, unfolding(crate::specs::Question::question_of))]
pub fn question_of(schema: &Schema, text: &[u8]) -> Option<Question>
    ensures asked { result ≡ question_of schema.now text.now }
    ensures known { IfSome result (IsQuestion schema.now) }
{
    match by_word(text) {
        Some(question) => Some(question),
        None => by_name(schema, text),
    }
}
