//! The numbers that stand in the answers to frames.

ghost use Rattle.std.specs.Prelude.{◌≡◌, ◌++◌, IfOk, OnOk};
ghost use Rattle.ad_dir_model.specs.Soundness.{IsSound};
ghost use Rattle.cmd_store_serve.specs.Answers.{output_at, number_behind, first_number, second_number};
ghost use Rattle.cmd_store_serve.specs.Answers.{operation_of, is_entry, one_if, entries_of, found_in};
ghost use Rattle.cmd_store_serve.specs.Text.{counts_text, text_of};

use ad_ber::{BerFault, Tagged};
use ad_bytes::{Bytes, Input, Short};
use ad_dir::Dir;
use ad_ldap::tags;
use cmd_call::put_counted;
use cmd_store::count_stale;
use std::alloc::{AllocError, Global};

/// What stands before a body: its kind, its connection and its length.
const HEADER: usize = 7;

// The answer of a place.
fn output_at(answers: &[Bytes], place: usize) -> &[u8]
    ensures { result.now ≡ output_at answers.now place }
{
    match answers.get(place) {
        Some(output) => output.as_slice(),
        None => b"",
    }
}

// The number of four bytes after so many others.
#[tactic(auto, unfolding(crate::specs::Answers::number_behind))]
fn number_behind(bytes: &[u8], places: usize) -> Result<u32, Short>
    ensures { result ≡ number_behind places bytes.now }
{
    let mut input = Input::new(bytes);
    input.part(places)?;
    let number = input.be32()?;
    Ok(number)
}

fn first_number(output: &[u8]) -> u32
    ensures { result ≡ first_number output.now }
{
    match number_behind(output, HEADER) {
        Ok(number) => number,
        Err(_) => 0,
    }
}

fn second_number(output: &[u8]) -> u32
    ensures { result ≡ second_number output.now }
{
    match number_behind(output, HEADER + 4) {
        Ok(number) => number,
        Err(_) => 0,
    }
}

// The tag of what a message is.
#[tactic(auto, unfolding(crate::specs::Answers::operation_of))]
fn operation_of(message: &[u8]) -> Result<u8, BerFault>
    ensures { result ≡ operation_of message.now }
{
    let mut input = Input::new(message);
    Tagged::read(&mut input)?;
    let operation = Tagged::read(&mut input)?;
    Ok(operation.tag)
}

fn is_entry(message: &[u8]) -> bool
    ensures { result ≡ is_entry (operation_of message.now) }
{
    match operation_of(message) {
        Ok(tag) => tag == tags::SEARCH_ENTRY,
        Err(_) => false,
    }
}

fn one_if(test: bool) -> usize
    ensures { result ≡ one_if test }
{
    if test { 1 } else { 0 }
}

// How many entries are among the messages of a reply.
fn entries_of(reply: &[u8]) -> usize
    ensures { result ≡ entries_of reply.now }
{
    let mut input = Input::new(reply);
    let mut found = 0;
    for _ in 0..reply.len() {
        match Tagged::read(&mut input) {
            Ok(message) => found += one_if(is_entry(message.body.rest())),
            Err(_) => return found,
        }
    }
    found
}

// How many entries are in the body of an answer.
#[tactic(auto, unfolding(crate::specs::Answers::found_in))]
fn found_in(output: &[u8]) -> usize
    ensures { result ≡ found_in output.now }
{
    let mut input = Input::new(output);
    match input.part(HEADER) {
        Ok(_) => entries_of(input.rest()),
        Err(_) => 0,
    }
}

// The numbers of the answers.
#[tactic(auto, unfolding(crate::specs::Text::counts_text))]
fn put_counts(into: &mut Vec<u8>, answers: &[Bytes]) -> Result<(), AllocError>
    ensures { OnOk result (into.new.items ≡ into.old.items ++ counts_text answers.now) }
{
    put_counted(
        into,
        "steps",
        u64::from(first_number(output_at(answers, 2))),
    )?;
    put_counted(
        into,
        "changed",
        u64::from(first_number(output_at(answers, 3))),
    )?;
    put_counted(
        into,
        "protected",
        u64::from(second_number(output_at(answers, 3))),
    )?;
    put_counted(
        into,
        "settled",
        u64::from(first_number(output_at(answers, 4))),
    )?;
    put_counted(into, "found", found_in(output_at(answers, 6)) as u64)
}

/// The eight lines: the numbers of the directory and of the answers to the frames that led to it.
///
/// # Errors
///
/// Memory ran out.
#[tactic(auto, unfolding(crate::specs::Text::text_of))]
pub(crate) fn text_of(alloc: Global, answers: &[Bytes], dir: &Dir) -> Result<Vec<u8>, AllocError>
    requires { IsSound dir.now }
    ensures { IfOk result (λ text. text.items ≡ text_of answers.now dir.now) }
{
    let stale = count_stale(alloc, dir)?;
    let mut text = Vec::new(alloc);
    put_counted(&mut text, "objects", dir.len() as u64)?;
    put_counts(&mut text, answers)?;
    put_counted(&mut text, "stale", stale as u64)?;
    put_counted(&mut text, "pending", dir.queue().len() as u64)?;
    Ok(text)
}
