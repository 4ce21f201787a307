//! Writing a batch.

ghost use Rattle.std.specs.Prelude.{◌≡◌, ◌++◌, List, ℕ, IfOk, OnOk};
ghost use Rattle.ad_bytes.specs.Numbers.{be_bytes};
ghost use Rattle.row_store.specs.Row.{SpellsBatch, SpellsRow};
ghost use Rattle.row_store.specs.RowWriting.{put_text, removal_text};

use crate::row::Row;
use ad_bytes::Bytes;
use std::alloc::{AllocError, Global};

/// A number in eight bytes, the most significant first.
#[tactic(auto, unfolding(ad_bytes::specs::Numbers::be_bytes))]
pub(crate) fn number_bytes(number: u64) -> [u8; 8]
    ensures { result ≡ be_bytes 8 number }
{
    number.to_be_bytes()
}

// A number in eight bytes.
fn put_number(into: &mut Vec<u8>, number: u64) -> Result<(), AllocError>
    ensures { OnOk result (into.new.items ≡ into.old.items ++ be_bytes 8 number) }
{
    into.extend_from_slice(&number_bytes(number))
}

/// One row more.
pub(crate) fn put_row(into: &mut Vec<u8>, row: &Row) -> Result<(), AllocError>
    ensures { OnOk result ((text : List ℕ) × SpellsRow row.now text
        × (into.new.items ≡ into.old.items ++ text)) }
{
    match &row.body {
        Some(body) => put_body(into, row.kind, row.number, body),
        None => put_removal(into, row.kind, row.number),
    }
}

// A row that puts a body.
fn put_body(into: &mut Vec<u8>, kind: u8, number: u64, body: &Bytes) -> Result<(), AllocError>
    ensures { OnOk result (into.new.items ≡ into.old.items ++ put_text kind number body.now) }
{
    into.push(1)?;
    into.push(kind)?;
    put_number(into, number)?;
    put_number(into, body.len() as u64)?;
    into.extend_from_slice(body.as_slice())
}

// A row that removes what stands.
fn put_removal(into: &mut Vec<u8>, kind: u8, number: u64) -> Result<(), AllocError>
    ensures { OnOk result (into.new.items ≡ into.old.items ++ removal_text kind number) }
{
    into.push(2)?;
    into.push(kind)?;
    put_number(into, number)
}

// How many bytes a row with a body takes beside it. A row without one takes fewer.
const BESIDE_BODY: usize = 18;

/// Room for a batch of these rows, so that a large one is never moved while it grows.
pub(crate) fn room_for(rows: &[Row]) -> usize {
    let mut room = 8usize;
    for row in rows {
        let body = match &row.body {
            Some(body) => body.len(),
            None => 0,
        };
        room = room.saturating_add(body).saturating_add(BESIDE_BODY);
    }
    room
}

/// The bytes of a batch of these rows.
pub(crate) fn write_batch(alloc: Global, rows: &[Row]) -> Result<Vec<u8>, AllocError>
    ensures { IfOk result (λ body. SpellsBatch rows.now body.items) }
{
    let mut body = Vec::with_capacity(alloc, room_for(rows))?;
    put_number(&mut body, rows.len() as u64)?;
    for row in rows {
        put_row(&mut body, row)?;
    }
    Ok(body)
}
