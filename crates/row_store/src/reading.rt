//! Reading a batch.

ghost use Rattle.std.specs.Prelude.{◌≡◌, IfOk, IsErrOf, List};
ghost use Rattle.std.specs.Option.{option_copied};
ghost use Rattle.ad_bytes.specs.Reading.{ReadsUnless, many_at};
ghost use Rattle.row_store.specs.declared.row.Row.{Row as RowValue};
ghost use Rattle.row_store.specs.declared.reading.RowFault.TheVariants.{Bad as BadRow, Memory as NoMemory};
ghost use Rattle.row_store.specs.Row.{SpellsBatch};
ghost use Rattle.row_store.specs.RowReading.{is_memory, put_at, body_at, row_at, batch_at};

use crate::row::RowIn;
use ad_bytes::{Input, Short};
use std::alloc::{AllocError, AllocFailed, Global};

/// Why a batch isn't read.
#[derive(Clone, Copy, Debug, PartialEq, Eq)]
pub(crate) enum RowFault {
    /// The bytes are no batch.
    Bad,
    /// There is no memory.
    Memory,
}

impl From<Short> for RowFault {
    ghost from_gives = { λ _ e. e ≡ BadRow };

    fn from(_: Short) -> Self {
        RowFault::Bad
    }
}

impl From<AllocError> for RowFault {
    ghost from_gives = { λ _ e. e ≡ NoMemory };

    fn from(_: AllocError) -> Self {
        RowFault::Memory
    }
}

impl<T: Drop> From<AllocFailed<T>> for RowFault {
    ghost from_gives = { λ _ e. e ≡ NoMemory };

    fn from(_: AllocFailed<T>) -> Self {
        RowFault::Memory
    }
}

// A body after its length.
#[tactic(auto, unfolding(crate::specs::RowReading::put_at))]
fn put<'a>(input: &mut Input<'a>) -> Result<Option<&'a [u8]>, RowFault>
    ensures { ReadsUnless is_memory (λ body. option_copied body) result input.new (put_at input.old) }
{
    let size = input.be64()?;
    let part = input.part(size as usize)?;
    Ok(Some(part.rest()))
}

// The body of a row, by the byte that says what is done.
fn body<'a>(input: &mut Input<'a>, what: u8) -> Result<Option<&'a [u8]>, RowFault>
    ensures { ReadsUnless is_memory (λ body. option_copied body) result input.new
        (body_at what input.old) }
{
    match what {
        1 => put(input),
        2 => Ok(None),
        _ => Err(RowFault::Bad),
    }
}

#[tactic(auto, unfolding(crate::specs::RowReading::row_at))]
fn row<'a>(input: &mut Input<'a>) -> Result<RowIn<'a>, RowFault>
    ensures { ReadsUnless is_memory (λ row. row) result input.new (row_at input.old) }
{
    let what = input.byte()?;
    let kind = input.byte()?;
    let number = input.be64()?;
    let body = body(input, what)?;
    Ok(RowIn::of(kind, number, body))
}

// So many rows.
fn rows<'a>(alloc: Global, input: &mut Input<'a>, count: u64) -> Result<Vec<RowIn<'a>>, RowFault>
    ensures { ReadsUnless is_memory (λ rows. rows.items) result input.new
        (many_at row_at count input.old) }
{
    let mut rows = Vec::new(alloc);
    for _ in 0..count {
        let row = row(input)?;
        rows.push(row)?;
    }
    Ok(rows)
}

// All of a batch.
#[tactic(auto, unfolding(crate::specs::RowReading::batch_at))]
fn batch<'a>(alloc: Global, input: &mut Input<'a>) -> Result<Vec<RowIn<'a>>, RowFault>
    ensures { ReadsUnless is_memory (λ rows. rows.items) result input.new (batch_at input.old) }
{
    let count = input.be64()?;
    let rows = rows(alloc, input, count)?;
    if !input.is_empty() {
        return Err(RowFault::Bad);
    }
    Ok(rows)
}

/// The rows of a body that is a batch.
pub(crate) fn read_batch(alloc: Global, body: &[u8]) -> Result<Vec<RowIn<'_>>, RowFault>
    ensures found { IfOk result (λ rows. SpellsBatch rows.items body.now) }
    ensures only { IfOk result (λ rows. (others : List RowValue) → SpellsBatch others body.now
        → others ≡ rows.items) }
    ensures none { IsErrOf result RowFault.Bad → (rows : List RowValue)
        → ¬ SpellsBatch rows body.now }
{
    let mut input = Input::new(body);
    batch(alloc, &mut input)
}
