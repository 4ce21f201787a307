//! A row, with a body of its own or with the one that lies in a batch.

ghost use Rattle.std.specs.Prelude.{◌≡◌, IfOk, Some};
ghost use Rattle.std.specs.Option.{option_copied};

use ad_bytes::Bytes;
use gate_log::Part;
use std::alloc::{AllocError, Global};
use std::marker::Model;

/// A row of a table: what stands at a kind and a number, or None where nothing stands there any more.
#[derive(Debug, Drop)]
pub struct Row {
    pub kind: u8,
    pub number: u64,
    pub body: Option<Bytes>,
}

/// The same with its body where that lies. A contract sees the row.
#[derive(Debug, Drop)]
pub struct RowIn<'a> {
    kind: u8,
    number: u64,
    body: Option<Part<'a>>,
}

impl<'a> Model for RowIn<'a> {
    ghost use Rattle.row_store.specs.declared.row.Row.{Row};

    ghost Value = { Row };

    ghost view = { λ row. record { kind = row.kind; number = row.number; body = row.body } };
}

fn part_of(body: Option<&[u8]>) -> Option<Part<'_>>
    ensures { result ≡ option_copied body.entry }
{
    match body {
        Some(bytes) => Some(Part::of(bytes)),
        None => None,
    }
}

fn lent(body: &Option<Bytes>) -> Option<Part<'_>>
    ensures { result ≡ body.now }
{
    match body {
        Some(bytes) => Some(Part::of(bytes.as_slice())),
        None => None,
    }
}

fn bytes_of<'a>(body: &Option<Part<'a>>) -> Option<&'a [u8]>
    ensures { option_copied result ≡ body.now }
{
    match body {
        Some(part) => Some(part.bytes()),
        None => None,
    }
}

fn copy_of(alloc: Global, body: Option<&[u8]>) -> Result<Option<Bytes>, AllocError>
    ensures { IfOk result (λ copy. copy ≡ option_copied body.entry) }
{
    match body {
        Some(bytes) => Ok(Some(Bytes::from_slice(alloc, bytes)?)),
        None => Ok(None),
    }
}

impl<'a> RowIn<'a> {
    /// The row of a kind and number that has this body, or none where nothing stands there any more.
    pub fn of(kind: u8, number: u64, body: Option<&'a [u8]>) -> RowIn<'a>
        ensures { result ≡ record {
          kind = kind;
          number = number;
          body = option_copied body.entry;
        } }
    {
        RowIn {
            kind,
            number,
            body: part_of(body),
        }
    }

    // The row of a kind and number that has this body.
    pub(crate) fn with_body(kind: u8, number: u64, body: Part<'a>) -> RowIn<'a>
        ensures { result ≡ record { kind = kind; number = number; body = Some body.entry } }
    {
        RowIn {
            kind,
            number,
            body: Some(body),
        }
    }

    // Its body.
    pub(crate) fn into_body(self) -> Option<Part<'a>>
        ensures { result ≡ self.entry.body }
    {
        self.body
    }

    /// The kind.
    pub fn kind(&self) -> u8
        ensures { result ≡ self.now.kind }
    {
        self.kind
    }

    /// The number.
    pub fn number(&self) -> u64
        ensures { result ≡ self.now.number }
    {
        self.number
    }

    /// The body, as long as what it lies in.
    pub fn body(&self) -> Option<&'a [u8]>
        ensures { option_copied result ≡ self.now.body }
    {
        bytes_of(&self.body)
    }

    /// The row with a body of its own.
    ///
    /// # Errors
    ///
    /// Out of memory.
    pub fn copy(&self, alloc: Global) -> Result<Row, AllocError>
        ensures { IfOk result (λ row. row ≡ self.now) }
    {
        Ok(Row {
            kind: self.kind,
            number: self.number,
            body: copy_of(alloc, bytes_of(&self.body))?,
        })
    }
}

impl Row {
    /// The same row with its body where it lies.
    pub fn seen(&self) -> RowIn<'_>
        ensures { result ≡ self.now }
    {
        RowIn {
            kind: self.kind,
            number: self.number,
            body: lent(&self.body),
        }
    }
}
