//! Output frames.

ghost use Rattle.std.specs.Prelude.{◌≡◌, ◌++◌, ◌∷◌, [], IfOk, OnOk};
ghost use Rattle.ad_bytes.specs.Numbers.{be_bytes};
ghost use Rattle.ad_engine_answer.specs.Output.{output_frame, counts};

use ad_bytes::Bytes;
use std::alloc::{AllocError, Global};

const HEADER: usize = 7;

// Puts a number at the end, in four bytes, the most significant first. Of a number above 2^32 these are the last
// four.
fn put_number(into: &mut Vec<u8>, number: usize) -> Result<(), AllocError>
    ensures { OnOk result (into.new.items ≡ into.old.items ++ be_bytes 4 number) }
{
    let bytes = (number as u64).to_be_bytes();
    into.extend_from_slice(&bytes[4..])?;
    Ok(())
}

// Puts a number at the end, in two bytes, the most significant first.
#[tactic(auto, unfolding(ad_bytes::specs::Numbers::be_bytes))]
fn put_connection(into: &mut Vec<u8>, connection: u16) -> Result<(), AllocError>
    ensures { OnOk result (into.new.items ≡ into.old.items ++ be_bytes 2 connection) }
{
    into.extend_from_slice(&connection.to_be_bytes())
}

/// The frame that answers one of a connection: a kind of one byte, the connection in two bytes, the length of the
/// body in four, the most significant first, and the body.
///
/// # Errors
///
/// Out of memory.
pub fn output(alloc: Global, kind: u8, connection: u16, body: &[u8]) -> Result<Vec<u8>, AllocError>
    ensures { IfOk result (λ bytes. bytes.items ≡ output_frame kind connection body.now) }
{
    let mut bytes = Vec::with_capacity(alloc, body.len().saturating_add(HEADER))?;
    bytes.push(kind)?;
    put_connection(&mut bytes, connection)?;
    put_number(&mut bytes, body.len())?;
    bytes.extend_from_slice(body)?;
    Ok(bytes)
}

/// A body of two numbers, four bytes each, the most significant first.
///
/// # Errors
///
/// Out of memory.
pub fn counts(alloc: Global, first: usize, second: usize) -> Result<Bytes, AllocError>
    ensures { IfOk result (λ bytes. bytes ≡ counts first second) }
{
    let mut bytes = Vec::new(alloc);
    put_number(&mut bytes, first)?;
    put_number(&mut bytes, second)?;
    Ok(Bytes::from_vec(bytes))
}
