//! Pieces as they are sent with a search.

ghost use Rattle.std.specs.Prelude.{◌≡◌, IfOk};
ghost use Rattle.ad_bytes.specs.Reading.{GivesUnless};
ghost use Rattle.ad_value.specs.ValueOf.{is_memory};
ghost use Rattle.ad_value.specs.Sent.{piece_key, piece_key_if, piece_keys, sent_or_fault, pattern_of};

use crate::fault::ValueFault;
use crate::forms::normal;
use crate::pattern::{Pattern, Pieces};
use crate::syntax::Syntax;
use ad_bytes::Bytes;
use std::alloc::{AllocError, Global};

fn piece_key(alloc: Global, syntax: Syntax, piece: &[u8]) -> Result<Bytes, ValueFault>
    ensures { GivesUnless is_memory (λ key. key) result (piece_key syntax piece.now) }
{
    let value = normal(alloc, syntax, piece)?;
    match value.key_bytes() {
        Some(bytes) => Ok(Bytes::from_slice(alloc, bytes)?),
        None => Err(ValueFault::Syntax),
    }
}

fn piece_key_if(
    alloc: Global,
    syntax: Syntax,
    piece: &Option<Bytes>,
) -> Result<Option<Bytes>, ValueFault>
    ensures { GivesUnless is_memory (λ key. key) result (piece_key_if syntax piece.now) }
{
    match piece {
        None => Ok(None),
        Some(piece) => Ok(Some(piece_key(alloc, syntax, piece.as_slice())?)),
    }
}

fn piece_keys(alloc: Global, syntax: Syntax, pieces: &[Bytes]) -> Result<Pieces, ValueFault>
    ensures { GivesUnless is_memory (λ keys. keys) result (piece_keys syntax pieces.now) }
{
    let mut keys = Pieces::new(alloc);
    for piece in pieces {
        keys.push(piece_key(alloc, syntax, piece.as_slice())?)?;
    }
    Ok(keys)
}

#[tactic(auto, unfolding(crate::specs::Sent::sent_or_fault))]
fn sent_or_fault(alloc: Global, syntax: Syntax, sent: &Pattern) -> Result<Pattern, ValueFault>
    ensures { GivesUnless is_memory (λ pattern. pattern) result (sent_or_fault syntax sent.now) }
{
    if !syntax.has_pieces() {
        return Err(ValueFault::Syntax);
    }
    let first = piece_key_if(alloc, syntax, &sent.first)?;
    let middle = piece_keys(alloc, syntax, sent.middle.as_slice())?;
    let last = piece_key_if(alloc, syntax, &sent.last)?;
    Ok(Pattern {
        first,
        middle,
        last,
    })
}

/// The pattern of the pieces that were sent with a search of an attribute of this syntax (RFC 4511 4.5.1.7.2): each
/// piece is a value of the syntax, and the pattern has its key. So the pieces of a text are folded, and those of
/// bytes stand as they are. None where the syntax isn't searched for pieces ([`Syntax::has_pieces`]), or where a
/// piece is no value of it.
pub fn sent_pattern(
    alloc: Global,
    syntax: Syntax,
    sent: &Pattern,
) -> Result<Option<Pattern>, AllocError>
    ensures { IfOk result (λ pattern. pattern ≡ pattern_of syntax sent.now) }
{
    match sent_or_fault(alloc, syntax, sent) {
        Ok(pattern) => Ok(Some(pattern)),
        Err(ValueFault::Memory) => Err(AllocError),
        Err(ValueFault::TooLong) => Ok(None),
        Err(ValueFault::Syntax) => Ok(None),
    }
}
