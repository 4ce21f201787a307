//! Writing the bodies of rows.

ghost use Rattle.std.specs.Prelude.{◌≡◌, ℕ, List, OnOk};
ghost use Rattle.ad_bytes.specs.Numbers.{be_bytes, SpellsBe, SpellsByte};
ghost use Rattle.ad_bytes.specs.Reading.{SpellsEach};
ghost use Rattle.ad_dir_model.specs.Object.{link};
ghost use Rattle.ad_dir_objects.specs.Seen.{stored_seen, held_seen};
ghost use Rattle.ad_rows_write.specs.Body.{SpellsText, SpellsList, SpellsStored, SpellsHeld, SpellsPending};
ghost use Rattle.ad_rows_write.specs.Body.{SpellsLine, SpellsRecord, kind_byte};
ghost use Rattle.ad_rows_write.specs.Appends.{Appends};

use ad_bytes::OneOrMany;
use ad_dir::Stored;
use ad_schema::{AttrId, Line, SchemaKind, SchemaRecord};
use prop_queue::Pending;
use std::alloc::AllocError;

/// A number in four bytes.
#[tactic(auto, unfolding(ad_bytes::specs::Numbers::be_bytes))]
pub(crate) fn put4(into: &mut Vec<u8>, number: u32) -> Result<(), AllocError>
    ensures { OnOk result (Appends (SpellsBe 4 number) into.old.items into.new.items) }
{
    into.extend_from_slice(&number.to_be_bytes())
}

/// A number in eight bytes.
#[tactic(auto, unfolding(ad_bytes::specs::Numbers::be_bytes))]
pub(crate) fn put8(into: &mut Vec<u8>, number: u64) -> Result<(), AllocError>
    ensures { OnOk result (Appends (SpellsBe 8 number) into.old.items into.new.items) }
{
    into.extend_from_slice(&number.to_be_bytes())
}

/// Bytes as they are.
pub(crate) fn put_bytes(into: &mut Vec<u8>, bytes: &[u8]) -> Result<(), AllocError>
    ensures { OnOk result (Appends (λ text. text ≡ bytes.now) into.old.items into.new.items) }
{
    into.extend_from_slice(bytes)
}

/// A text or a value, after its length.
pub(crate) fn put_text(into: &mut Vec<u8>, bytes: &[u8]) -> Result<(), AllocError>
    ensures { OnOk result (Appends (SpellsText bytes.now) into.old.items into.new.items) }
{
    put8(into, bytes.len() as u64)?;
    put_bytes(into, bytes)
}

// The number of a link, after its length.
fn put_link(into: &mut Vec<u8>, number: u32) -> Result<(), AllocError>
    ensures { OnOk result (Appends (SpellsStored (link number)) into.old.items into.new.items) }
{
    put8(into, 4)?;
    put4(into, number)
}

/// What stands in a list of a row's body.
pub(crate) trait Part {
    /// The texts that encode it.
    ghost Spells: { Self → List ℕ → Type 0 };

    /// Appends it after what is there.
    fn put(&self, into: &mut Vec<u8>) -> Result<(), AllocError>
        ensures { OnOk result (Appends (Spells self.now) into.old.items into.new.items) };
}

// The items of a list, one after the other.
fn put_each<T: Part>(into: &mut Vec<u8>, items: &[T]) -> Result<(), AllocError>
    ensures { OnOk result (Appends (SpellsEach T.Spells items.now) into.old.items into.new.items) }
{
    for item in items {
        item.put(into)?;
    }
    Ok(())
}

/// A list, after its count.
pub(crate) fn put_list<T: Part>(into: &mut Vec<u8>, items: &[T]) -> Result<(), AllocError>
    ensures { OnOk result (Appends (SpellsList T.Spells items.now) into.old.items into.new.items) }
{
    put8(into, items.len() as u64)?;
    put_each(into, items)
}

impl Part for Stored {
    ghost Spells = { λ stored. SpellsStored (stored_seen stored) };

    fn put(&self, into: &mut Vec<u8>) -> Result<(), AllocError> {
        match self {
            Stored::Plain(value) => put_text(into, value.shown()),
            Stored::Link(number) => put_link(into, *number),
        }
    }
}

impl Part for (AttrId, OneOrMany<Stored>) {
    ghost Spells = { λ held. SpellsHeld (held_seen held) };

    fn put(&self, into: &mut Vec<u8>) -> Result<(), AllocError> {
        put4(into, self.0.0)?;
        put_list(into, self.1.as_slice())
    }
}

impl Part for Pending {
    ghost Spells = { SpellsPending };

    fn put(&self, into: &mut Vec<u8>) -> Result<(), AllocError> {
        put4(into, self.parent)?;
        put4(into, self.cursor)
    }
}

impl Part for Line {
    ghost Spells = { SpellsLine };

    fn put(&self, into: &mut Vec<u8>) -> Result<(), AllocError> {
        put_text(into, self.name.as_slice())?;
        put_text(into, self.value.as_slice())
    }
}

fn kind_byte(kind: SchemaKind) -> u8
    ensures { result ≡ kind_byte kind }
{
    match kind {
        SchemaKind::Attribute => 0,
        SchemaKind::Class => 1,
        SchemaKind::Right => 2,
    }
}

fn put_kind(into: &mut Vec<u8>, kind: SchemaKind) -> Result<(), AllocError>
    ensures { OnOk result (Appends (SpellsByte (kind_byte kind)) into.old.items into.new.items) }
{
    into.push(kind_byte(kind))?;
    Ok(())
}

/// A record of the schema.
pub(crate) fn put_record(into: &mut Vec<u8>, record: &SchemaRecord) -> Result<(), AllocError>
    ensures { OnOk result (Appends (SpellsRecord «record».now) into.old.items into.new.items) }
{
    put_kind(into, record.kind)?;
    put_list(into, record.lines.as_slice())
}
