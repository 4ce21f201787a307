//! A schema while its records are added.

ghost use Rattle.std.specs.Prelude.{◌≡◌, ◌<◌, ◌-◌, ◌^◌, ◌++◌, ◌∷◌, ◌==◌, [], length, List, OnOk, OnErr, IfOk, IfErr};
ghost use Rattle.std.specs.Prelude.{is_some, if◌then◌else◌};
ghost use Rattle.ad_bytes.specs.Reading.{GivesUnless};
ghost use Rattle.ad_schema.specs.declared.line.SchemaRecord.{SchemaRecord as RecordValue};
ghost use Rattle.ad_schema.specs.declared.fault.SchemaFault.TheVariants.{Repeated};
ghost use Rattle.ad_schema_classes.specs.Hashes.{place_by};
ghost use Rattle.ad_schema.specs.Fields.{text_of};
ghost use Rattle.ad_schema.specs.Records.{is_memory, none_of, has_name, repeated, added, finished};
ghost use Rattle.ad_schema.specs.Titles.{right_key, AreTitlesOf};
ghost use Rattle.ad_schema.specs.Sound.{AreAdded};

use crate::fault::SchemaFault;
use crate::field::Field;
use crate::finish::schema_of;
use crate::line::{Line, SchemaKind, SchemaRecord};
use crate::reading::right_guid;
use crate::record::{check, copy_lines, text_of};
use crate::schema::Schema;
use ad_bytes::Bytes;
use ad_ids::Guid;
use ad_schema_classes::{Case, Names};
use std::alloc::Global;
use std::marker::Model;

/// The records of a schema so far, which a contract sees as their list.
#[derive(Drop)]
pub struct Builder {
    alloc: Global,
    records: Vec<SchemaRecord>,
    attrs: Names,
    classes: Names,
    rights: Names,
}

impl Model for Builder {
    ghost use Rattle.std.specs.Prelude.{List, ℕ, length, ◌<◌, ◌^◌};
    ghost use Rattle.ad_schema.specs.declared.line.SchemaRecord.{SchemaRecord};
    ghost use Rattle.ad_schema.specs.Titles.{AreTitlesOf};
    ghost use Rattle.ad_schema.specs.Sound.{AreAdded};

    ghost Value = { List SchemaRecord };

    ghost view = { λ b. b.records.items };

    ghost invariant = { λ b. record {
      titles : AreTitlesOf b.records.items b.attrs b.classes b.rights;
      added : AreAdded b.records.items;
    } };
}

/// Notes the name of an attribute or a class.
fn note_name(alloc: Global, names: &mut Names, lines: &[Line]) -> Result<(), SchemaFault>
    requires { length names.old < 2 ^ 32 - 1 }
    ensures ok { OnOk result (names.new ≡ names.old ++ text_of Field.DisplayName lines.now ∷ []) }
    ensures fault { let name = text_of Field.DisplayName lines.now in
        GivesUnless is_memory (λ _. tt) result
        (none_of Repeated (if has_name names.old name then Some name else None)) }
    ensures err { OnErr result (names.new ≡ names.old) }
{
    let name = Bytes::from_slice(alloc, text_of(Field::DisplayName, lines))?;
    if names.find(name.as_slice()).is_some() {
        return Err(SchemaFault::Repeated(name));
    }
    names.push(name)?;
    Ok(())
}

/// Whether a GUID is one of these.
fn has_guid(guids: &Names, guid: &Guid) -> bool
    ensures { result ≡ is_some (place_by Case.Kept guids.now guid.now.bytes) }
{
    guids.find_exact(&guid.bytes).is_some()
}

/// Notes the GUID of a right.
fn note_guid(alloc: Global, guids: &mut Names, lines: &[Line]) -> Result<(), SchemaFault>
    requires { length guids.old < 2 ^ 32 - 1 }
    ensures ok { OnOk result (guids.new ≡ guids.old ++ right_key lines.now ∷ []) }
    ensures fault { GivesUnless is_memory (λ _. tt) result (none_of Repeated
        (if is_some (place_by Case.Kept guids.old (right_key lines.now))
        then Some (text_of Field.CommonName lines.now) else None)) }
    ensures err { OnErr result (guids.new ≡ guids.old) }
{
    let guid = right_guid(lines);
    if has_guid(guids, &guid) {
        let name = Bytes::from_slice(alloc, text_of(Field::CommonName, lines))?;
        return Err(SchemaFault::Repeated(name));
    }
    let key = Bytes::from_slice(alloc, &guid.bytes)?;
    guids.push(key)?;
    Ok(())
}

/// Notes what a record may not repeat.
#[tactic(auto, unfolding(crate::specs::Records::repeated, crate::specs::Records::is_repeated))]
fn note(
    alloc: Global,
    kind: SchemaKind,
    lines: &[Line],
    attrs: &mut Names,
    classes: &mut Names,
    rights: &mut Names,
) -> Result<(), SchemaFault>
    requires attrs { length attrs.old < 2 ^ 32 - 1 }
    requires classes { length classes.old < 2 ^ 32 - 1 }
    requires rights { length rights.old < 2 ^ 32 - 1 }
    ensures ok { OnOk result ((records : List RecordValue)
        → AreTitlesOf records attrs.old classes.old rights.old
        → AreTitlesOf (records ++ record { kind = kind; lines = lines.now } ∷ [])
        attrs.new classes.new rights.new) }
    ensures fault { (records : List RecordValue)
        → AreTitlesOf records attrs.old classes.old rights.old
        → GivesUnless is_memory (λ _. tt) result
        (none_of Repeated (repeated records kind lines.now)) }
    ensures err { OnErr result ((attrs.new ≡ attrs.old) × (classes.new ≡ classes.old)
        × (rights.new ≡ rights.old)) }
{
    match kind {
        SchemaKind::Attribute => note_name(alloc, attrs, lines),
        SchemaKind::Class => note_name(alloc, classes, lines),
        SchemaKind::Right => note_guid(alloc, rights, lines),
    }
}

impl Builder {
    /// A builder without records.
    ///
    /// # Errors
    ///
    /// `Memory` alone.
    pub fn new(alloc: Global) -> Result<Builder, SchemaFault>
        ensures none { IfOk result (λ builder. builder ≡ []) }
        ensures fault { IfErr result (λ fault. fault ≡ SchemaFault.Memory) }
    {
        let records = Vec::new(alloc);
        let attrs = Names::new(alloc);
        let classes = Names::new(alloc);
        let rights = Names::new(alloc);
        Ok(Builder {
            alloc,
            records,
            attrs,
            classes,
            rights,
        })
    }

    /// The number of records.
    pub fn len(&self) -> usize
        ensures { result ≡ length self.now }
    {
        self.records.as_slice().len()
    }

    /// The records are fewer than 2^32, and each was added after those before it.
    pub fn are_added(&self)
        ensures { AreAdded self.now }
    {
        let _ = &self.records;
    }

    /// Whether there is none.
    pub fn is_empty(&self) -> bool
        ensures { result ≡ (length self.now == 0) }
    {
        self.records.as_slice().is_empty()
    }

    /// Adds a record.
    ///
    /// # Errors
    ///
    /// `Missing` for the first required line that isn't there, in the order of the kind's table; then
    /// `Value` for the first line whose value can't be read, or that is one too many; both with the
    /// name of the line as in the table. Then `Repeated` where there is an attribute or a class of
    /// this record's name, or a right of its GUID, with the name as in this record. `Memory`. The
    /// builder stays as it was.
    #[tactic(auto, unfolding(crate::specs::Records::added))]
    pub fn add(&mut self, kind: SchemaKind, lines: &[Line]) -> Result<(), SchemaFault>
        requires { length self.old < 2 ^ 32 - 1 }
        ensures added { GivesUnless is_memory (λ _. self.new) result
            (added self.old kind lines.now) }
        ensures err { OnErr result (self.new ≡ self.old) }
    {
        let alloc = self.alloc;
        check(alloc, kind, lines)?;
        let copy = copy_lines(alloc, lines)?;
        self.records.reserve(1)?;
        note(
            alloc,
            kind,
            lines,
            &mut self.attrs,
            &mut self.classes,
            &mut self.rights,
        )?;
        self.records.push(SchemaRecord { kind, lines: copy })?;
        Ok(())
    }
    /// The schema of the records.
    ///
    /// # Errors
    ///
    /// `Unknown` with the first attribute or class, in the order of the records and their lines, that
    /// a class names and that isn't there, as it is spelled there; after these with `cn` where there
    /// is no attribute `cn`. Then `Loop` with the name of the first class whose chain of superclasses
    /// never ends. `Memory`. The builder is gone.
    pub fn finish(self) -> Result<Schema, SchemaFault>
        ensures { GivesUnless is_memory (λ schema. schema) result (finished self) }
    {
        let Builder {
            alloc,
            records,
            attrs,
            classes,
            rights,
        } = self;
        schema_of(alloc, records, attrs, classes, rights)
    }
}
