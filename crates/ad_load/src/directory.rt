//! The whole: a text becomes a directory.

ghost use Rattle.std.specs.Prelude.{◌≡◌, ◌≤◌, ℕ, true, List, [], map, length, Ok, IfOk};
ghost use Rattle.std.specs.List.{AllByRecursion, list_all};
ghost use Rattle.ad_bytes.specs.Reading.{GivesUnless};
ghost use Rattle.ad_schema.specs.Sound.{MakeSchema};
ghost use Rattle.ad_dir_model.specs.Objects.{is_live, sd_at};
ghost use Rattle.ad_dir_model.specs.Inheritance.{scratch};
ghost use Rattle.ad_dir_model.specs.Soundness.{is_short_record, IsSound};
ghost use Rattle.ad_load_records.specs.Faults.{is_memory};
ghost use Rattle.ad_load_records.specs.Good.{IsGoodRecord, ReadsBack};
ghost use Rattle.ad_load_records.specs.Records.{records_in};
ghost use Rattle.ad_load.specs.Loaded.{loaded};
ghost use Rattle.ad_load_records.specs.Seen.{seen};
ghost use Rattle.ad_load.specs.Seen.{before_seen};
ghost use Rattle.ad_load.specs.Settling.{made_of};
ghost use Rattle.ad_load_records.specs.Records.{most_lines};

use crate::before_inheritance::{Before, link_all};
use crate::parts::Parts;
use crate::settle::settle;
use ad_dir::Dir;
use ad_load_objects::drafts_of;
use ad_load_records::{LoadFault, Record, are_good, records_in, schema_of};
use ad_schema::Schema;
use ad_value::what_is_shown_reads_back;
use std::alloc::Global;

// The objects of records, each with its descriptor from the root.
fn made_of(alloc: Global, schema: &Schema, records: Vec<Record>) -> Result<Before, LoadFault>
    requires good { AllByRecursion IsGoodRecord (map seen records.items) }
    requires few { length records.items ≤ most_lines }
    requires makes { MakeSchema schema.now }
    requires short { list_all is_short_record schema.now ≡ true }
    requires reads { ReadsBack }
    ensures made { GivesUnless is_memory (before_seen schema.now) result
        (made_of schema.now (map seen records.items)) }
    ensures sound { IfOk result (λ before. IsSound (before_seen schema.now before)) }
{
    let drafts = drafts_of(alloc, schema, records)?;
    let before = link_all(alloc, schema, drafts)?;
    let mut objects = before.objects;
    let meta = before.meta;
    settle(alloc, schema, &mut objects, &meta)?;
    Ok(Before { objects, meta })
}

/// The parts of the directory of a text that has these records. The text itself isn't needed any more.
///
/// # Errors
///
/// As [`directory_of`] of the text.
pub fn parts_of(alloc: Global, records: Vec<Record>) -> Result<Parts, LoadFault>
    requires read { (text : List ℕ) × (records_in text ≡ Ok (map seen records.items)) }
    requires few { length records.items ≤ most_lines }
    // The directory that is loaded of each text with these records, or the first fault.
    ensures loaded { (text : List ℕ) → records_in text ≡ Ok (map seen records.items)
        → GivesUnless is_memory (λ dir. dir) result (loaded text) }
    // It is sound, and nothing is pending.
    ensures sound { IfOk result IsSound }
    ensures empty { IfOk result (λ dir. dir.pending ≡ []) }
{
    are_good(records.as_slice());
    let schema = schema_of(alloc, records.as_slice())?;
    schema.make_schema();
    what_is_shown_reads_back();
    let before = made_of(alloc, &schema, records)?;
    Ok(Parts::of(schema, before))
}

// The directory of these records.
fn directory_with(alloc: Global, records: Vec<Record>) -> Result<Dir, LoadFault>
    requires read { (text : List ℕ) × (records_in text ≡ Ok (map seen records.items)) }
    requires few { length records.items ≤ most_lines }
    ensures loaded { (text : List ℕ) → records_in text ≡ Ok (map seen records.items)
        → GivesUnless is_memory (λ dir. dir) result (loaded text) }
    ensures sound { IfOk result IsSound }
    ensures empty { IfOk result (λ dir. dir.pending ≡ []) }
    ensures scratch { IfOk result (λ dir. (number : ℕ) → is_live dir.objects number ≡ true
        → sd_at dir.objects number ≡ scratch dir number) }
{
    let parts = parts_of(alloc, records)?;
    Ok(parts.into_dir(alloc)?)
}

/// The directory of a text of LDIF. The records are read first, then the schema is made of its records, then
/// objects are made of all others by rising number of parts of their names, and then their links are set. They are
/// numbered from 1 in that order. Each object's descriptor is computed from the root, and nothing is pending.
///
/// # Errors
///
/// `Bad` with the first fault of the first of these four phases that has one, and its line. `Memory` may come
/// instead of any answer.
pub fn directory_of(alloc: Global, ldif: &[u8]) -> Result<Dir, LoadFault>
    // The directory that is loaded, or the first fault.
    ensures loaded { GivesUnless is_memory (λ dir. dir) result (loaded ldif.now) }
    // It is sound, nothing is pending, and each descriptor is the one from the root.
    ensures sound { IfOk result IsSound }
    ensures empty { IfOk result (λ dir. dir.pending ≡ []) }
    ensures scratch { IfOk result (λ dir. (number : ℕ) → is_live dir.objects number ≡ true
        → sd_at dir.objects number ≡ scratch dir number) }
{
    let records = records_in(alloc, ldif)?;
    directory_with(alloc, records)
}
