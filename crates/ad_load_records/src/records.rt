//! Phase 1: the records of a text in their order, each with its name.

ghost use Rattle.std.specs.Prelude.{◌≡◌, ◌+◌, ◌<◌, ◌≤◌, true, false, map, length, Ok, Err, IfOk, IfErr};
ghost use Rattle.ad_bytes.specs.Reading.{GivesUnless};
ghost use Rattle.ad_ldif.specs.Records.{entry_of};
ghost use Rattle.ad_ldif.specs.Story.{untold};
ghost use Rattle.ad_load_records.specs.Faults.{is_memory, of_grammar};
ghost use Rattle.ad_load_records.specs.Pieces.{read_on};
ghost use Rattle.ad_load_records.specs.Prefixed.{prefixed};
ghost use Rattle.ad_load_records.specs.Records.{kind_named, kind_in, kind_of, may_be_named, record_of, all_of};
ghost use Rattle.ad_load_records.specs.Records.{records_in};
ghost use Rattle.ad_load_records.specs.Seen.{held_field, seen, of_reader};
ghost use Rattle.ad_load_records.specs.Records.{most_lines};

use crate::fault::{LoadCause, LoadFault};
use ad_dn::{Dn, DnFault, Rdn};
use ad_ldif::{LdifFault, LdifKind, LdifLine as HeldLine, LdifRecord, LineCache, Reader};
use ad_schema::SchemaKind;
use ad_schema_classes::same_name;
use std::alloc::Global;

/// The largest number of bytes of a text.
pub(crate) const MAX_TEXT: usize = 67_108_864;

/// A record by the line of its `dn`, with its name, and with what it defines where it is one of the schema.
#[derive(Drop)]
pub struct Record {
    pub line: u32,
    pub dn: Dn,
    pub kind: Option<SchemaKind>,
    pub lines: Vec<HeldLine>,
}

fn kind_named(value: &[u8]) -> Option<SchemaKind>
    ensures { result ≡ kind_named value.now }
{
    if same_name(value, b"attributeSchema") {
        return Some(SchemaKind::Attribute);
    }
    if same_name(value, b"classSchema") {
        return Some(SchemaKind::Class);
    }
    if same_name(value, b"controlAccessRight") {
        return Some(SchemaKind::Right);
    }
    None
}

fn kind_in(line: &HeldLine) -> Option<SchemaKind>
    ensures { result ≡ kind_in (held_field line.now) }
{
    if same_name(line.name.as_slice(), b"objectClass") {
        return kind_named(line.value());
    }
    None
}

// What the first line of objectClass says that names a class of the schema's records.
fn kind_of(lines: &[HeldLine]) -> Option<SchemaKind>
    ensures { result ≡ kind_of (map held_field lines.now) }
{
    for line in lines {
        if let Some(kind) = kind_in(line) {
            return Some(kind);
        }
    }
    None
}

// An object has a name; a record of the schema may have the empty one.
fn may_be_named(kind: Option<SchemaKind>, rdns: &[Rdn]) -> bool
    ensures { result ≡ may_be_named kind rdns.now }
{
    match kind {
        Some(_) => true,
        None => !rdns.is_empty(),
    }
}

#[tactic(auto, unfolding(crate::specs::Records::record_of))]
fn record_of(alloc: Global, entry: LdifRecord) -> Result<Record, LoadFault>
    ensures { GivesUnless is_memory seen result (record_of (entry_of entry)) }
{
    let dn = match ad_dn::read(alloc, entry.dn.as_slice()) {
        Ok(dn) => dn,
        Err(DnFault::Bad { .. }) => {
            return Err(LoadFault::Bad {
                line: entry.line,
                cause: LoadCause::Dn,
            });
        }
        Err(DnFault::Memory) => return Err(LoadFault::Memory),
    };
    let kind = kind_of(entry.lines.as_slice());
    if !may_be_named(kind, dn.rdns.as_slice()) {
        return Err(LoadFault::Bad {
            line: entry.line,
            cause: LoadCause::Dn,
        });
    }
    Ok(Record {
        line: entry.line,
        dn,
        kind,
        lines: entry.lines,
    })
}

fn grammar(kind: LdifKind) -> LoadCause
    ensures { result ≡ of_grammar kind }
{
    match kind {
        LdifKind::Line => LoadCause::Line,
        LdifKind::Base64 => LoadCause::Base64,
        LdifKind::NoDn => LoadCause::NoDn,
        LdifKind::Version => LoadCause::Version,
        LdifKind::Url => LoadCause::Url,
        LdifKind::ChangeType => LoadCause::ChangeType,
        LdifKind::TooLong => LoadCause::TooLong,
    }
}

fn of_grammar(fault: LdifFault) -> LoadFault
    ensures { result ≡ of_reader fault }
{
    match fault {
        LdifFault::Bad { line, kind } => LoadFault::Bad {
            line,
            cause: grammar(kind),
        },
        LdifFault::Memory => LoadFault::Memory,
    }
}

// Reads one record more; false at the end of the text.
fn read_one(
    alloc: Global,
    reader: &mut Reader<'_>,
    records: &mut Vec<Record>,
) -> Result<bool, LoadFault>
    ensures one { IfOk result (λ one. one ≡ true → prefixed (map seen records.old.items)
        (all_of (untold reader.old))
        ≡ prefixed (map seen records.new.items) (all_of (untold reader.new))) }
    ensures fewer { IfOk result (λ one. one ≡ true
        → length (untold reader.new).records < length (untold reader.old).records) }
    ensures end { IfOk result (λ one. one ≡ false
        → prefixed (map seen records.old.items) (all_of (untold reader.old))
        ≡ Ok (map seen records.new.items)) }
    ensures fault { IfErr result (λ f. is_memory f ≡ false
        → prefixed (map seen records.old.items) (all_of (untold reader.old)) ≡ Err f) }
{
    let entry = match reader.next(alloc) {
        Ok(Some(entry)) => entry,
        Ok(None) => return Ok(false),
        Err(fault) => return Err(of_grammar(fault)),
    };
    records.push(record_of(alloc, entry)?)?;
    Ok(true)
}

/// Reads the records of a text, or of a part of one, to its end, after those that were read before. `kept` is what
/// the reader of the part before it kept.
pub(crate) fn read_all(
    alloc: Global,
    text: &[u8],
    line: u32,
    kept: LineCache,
    records: &mut Vec<Record>,
) -> Result<LineCache, LoadFault>
    requires { line + length text.now ≤ most_lines + 1 }
    ensures read { IfOk result (λ _. read_on (map seen records.old.items) line text.now
        ≡ Ok (map seen records.new.items)) }
    ensures fault { IfErr result (λ f. is_memory f ≡ false → read_on (map seen records.old.items)
        line text.now ≡ Err f) }
{
    let mut reader = Reader::behind(text, line, kept);
    'records: while read_one(alloc, &mut reader, records)? {}
    Ok(reader.into_kept())
}

/// The records of a text of LDIF.
#[tactic(auto, unfolding(crate::specs::Records::records_in))]
pub fn records_in(alloc: Global, text: &[u8]) -> Result<Vec<Record>, LoadFault>
    ensures records { GivesUnless is_memory (λ records. map seen records.items) result
        (records_in text.now) }
    ensures few { IfOk result (λ records. length records.items ≤ most_lines) }
{
    if text.len() > MAX_TEXT {
        return Err(LoadFault::Bad {
            line: 0,
            cause: LoadCause::TooLong,
        });
    }
    let mut records = Vec::new(alloc);
    read_all(alloc, text, 1, LineCache::nothing(), &mut records)?;
    Ok(records)
}
