//! One change record, line by line.

ghost use Rattle.std.specs.Prelude.{◌≡◌, ◌≤◌, [], map, OnOk, Ok, None, Some};
ghost use Rattle.ad_ldif.specs.Left.{record_left, others_left, records_left, bytes_left};
ghost use Rattle.ad_ldif.specs.Logical.{line_of};
ghost use Rattle.ad_ldif.specs.Records.{field_of};
ghost use Rattle.ad_ldif.specs.Change.{op_seen, change_seen};
ghost use Rattle.ad_ldif.specs.ChangeLines.{value_in, flag_in};
ghost use Rattle.ad_ldif.specs.Changing.{opened_behind, ended, first_field, added, next_of, superior_of, renamed};
ghost use Rattle.ad_ldif.specs.Changing.{items_from, item_and, items_behind, op_from, change_of, GoesOn};
ghost use Rattle.ad_ldif.specs.Changes.{TellsChange, changes_in};
ghost use Rattle.ad_ldif.specs.Story.{Gives};

use crate::change::{LdifChange, LdifControl, LdifItem, LdifOp};
use crate::change_lines::{
    ChangeType, Opening, ends_item, flag_in, read_item, read_opening, value_in,
};
use crate::cursor::Cursor;
use crate::fault::{LdifFault, LdifKind};
use crate::field::{read_dn, read_field};
use crate::logical::Logical;
use crate::reading::{dn_line, exact, read_fields};
use crate::record::LdifLine;
use crate::repeated::{Decoded, LineCache};
use ad_bytes::{Bytes, List};
use std::alloc::Global;

/// The controls after `dn`, and the kind of change with the number of its line. `first` is the number of the line
/// of `dn`.
fn read_openings<'a>(
    alloc: Global,
    at: &mut Cursor<'a>,
    last: &mut LineCache,
    first: u32,
    controls: &mut List<LdifControl>,
) -> Result<(ChangeType, u32), LdifFault>
    ensures opened { Gives (λ t. record {
      controls = controls.new;
      type = t.0;
      line = t.1;
      others
          = record_left at.new;
    }) result
        (opened_behind controls.old first (record_left at.old)) }
    ensures others { OnOk result (others_left at.old ≡ others_left at.new) }
{
    let mut number = first;
    'lines: while let Some(line) = at.next_in_record(alloc, last)? {
        match read_opening(alloc, &line)? {
            Opening::Control(control) => controls.push(control)?,
            Opening::Type(kind) => return Ok((kind, line.number)),
        }
        number = line.number;
    }
    Err(LdifFault::Bad {
        line: number,
        kind: LdifKind::ChangeType,
    })
}

/// That the record ends here.
#[tactic(auto, unfolding(crate::specs::Changing::ended))]
fn read_end<'a>(alloc: Global, at: &mut Cursor<'a>, last: &mut LineCache) -> Result<(), LdifFault>
    ensures ended { Gives (λ u. u) result (ended (record_left at.old)) }
    ensures others { OnOk result (others_left at.old ≡ records_left at.new) }
{
    match at.next_in_record(alloc, last)? {
        None => Ok(()),
        Some(line) => Err(LdifFault::Bad {
            line: line.number,
            kind: LdifKind::Line,
        }),
    }
}

/// The first attribute's line of a new object.
#[tactic(auto, unfolding(crate::specs::Changing::first_field))]
fn read_first(
    alloc: Global,
    last: &mut Option<Decoded>,
    line: &Logical<'_>,
) -> Result<Vec<LdifLine>, LdifFault>
    ensures { Gives (λ v. map field_of v.items) result (first_field (line_of line.now)) }
{
    let mut fields = Vec::new(alloc);
    fields.push(read_field(alloc, last, line.number, line.bytes())?)?;
    Ok(fields)
}

/// The attributes' lines of a new object, after the line of this number.
fn read_added<'a>(
    alloc: Global,
    at: &mut Cursor<'a>,
    last: &mut LineCache,
    number: u32,
) -> Result<Vec<LdifLine>, LdifFault>
    ensures fields { Gives (λ v. map field_of v.items) result (added number (record_left at.old)) }
    ensures others { OnOk result (others_left at.old ≡ records_left at.new) }
{
    let Some(line) = at.next_in_record(alloc, last)? else {
        return Err(LdifFault::Bad {
            line: number,
            kind: LdifKind::Line,
        });
    };
    let mut fields = read_first(alloc, &mut last.decoded, &line)?;
    read_fields(alloc, at, last, &mut fields)?;
    Ok(exact(alloc, fields)?)
}

/// The value of the next line, which has this name, and the number of that line.
#[tactic(auto, unfolding(crate::specs::Changing::next_of))]
fn next_value<'a>(
    alloc: Global,
    at: &mut Cursor<'a>,
    last: &mut LineCache,
    name: &[u8],
    number: u32,
) -> Result<(Bytes, u32), LdifFault>
    ensures value { Gives (λ v. record { value = v.0; line = v.1; others = record_left at.new })
        result
        (next_of (value_in name.now) number (record_left at.old)) }
    ensures others { OnOk result (others_left at.old ≡ others_left at.new) }
{
    match at.next_in_record(alloc, last)? {
        Some(line) => Ok((value_in(alloc, name, &line)?, line.number)),
        None => Err(LdifFault::Bad {
            line: number,
            kind: LdifKind::Line,
        }),
    }
}

/// The flag in the next line, which has this name, and the number of that line.
#[tactic(auto, unfolding(crate::specs::Changing::next_of))]
fn next_flag<'a>(
    alloc: Global,
    at: &mut Cursor<'a>,
    last: &mut LineCache,
    name: &[u8],
    number: u32,
) -> Result<(bool, u32), LdifFault>
    ensures value { Gives (λ v. record { value = v.0; line = v.1; others = record_left at.new })
        result
        (next_of (flag_in name.now) number (record_left at.old)) }
    ensures others { OnOk result (others_left at.old ≡ others_left at.new) }
{
    match at.next_in_record(alloc, last)? {
        Some(line) => Ok((flag_in(alloc, name, &line)?, line.number)),
        None => Err(LdifFault::Bad {
            line: number,
            kind: LdifKind::Line,
        }),
    }
}

/// The new parent, if a line names it, at the record's end.
#[tactic(auto, unfolding(crate::specs::Changing::superior_of))]
fn read_superior<'a>(
    alloc: Global,
    at: &mut Cursor<'a>,
    last: &mut LineCache,
) -> Result<Option<Bytes>, LdifFault>
    ensures superior { Gives (λ s. s) result (superior_of (record_left at.old)) }
    ensures others { OnOk result (others_left at.old ≡ records_left at.new) }
{
    let Some(line) = at.next_in_record(alloc, last)? else {
        return Ok(None);
    };
    let superior = value_in(alloc, b"newsuperior", &line)?;
    read_end(alloc, at, last)?;
    Ok(Some(superior))
}

#[tactic(auto, unfolding(crate::specs::Changing::renamed))]
fn read_renamed<'a>(
    alloc: Global,
    at: &mut Cursor<'a>,
    last: &mut LineCache,
    number: u32,
) -> Result<LdifOp, LdifFault>
    ensures op { Gives op_seen result (renamed number (record_left at.old)) }
    ensures others { OnOk result (others_left at.old ≡ records_left at.new) }
{
    let (rdn, number) = next_value(alloc, at, last, b"newrdn", number)?;
    let (delete_old, _) = next_flag(alloc, at, last, b"deleteoldrdn", number)?;
    let superior = read_superior(alloc, at, last)?;
    Ok(LdifOp::Rename {
        rdn,
        delete_old,
        superior,
    })
}

/// The values of an item that was begun at the line of this number, up to its end.
fn read_values<'a>(
    alloc: Global,
    at: &mut Cursor<'a>,
    last: &mut LineCache,
    first: u32,
    item: &mut LdifItem,
) -> Result<(), LdifFault>
    ensures values { GoesOn result (items_from (Some (record { item = item.old; line = first }))
        (record_left at.old))
        (item_and item.new (items_from None (record_left at.new))) }
    ensures others { OnOk result (others_left at.old ≡ others_left at.new) }
    ensures shorter { OnOk result (bytes_left at.new ≤ bytes_left at.old) }
{
    let mut number = first;
    'lines: while let Some(line) = at.next_in_record(alloc, last)? {
        if ends_item(&line) {
            return Ok(());
        }
        let value = value_in(alloc, item.name.as_slice(), &line)?;
        item.values.push(value)?;
        number = line.number;
        last.take_back(line);
    }
    Err(LdifFault::Bad {
        line: number,
        kind: LdifKind::Line,
    })
}

/// The items up to the record's end.
fn read_items<'a>(
    alloc: Global,
    at: &mut Cursor<'a>,
    last: &mut LineCache,
    items: &mut List<LdifItem>,
) -> Result<(), LdifFault>
    ensures items { Gives (λ _. items.new) result (items_behind items.old (record_left at.old)) }
    ensures others { OnOk result (others_left at.old ≡ records_left at.new) }
{
    'each: while let Some(line) = at.next_in_record(alloc, last)? {
        let mut item = read_item(alloc, &line)?;
        read_values(alloc, at, last, line.number, &mut item)?;
        items.push(item)?;
    }
    Ok(())
}

/// What a change of this kind does, whose kind stands in the line of this number.
#[tactic(auto, unfolding(crate::specs::Changing::op_from))]
fn read_op<'a>(
    alloc: Global,
    at: &mut Cursor<'a>,
    last: &mut LineCache,
    kind: ChangeType,
    number: u32,
) -> Result<LdifOp, LdifFault>
    ensures op { Gives op_seen result (op_from kind number (record_left at.old)) }
    ensures others { OnOk result (others_left at.old ≡ records_left at.new) }
{
    match kind {
        ChangeType::Add => Ok(LdifOp::Add(read_added(alloc, at, last, number)?)),
        ChangeType::Delete => {
            read_end(alloc, at, last)?;
            Ok(LdifOp::Delete)
        }
        ChangeType::Rename => read_renamed(alloc, at, last, number),
        ChangeType::Modify => {
            let mut items = List::new(alloc);
            read_items(alloc, at, last, &mut items)?;
            Ok(LdifOp::Modify(items))
        }
    }
}

/// The change record whose first line this is.
#[tactic(auto, unfolding(crate::specs::Changing::change_of))]
fn read_change<'a>(
    alloc: Global,
    at: &mut Cursor<'a>,
    last: &mut LineCache,
    first: Logical<'a>,
) -> Result<LdifChange, LdifFault>
    ensures change { Gives change_seen result
        (change_of (record { first = line_of first.entry; others = record_left at.old })) }
    ensures others { OnOk result (others_left at.old ≡ records_left at.new) }
{
    let head = dn_line(alloc, at, last, first)?;
    let dn = read_dn(alloc, head.number, head.bytes())?;
    let mut controls = List::new(alloc);
    let (kind, number) = read_openings(alloc, at, last, head.number, &mut controls)?;
    let kind = read_op(alloc, at, last, kind, number)?;
    Ok(LdifChange {
        line: head.number,
        dn,
        controls,
        kind,
    })
}

/// The next change record; None at the end of the text. `last` is what was read last.
pub(crate) fn read_next_change<'a>(
    alloc: Global,
    at: &mut Cursor<'a>,
    last: &mut LineCache,
) -> Result<Option<LdifChange>, LdifFault>
    ensures told { TellsChange (changes_in (records_left at.old)) result
        (changes_in (records_left at.new)) }
    ensures end { records_left at.old ≡ [] → result ≡ Ok None }
{
    let Some(first) = at.next_record(alloc, last)? else {
        return Ok(None);
    };
    Ok(Some(read_change(alloc, at, last, first)?))
}
