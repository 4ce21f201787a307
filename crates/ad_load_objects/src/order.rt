//! The order in which objects are made: by rising number of parts of their names.

ghost use Rattle.std.specs.Prelude.{◌≡◌, ◌<◌, ◌+◌, map, drop, length, OnOk};
ghost use Rattle.std.specs.List.{list_all};
ghost use Rattle.ad_load_objects.specs.Objects.{is_object, by_parts, is_no_root, has_root};
ghost use Rattle.ad_load_records.specs.Seen.{seen};

use ad_load_records::Record;
use std::alloc::AllocError;

/// Sorts records by the number of parts of their names. Those of one number keep their order.
pub(crate) fn sort_by_parts(records: &mut Vec<Record>) -> Result<(), AllocError>
    ensures sorted { OnOk result (map seen records.new.items
        ≡ by_parts (map seen records.old.items)) }
    ensures len { length records.new.items ≡ length records.old.items }
{
    records.sort_by_key(|one| one.dn.rdns.len())?;
    Ok(())
}

pub(crate) fn is_object(one: &Record) -> bool
    ensures { result ≡ is_object (seen one.now) }
{
    one.kind.is_none()
}

fn is_no_root(first: &Record, other: &Record) -> bool
    ensures { result ≡ is_no_root (seen first.now) (seen other.now) }
{
    !is_object(other) || first.dn.rdns.len() < other.dn.rdns.len()
}

fn are_no_roots(first: &Record, others: &[Record]) -> bool
    ensures { result ≡ list_all (λ other. is_no_root (seen first.now) (seen other)) others.now }
{
    others.iter().all(|other| is_no_root(first, other))
}

fn behind(records: &[Record], place: usize) -> &[Record]
    requires { place < length records.now }
    ensures { result.now ≡ drop (place + 1) records.entry.now }
{
    &records[place + 1..]
}

/// Whether the first object has fewer parts in its name than all others.
pub(crate) fn has_root(records: &[Record]) -> bool
    ensures { result ≡ has_root (map seen records.now) }
{
    for i in 0..records.len() {
        let first = &records[i];
        if is_object(first) {
            return are_no_roots(first, behind(records, i));
        }
    }
    false
}
