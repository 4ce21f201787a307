//! What is known of records that were read: their names have the form of names, and their values are bytes. These
//! functions do nothing.

ghost use Rattle.std.specs.Prelude.{map};
ghost use Rattle.std.specs.List.{AllByRecursion};
ghost use Rattle.ad_load_records.specs.Good.{HasBytes, IsGoodRecord};
ghost use Rattle.ad_load_records.specs.Seen.{held_field, seen};

use crate::records::Record;
use ad_bytes::is_bytes;
use ad_ldif::LdifLine as HeldLine;

fn lines_are_bytes(lines: &[HeldLine])
    ensures { AllByRecursion HasBytes (map held_field lines.now) }
{
    for line in lines {
        is_bytes(line.value());
    }
}

fn is_good(one: &Record)
    ensures { IsGoodRecord (seen one.now) }
{
    one.dn.rdns.as_slice();
    lines_are_bytes(one.lines.as_slice());
}

/// What is known of all of them.
pub fn are_good(records: &[Record])
    ensures { AllByRecursion IsGoodRecord (map seen records.now) }
{
    for one in records {
        is_good(one);
    }
}
