//! How a list is read after its letter and colon.

ghost use Rattle.std.specs.Prelude.{◌≡◌, ◌≤◌, ◌<◌, ◌||◌, List, ℕ, Option, Some, None, length, drop, OnOk, OnSome};
ghost use Rattle.std.specs.Prelude.{IfNone};
ghost use Rattle.std.specs.Option.{option_copied};
ghost use Rattle.ad_bytes.specs.Reading.{ReadsUnless};
ghost use Rattle.ad_sddl.specs.Reading.{list_flag_at, all_flags, all_entries, list_at};
ghost use Rattle.ad_sddl.specs.Calls.{is_memory, with_rest};

use crate::entry::read_entry;
use crate::fault::ParseError;
use crate::field::{begins, takes};
use crate::numeric::skip;
use ad_acl::Aces;
use ad_bytes::Input;
use ad_ids::Sid;
use ad_sd::AceList;
use std::alloc::Global;

// Takes a flag of a list, if one stands there, and says whether it is P.
#[tactic(auto, unfolding(crate::specs::Reading::list_flag_at))]
fn read_list_flag(input: &mut Input<'_>) -> Option<bool>
    ensures read { with_rest input.new result ≡ list_flag_at input.old }
    ensures none { IfNone result (input.new ≡ input.old) }
    ensures left { OnSome result (length input.new < length input.old) }
{
    if takes(input, b"p") {
        return Some(true);
    }
    if takes(input, b"ar") {
        return Some(false);
    }
    if takes(input, b"ai") {
        return Some(false);
    }
    None
}

// Takes the flags of a list, and says whether P is among them.
fn read_list_flags(input: &mut Input<'_>) -> bool
    ensures read { (result, input.new) ≡ all_flags input.old }
    ensures left { length input.new ≤ length input.old }
{
    let mut protected = false;
    while let Some(is_p) = read_list_flag(input) {
        protected = protected || is_p;
    }
    protected
}

// Reads entries as long as one begins.
fn read_entries(
    alloc: Global,
    input: &mut Input<'_>,
    domain: Option<&Sid>,
) -> Result<Aces, ParseError>
    ensures read { ReadsUnless is_memory (λ a. a) result input.new
        (all_entries (option_copied domain.entry) input.old) }
    ensures left { OnOk result (length input.new ≤ length input.old) }
{
    let mut entries = Aces::new(alloc);
    'entries: while takes(input, b"(") {
        entries.push(read_entry(input, domain)?)?;
    }
    Ok(entries)
}

/// Reads a list: its flags, and then its entries.
#[tactic(auto, unfolding(crate::specs::Reading::list_at))]
pub(crate) fn read_list(
    alloc: Global,
    input: &mut Input<'_>,
    domain: Option<&Sid>,
) -> Result<AceList, ParseError>
    ensures read { ReadsUnless is_memory (λ list. list) result input.new
        (list_at (option_copied domain.entry) input.old) }
    ensures left { OnOk result (length input.new ≤ length input.old) }
{
    let protected = read_list_flags(input);
    let entries = read_entries(alloc, input, domain)?;
    Ok(AceList { protected, entries })
}
