//! Identifiers in a text: numeric ones and aliases.

ghost use Rattle.std.specs.Prelude.{◌≡◌, ◌≤◌, ◌+◌, List, ℕ, Option, length, drop, OnOk, IfSome};
ghost use Rattle.std.specs.Option.{option_copied};
ghost use Rattle.ad_bytes.specs.Reading.{Reads};
ghost use Rattle.ad_sddl.specs.Words.{meant_by};
ghost use Rattle.ad_sddl.specs.Reading.{alias_at, sid_at};

use crate::fault::{ParseError, SddlKind};
use crate::words::{Base, alias_table, find_alias};
use ad_bytes::Input;
use ad_ids::Sid;

fn meant_by(domain: Option<&Sid>, base: Base, number: u32) -> Option<Sid>
    ensures { result ≡ meant_by (option_copied domain.entry) base number }
{
    match base {
        Base::World => Some(Sid::well_known(1, number)),
        Base::Creator => Some(Sid::well_known(3, number)),
        Base::Nt => Some(Sid::well_known(5, number)),
        Base::Builtin => Sid::well_known(5, 32).child(number),
        Base::Domain => domain?.child(number),
    }
}

#[tactic(auto, unfolding(crate::specs::Reading::alias_at))]
fn read_alias(input: &mut Input<'_>, domain: Option<&Sid>) -> Result<Sid, ParseError>
    ensures read { Reads result input.new (alias_at (option_copied domain.entry) input.old) }
    ensures left { OnOk result (length input.new ≤ length input.old) }
{
    let left = input.len();
    let Ok(first) = input.byte() else {
        return Err(ParseError::Bad(SddlKind::Sid, left));
    };
    let Ok(second) = input.byte() else {
        return Err(ParseError::Bad(SddlKind::Sid, left));
    };
    let Some(alias) = find_alias(alias_table(), first, second) else {
        return Err(ParseError::Bad(SddlKind::Sid, left));
    };
    match meant_by(domain, alias.base, alias.number) {
        Some(sid) => Ok(sid),
        None => Err(ParseError::Bad(SddlKind::Domain, left)),
    }
}

/// Reads an identifier: the longest numeric one, else an alias.
#[tactic(auto, unfolding(crate::specs::Reading::sid_at))]
pub(crate) fn read_sid(input: &mut Input<'_>, domain: Option<&Sid>) -> Result<Sid, ParseError>
    ensures read { Reads result input.new (sid_at (option_copied domain.entry) input.old) }
    ensures left { OnOk result (length input.new ≤ length input.old) }
{
    if let Some((sid, len)) = Sid::from_text_front(input.rest()) {
        skip(input, len);
        return Ok(sid);
    }
    read_alias(input, domain)
}

/// Passes over these bytes, which are there.
#[tactic(auto, unfolding(ad_bytes::specs::Numbers::part_at))]
pub(crate) fn skip(input: &mut Input<'_>, len: usize)
    requires { len ≤ length input.old }
    ensures left { input.new ≡ drop len input.old }
    ensures shorter { length input.new + len ≡ length input.old }
{
    let _ = input.part(len);
}
