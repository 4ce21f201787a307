//! The objects at which protection begins, and those that are protected alone, by their identifiers.

ghost use Rattle.std.specs.Prelude.{◌≡◌, ◌==◌, ◌<◌, ℕ};
ghost use Rattle.std.specs.Option.{option_copied};
ghost use Rattle.std.specs.Int.{bit_at};
ghost use Rattle.ad_dir_model.specs.Identity.{self_sid};
ghost use Rattle.ad_dir_model.specs.Settings.{taken_out};
ghost use Rattle.ad_dir_model.specs.Protection.{is_builtin, is_of_domain, begins_protection, is_protected_alone};
ghost use Rattle.ad_protect.specs.Spreading.{is_below, is_number};

use crate::group;
use ad_dir::{Dir, ROOT};
use ad_ids::Sid;

// Whether an identifier is the other one with this number after it.
fn is_below(above: &Sid, sid: &Sid, number: u32) -> bool
    ensures { result ≡ is_below above.now sid.now number }
{
    match above.child(number) {
        Some(own) => *sid == own,
        None => false,
    }
}

// The last sub-authority of an identifier, where the others are the other identifier.
fn last_below(above: &Sid, sid: &Sid) -> Option<u32>
    ensures { (number : ℕ) → is_below above.now sid.now number ≡ is_number result number }
{
    let last = *sid.sub_authorities().last()?;
    if is_below(above, sid, last) {
        return Some(last);
    }
    None
}

// What stands after the domain's identifier in an object's, where it is one of the domain's.
pub(crate) fn domain_number(dir: &Dir, number: u32) -> Option<u32>
    ensures { (rid : ℕ) → is_of_domain dir.now (self_sid dir.now number) rid
        ≡ is_number result rid }
{
    let domain = dir.self_sid(ROOT)?;
    let sid = dir.self_sid(number)?;
    last_below(domain, sid)
}

// What stands after S-1-5-32 in an identifier.
fn builtin_number(sid: Option<&Sid>) -> Option<u32>
    ensures { (number : ℕ) → is_builtin (option_copied sid.entry) number ≡ is_number result number }
{
    match sid {
        Some(sid) => last_below(&Sid::well_known(5, 32), sid),
        None => None,
    }
}

fn is_number(found: Option<u32>, number: u32) -> bool
    ensures { result ≡ is_number found number }
{
    match found {
        Some(own) => own == number,
        None => false,
    }
}

// Whether the number has this bit, counted from 0.
fn has_bit(number: u8, bit: u8) -> bool
    requires { bit < 8 }
    ensures { result ≡ (bit_at number bit == 1) }
{
    (number >> bit) % 2 == 1
}

// Whether protection begins at the object, where these groups are taken out.
#[tactic(auto, unfolding(ad_dir_model::specs::Protection::begins_protection))]
pub(crate) fn begins(dir: &Dir, out: u8, number: u32) -> bool
    requires { out ≡ taken_out dir.now }
    ensures { result ≡ begins_protection dir.now (self_sid dir.now number) }
{
    let builtin = builtin_number(dir.self_sid(number));
    let domain = domain_number(dir, number);
    is_number(builtin, group::ADMINISTRATORS)
        || (is_number(builtin, group::REPLICATOR)
            || ((is_number(builtin, group::ACCOUNT_OPERATORS)
                && !has_bit(out, group::ACCOUNT_OPERATORS_BIT))
                || ((is_number(builtin, group::SERVER_OPERATORS)
                    && !has_bit(out, group::SERVER_OPERATORS_BIT))
                    || ((is_number(builtin, group::PRINT_OPERATORS)
                        && !has_bit(out, group::PRINT_OPERATORS_BIT))
                        || ((is_number(builtin, group::BACKUP_OPERATORS)
                            && !has_bit(out, group::BACKUP_OPERATORS_BIT))
                            || (is_number(domain, group::DOMAIN_ADMINS)
                                || (is_number(domain, group::SCHEMA_ADMINS)
                                    || is_number(domain, group::ENTERPRISE_ADMINS))))))))
}

// Whether the object is protected, and spreads nothing.
#[tactic(auto, unfolding(ad_dir_model::specs::Protection::is_protected_alone))]
pub(crate) fn is_alone(dir: &Dir, number: u32) -> bool
    ensures { result ≡ is_protected_alone dir.now (self_sid dir.now number) }
{
    let domain = domain_number(dir, number);
    is_number(domain, group::ADMINISTRATOR)
        || (is_number(domain, group::KRBTGT)
            || (is_number(domain, group::DOMAIN_CONTROLLERS)
                || is_number(domain, group::READ_ONLY_DOMAIN_CONTROLLERS)))
}
