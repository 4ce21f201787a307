//! Which groups count for access.

ghost use Rattle.std.specs.Prelude.{◌≡◌};
ghost use Rattle.ad_value.specs.declared.value.Key.TheVariants as key;
ghost use Rattle.ad_principals.specs.Groups.{has_security_bit, is_security_enabled};

use crate::values::first_value;
use ad_dir::Dir;
use ad_value::Value;

// The place of the bit of groupType of groups that count for access.
const SECURITY_ENABLED: u32 = 31;

// Whether a number has that bit in two's complement.
fn has_bit(number: i64) -> bool
    ensures { result ≡ has_security_bit (key.Number number) }
{
    match u64::try_from(number) {
        Ok(number) => (number >> SECURITY_ENABLED) % 2 == 1,
        Err(_) => (((-(number + 1)) as u64) >> SECURITY_ENABLED) % 2 == 0,
    }
}

fn has_security_bit(value: &Value) -> bool
    ensures { result ≡ has_security_bit value.now.key }
{
    match value.number() {
        Some(number) => has_bit(number),
        None => false,
    }
}

/// Whether a group counts for access: it has no groupType, or one with that bit.
#[tactic(auto, unfolding(crate::specs::Groups::is_security_enabled))]
pub fn is_security_enabled(dir: &Dir, group: u32) -> bool
    ensures { result ≡ is_security_enabled dir.now group }
{
    match first_value(dir, group, dir.schema().attr(b"groupType")) {
        Some(value) => has_security_bit(value),
        None => true,
    }
}
