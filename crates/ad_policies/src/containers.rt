//! The containers above an object, and which of them take no policies from above.

ghost use Rattle.std.specs.Prelude.{◌≡◌, ◌||◌, true, All, IfOk};
ghost use Rattle.ad_value.specs.declared.value.Key.TheVariants as key;
ghost use Rattle.ad_dir_model.specs.Objects.{is_live};
ghost use Rattle.ad_policies.specs.Policies.{above, is_odd, blocks};

use crate::values::first_value;
use ad_dir::{Dir, MAX_DEPTH, ROOT, parent_number};
use ad_value::Value;
use std::alloc::{AllocError, Global};

/// The objects above a live one, the nearest first. They are live.
///
/// # Errors
///
/// Out of memory.
pub fn above(alloc: Global, dir: &Dir, number: u32) -> Result<Vec<u32>, AllocError>
    requires { is_live dir.now.objects number ≡ true }
    ensures above { IfOk result (λ containers. containers.items ≡ above dir.now number) }
    ensures live { IfOk result (λ containers.
        All (λ n. is_live dir.now.objects n ≡ true) containers.items) }
{
    dir.invariants();
    let mut containers = Vec::new(alloc);
    let mut at = number;
    let mut left = MAX_DEPTH;
    'up: while left > 0 {
        left -= 1;
        if at == ROOT {
            return Ok(containers);
        }
        at = parent_number(dir, at);
        containers.push(at)?;
    }
    Ok(containers)
}

// ---- blocked inheritance

fn is_odd(number: i64) -> bool
    ensures { result ≡ is_odd (key.Number number) }
{
    match u64::try_from(number) {
        Ok(number) => number % 2 == 1,
        Err(_) => false,
    }
}

fn has_odd(value: &Value) -> bool
    ensures { result ≡ is_odd value.now.key }
{
    match value.number() {
        Some(number) => is_odd(number),
        None => false,
    }
}

/// Whether a container takes no policies from above: its gPOptions is odd. It takes no memory.
#[tactic(auto, unfolding(crate::specs::Policies::blocks))]
pub fn blocks(dir: &Dir, container: u32) -> bool
    ensures { result ≡ blocks dir.now container }
{
    match first_value(dir, container, dir.schema().attr(b"gPOptions")) {
        Some(value) => has_odd(value),
        None => false,
    }
}

/// Whether a container takes none, or one below it doesn't.
pub(crate) fn blocks_or(dir: &Dir, blocked: bool, container: u32) -> bool
    ensures { result ≡ blocked || blocks dir.now container }
{
    if blocked {
        return true;
    }
    blocks(dir, container)
}
