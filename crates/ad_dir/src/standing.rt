//! Where objects stand: which are above and below one another.

ghost use Rattle.std.specs.Prelude.{◌≡◌};
ghost use Rattle.ad_dir_model.specs.Tree.{is_below};
ghost use Rattle.ad_dir_model.specs.Directory.{parents};
ghost use Rattle.ad_dir_model.specs.Changes.{goes_with};

use crate::dir::Dir;
use crate::names::ROOT;

/// As many parents stand above an object at most.
pub const MAX_DEPTH: u32 = 64;

/// The number of the parent of an object, and 0 where none of the number is live.
pub fn parent_number(dir: &Dir, number: u32) -> u32
    ensures { result ≡ parents dir.now number }
{
    match dir.object(number) {
        Some(object) => object.parent,
        None => 0,
    }
}

/// Whether the other object stands above.
pub fn is_below(dir: &Dir, other: u32, number: u32) -> bool
    ensures { result ≡ is_below (parents dir.now) other number }
{
    let mut at = number;
    let mut left = MAX_DEPTH;
    'up: while left > 0 {
        left -= 1;
        if at == ROOT {
            return false;
        }
        at = parent_number(dir, at);
        if at == other {
            return true;
        }
    }
    false
}

/// Whether an object is the other, or stands below it.
#[tactic(auto, unfolding(ad_dir_model::specs::Changes::goes_with))]
pub fn goes_with(dir: &Dir, other: u32, number: u32) -> bool
    ensures { result ≡ goes_with dir.now other number }
{
    number == other || is_below(dir, other, number)
}
