//! The rights that an object's stored descriptor grants on one path.

ghost use Rattle.std.specs.Prelude.{◌≡◌, ℕ, ◌&&◌, ◌<◌, ◌^◌, true};
ghost use Rattle.ad_acl.specs.Mask.{has_bit, mapped_has};
ghost use Rattle.ad_types.specs.Path.{guids_of};
ghost use Rattle.ad_dir_model.specs.Objects.{is_live};
ghost use Rattle.ad_access_dir.specs.Sight.{is_granted};

use ad_dir::{Dir, live_sd};
use ad_ids::Token;
use ad_types::Path;

/// The rights of the wanted mask, after generic mapping, that are granted to the token on an object that is live,
/// and on a path. It takes no memory.
#[tactic(auto, unfolding(crate::specs::Sight::is_granted))]
pub fn granted(dir: &Dir, token: &Token, number: u32, path: &Path, want: u32) -> u32
    requires { is_live dir.now.objects number ≡ true }
    ensures { (bit : ℕ) → bit < 32 → has_bit result bit
        ≡ (mapped_has want bit && is_granted dir.now token.now number (guids_of path.now) bit) }
{
    ad_access::granted(
        live_sd(dir, number),
        token,
        dir.self_sid(number),
        path,
        want,
    )
}

/// Whether a right, which isn't a generic one, is granted to the token on an object that is live, and on a path. It
/// takes no memory.
pub fn grants(dir: &Dir, token: &Token, number: u32, path: &Path, right: u32) -> bool
    requires { is_live dir.now.objects number ≡ true }
    ensures { (bit : ℕ) → right ≡ 2 ^ bit → bit < 28 → result ≡ is_granted dir.now token.now number
        (guids_of path.now) bit }
{
    granted(dir, token, number, path, right) & right != 0
}
