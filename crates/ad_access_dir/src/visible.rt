//! Which objects of a directory a token sees.

ghost use Rattle.std.specs.Prelude.{◌≡◌, true};
ghost use Rattle.ad_dir_model.specs.Objects.{is_live};
ghost use Rattle.ad_dir_model.specs.Settings.{list_object_mode};
ghost use Rattle.ad_access_dir.specs.Sight.{is_visible};

use ad_access::sees;
use ad_dir::{Dir, ROOT, live_sd, parent_of};
use ad_ids::Token;

/// Whether the token sees an object that is live. `list_mode` is the directory's, which is asked for once a
/// request. It takes no memory.
pub fn is_visible(dir: &Dir, token: &Token, list_mode: bool, number: u32) -> bool
    requires live { is_live dir.now.objects number ≡ true }
    requires mode { list_mode ≡ list_object_mode dir.now }
    ensures { result ≡ is_visible dir.now token.now number }
{
    if number == ROOT {
        return true;
    }
    let parent = parent_of(dir, number);
    sees(
        list_mode,
        live_sd(dir, parent),
        dir.self_sid(parent),
        live_sd(dir, number),
        dir.self_sid(number),
        token,
    )
}
