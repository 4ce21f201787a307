//! Whether an object's descriptor is another.

ghost use Rattle.std.specs.Prelude.{◌≡◌, true, not};
ghost use Rattle.ad_sd.specs.Normal.{SpellsNormal};
ghost use Rattle.ad_sd.specs.declared.parts.Sd.{Sd as SdValue};
ghost use Rattle.ad_dir_model.specs.Objects.{sd_at, is_live};
ghost use Rattle.ad_dir_model.specs.SameSd.{same_sd};

use ad_dir::{Dir, live_sd};

/// Whether these normal bytes are those of another descriptor than a live object has.
pub fn is_another(dir: &Dir, number: u32, bytes: &[u8]) -> bool
    requires { is_live dir.now.objects number ≡ true }
    ensures { (sd : SdValue) → SpellsNormal sd bytes.now → result
        ≡ not (same_sd (sd_at dir.now.objects number) sd) }
{
    live_sd(dir, number).as_bytes() != bytes
}
