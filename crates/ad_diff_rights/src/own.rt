//! The own identifiers of objects, and whether they count.

ghost use Rattle.std.specs.Prelude.{◌≡◌, true};
ghost use Rattle.std.specs.List.{list_any};
ghost use Rattle.std.specs.Option.{option_copied};
ghost use Rattle.ad_sd.specs.Seen.{seen};
ghost use Rattle.ad_dir_model.specs.Objects.{is_live, sd_at};
ghost use Rattle.ad_diff_rights.specs.Own.{is_for_self, own_sid, asked_in};

use ad_dir::{Dir, live_sd};
use ad_ids::Sid;
use ad_sd::SdView;

/// Whether both identifiers are the same, or there are none.
pub(crate) fn same_sid(a: Option<&Sid>, b: Option<&Sid>) -> bool
    ensures { result ≡ true → option_copied a.entry ≡ option_copied b.entry }
{
    match (a, b) {
        (None, None) => true,
        (Some(a), Some(b)) => *a == *b,
        _ => false,
    }
}

// Whether an entry is for the object itself (S-1-5-10).
fn names_self_in(view: &SdView<'_>) -> bool
    ensures { result ≡ list_any is_for_self (seen view.now).dacl.entries }
{
    for ace in view.dacl_in() {
        if ace.sid().is_well_known(5, 10) {
            return true;
        }
    }
    false
}

// Whether an entry of the descriptor of a live object is for the object itself (S-1-5-10).
fn names_self(dir: &Dir, number: u32) -> bool
    requires { is_live dir.now.objects number ≡ true }
    ensures { result ≡ list_any is_for_self (sd_at dir.now.objects number).dacl.entries }
{
    let view = live_sd(dir, number);
    names_self_in(&view)
}

/// The own identifier of a live object, where an entry of its descriptor asks for it.
pub fn asked_in(dir: &Dir, number: u32) -> Option<&Sid>
    requires { is_live dir.now.objects number ≡ true }
    ensures { option_copied result ≡ asked_in dir.now number }
{
    if names_self(dir, number) {
        return dir.self_sid(number);
    }
    None
}

/// The own identifier of an object, where it counts.
pub(crate) fn own_sid(dir: &Dir, own: bool, number: u32) -> Option<&Sid>
    ensures { option_copied result ≡ own_sid dir.now own number }
{
    if own {
        return dir.self_sid(number);
    }
    None
}
