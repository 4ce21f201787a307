//! Whether objects are seen, judged once for those that stand one after the other below one parent.

ghost use Rattle.std.specs.Prelude.{◌≡◌, true, IfSome};
ghost use Rattle.ad_ids.specs.declared.token.Token.{Token as TokenValue};
ghost use Rattle.ad_dir_model.specs.Objects.{is_live};
ghost use Rattle.ad_access_dir.specs.Sight.{is_visible};
ghost use Rattle.ad_search.specs.Parents.{IsKept};

use ad_access_dir::is_visible;
use ad_dir::{Dir, live_object};
use ad_ids::Token;

/// The directory's mode, and where that is off whether what stands below a parent is seen.
#[derive(Clone, Copy)]
pub(crate) struct Parent {
    /// Whether list-object mode is on.
    pub list_mode: bool,
    /// Whether anything is kept here.
    pub is_known: bool,
    pub number: u32,
    pub shows: bool,
}

/// A place where nothing is kept.
pub(crate) fn no_parent(dir: &Dir) -> Parent
    ensures { (token : TokenValue) → IsKept dir.now token result }
{
    Parent {
        list_mode: dir.list_mode(),
        is_known: false,
        number: 0,
        shows: false,
    }
}

// What is kept, where it is of this parent.
fn shown_by(kept: &Parent, parent: u32) -> Option<bool>
    ensures known { IfSome result (λ shows. kept.now.is_known ≡ true) }
    ensures number { IfSome result (λ shows. parent ≡ kept.now.number) }
    ensures shows { IfSome result (λ shows. kept.now.shows ≡ shows) }
{
    if kept.is_known && kept.number == parent {
        return Some(kept.shows);
    }
    None
}

/// Whether the token sees a live object. Where list-object mode is off the parent alone counts.
pub(crate) fn is_seen(dir: &Dir, token: &Token, number: u32, last: &mut Parent) -> bool
    requires live { is_live dir.now.objects number ≡ true }
    requires kept { IsKept dir.now token.now last.old }
    ensures seen { result ≡ is_visible dir.now token.now number }
    ensures kept { IsKept dir.now token.now last.new }
{
    let list_mode = last.list_mode;
    if list_mode || number == 1 {
        return is_visible(dir, token, list_mode, number);
    }
    let parent = live_object(dir, number).parent;
    if let Some(shows) = shown_by(last, parent) {
        return shows;
    }
    let shows = is_visible(dir, token, list_mode, number);
    *last = Parent {
        list_mode,
        is_known: true,
        number: parent,
        shows,
    };
    shows
}
