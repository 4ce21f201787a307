//! Which objects a token sees, by the rights to list on the parent and on the object.

ghost use Rattle.std.specs.Prelude.{◌≡◌};
ghost use Rattle.std.specs.Option.{option_copied};
ghost use Rattle.ad_acl.specs.Mask.{list_children, list_object};
ghost use Rattle.ad_sd.specs.Seen.{seen};
ghost use Rattle.ad_access.specs.Visible.{grants_on_object, sees};

use crate::grant::granted_on;
use ad_acl::{LIST_CHILDREN, LIST_OBJECT};
use ad_ids::{Sid, Token};
use ad_sd::SdView;

// Whether to list the children of the object is granted.
fn lists_children(view: &SdView<'_>, self_sid: Option<&Sid>, token: &Token) -> bool
    ensures { result ≡ grants_on_object (seen view.now) token.now (option_copied self_sid.entry)
        list_children }
{
    granted_on(view, token, self_sid, &[], LIST_CHILDREN) & LIST_CHILDREN != 0
}

// Whether to list the object is granted.
fn lists_object(view: &SdView<'_>, self_sid: Option<&Sid>, token: &Token) -> bool
    ensures { result ≡ grants_on_object (seen view.now) token.now (option_copied self_sid.entry)
        list_object }
{
    granted_on(view, token, self_sid, &[], LIST_OBJECT) & LIST_OBJECT != 0
}

// Whether to list the children and whether to list the object is granted, asked for together.
fn listing(view: &SdView<'_>, self_sid: Option<&Sid>, token: &Token) -> (bool, bool)
    ensures children { result.0 ≡ grants_on_object (seen view.now) token.now
        (option_copied self_sid.entry) list_children }
    ensures object { result.1 ≡ grants_on_object (seen view.now) token.now
        (option_copied self_sid.entry) list_object }
{
    let rights = granted_on(view, token, self_sid, &[], LIST_CHILDREN | LIST_OBJECT);
    (rights & LIST_CHILDREN != 0, rights & LIST_OBJECT != 0)
}

/// Whether the token sees an object below the root ([MS-ADTS] 5.1.3.3.6): where it may list the children of the
/// parent, or, in list-object mode, where it may list the parent and the object themselves. Each of the two is judged
/// with the identifier that it has of its own, if it has one.
///
/// It takes no memory.
pub fn sees(
    list_mode: bool,
    parent: SdView<'_>,
    parent_self: Option<&Sid>,
    own: SdView<'_>,
    own_self: Option<&Sid>,
    token: &Token,
) -> bool
    ensures { result
        ≡ sees list_mode (seen parent.entry) (option_copied parent_self.entry) (seen own.entry)
        (option_copied own_self.entry) token.now }
{
    if !list_mode {
        return lists_children(&parent, parent_self, token);
    }
    let (children, object) = listing(&parent, parent_self, token);
    children || object && lists_object(&own, own_self, token)
}
