//! Which attributes a token may read of the objects of one kind, judged when they are asked for.

ghost use Rattle.std.specs.Prelude.{◌≡◌, ◌<◌, ℕ, Bool, true, None, length, slice_index_or};
ghost use Rattle.ad_schema.specs.Attributes.{attrs_of};
ghost use Rattle.ad_ldap.specs.MessageValue.{search_seen};
ghost use Rattle.ad_dir_model.specs.Objects.{is_live};
ghost use Rattle.ad_entries.specs.Places.{is_readable_at, is_given_at};
ghost use Rattle.ad_entries.specs.Asked.{AreAsked};
ghost use Rattle.ad_entries.specs.Verdicts.{AreTrue};
ghost use Rattle.ad_entries.specs.Judged.{IsJudgedOf};

use crate::asking::{Asked, Asking, is_flagged};
use crate::judged::Judged;
use crate::reading::is_readable;
use ad_schema::AttrId;

// What was judged of the attribute at a place.
fn verdict_at(verdicts: &[Option<bool>], place: u32) -> Option<bool>
    ensures { result ≡ slice_index_or verdicts.now place None }
{
    match verdicts.get(place as usize) {
        Some(verdict) => *verdict,
        None => None,
    }
}

// Keeps what was judged of the attribute at a place.
fn keep(verdicts: &mut Vec<Option<bool>>, place: u32, so: bool)
    ensures { (truth : ℕ → Bool) → so ≡ truth place → AreTrue truth verdicts.old.items
        → AreTrue truth verdicts.new.items }
{
    let place = place as usize;
    if place < verdicts.len() {
        verdicts[place] = Some(so);
    }
}

// Whether an attribute may be read of an object of the kind of which that is judged.
fn is_readable_so(asking: &Asking<'_>, number: u32, attr: AttrId, one: &mut Judged) -> bool
    requires live { is_live asking.now.dir.now.objects number ≡ true }
    requires attr { attr.0 < length (attrs_of asking.now.dir.now.schema) }
    requires one { IsJudgedOf asking.now.dir.now asking.now.token.now
        (search_seen asking.now.search.now) number one.old }
    ensures so { result ≡ is_readable_at asking.now.dir.now asking.now.token.now number attr.0 }
    ensures one { IsJudgedOf asking.now.dir.now asking.now.token.now
        (search_seen asking.now.search.now) number one.new }
{
    if let Some(so) = verdict_at(one.verdicts.as_slice(), attr.0) {
        return so;
    }
    let info = asking.dir.schema().attr_info(attr);
    let so = is_readable(asking.dir, asking.token, number, attr, info);
    keep(&mut one.verdicts, attr.0, so);
    so
}

/// Whether the attribute at a place is asked for and may be read of an object of the kind of which that is judged.
pub(crate) fn is_given(
    asking: &Asking<'_>,
    number: u32,
    asked: &Asked,
    place: u32,
    one: &mut Judged,
) -> bool
    requires live { is_live asking.now.dir.now.objects number ≡ true }
    requires asked { AreAsked asking.now.dir.now.schema (search_seen asking.now.search.now).attrs
        asked.now }
    requires one { IsJudgedOf asking.now.dir.now asking.now.token.now
        (search_seen asking.now.search.now) number one.old }
    ensures so { result ≡ is_given_at asking.now.dir.now asking.now.token.now number
        (search_seen asking.now.search.now) place }
    ensures one { IsJudgedOf asking.now.dir.now asking.now.token.now
        (search_seen asking.now.search.now) number one.new }
{
    if (place as usize) >= asking.dir.schema().attrs().len() {
        return false;
    }
    if !is_flagged(asked.flags.as_slice(), place) {
        return false;
    }
    is_readable_so(asking, number, AttrId(place), one)
}
