//! The object of a name, where a token sees it.

ghost use Rattle.std.specs.Prelude.{◌≡◌, ◌≤◌, ◌&&◌, if◌then◌else◌, true, Some, find, option_map, length, drop, IfOk};
ghost use Rattle.std.specs.Prelude.{IfSome};
ghost use Rattle.ad_dn.specs.Value.{AreRdns};
ghost use Rattle.ad_dn.specs.Text.{rdns_text};
ghost use Rattle.ad_dir_model.specs.Objects.{is_live};
ghost use Rattle.ad_dir_model.specs.Names.{found};
ghost use Rattle.ad_access_dir.specs.Sight.{is_visible};
ghost use Rattle.ad_entries.specs.Seen.{seen_of, view};
ghost use Rattle.ad_search.specs.Scope.{is_named, is_there, matched};

use crate::naming::same_rdns;
use ad_access_dir::is_visible;
use ad_dir::Dir;
use ad_dn::{Dn, Rdn};
use ad_ids::Token;
use std::alloc::{AllocError, Global};

// Whether a live object is seen and has the name.
#[tactic(auto, unfolding(ad_entries::specs::Seen::seen_of))]
fn is_seen_as(
    alloc: Global,
    dir: &Dir,
    token: &Token,
    number: u32,
    rdns: &[Rdn],
) -> Result<bool, AllocError>
    requires live { is_live dir.now.objects number ≡ true }
    requires rdns { AreRdns rdns.now }
    ensures { IfOk result (λ is. is
        ≡ (is_visible dir.now token.now number
        && is_named rdns.now (seen_of dir.now token.now number))) }
{
    let list_mode = dir.list_mode();
    if !is_visible(dir, token, list_mode, number) {
        return Ok(false);
    }
    let name = dir.dn(alloc, number)?;
    Ok(same_rdns(name.rdns.as_slice(), rdns))
}

/// The object that is seen and has the name. No other object is looked at but those above it.
pub(crate) fn seen_named(
    alloc: Global,
    dir: &Dir,
    token: &Token,
    dn: &Dn,
) -> Result<Option<u32>, AllocError>
    ensures found { IfOk result (λ found. option_map (seen_of dir.now token.now) found
        ≡ find (is_named dn.now.rdns) (view dir.now token.now)) }
    ensures live { IfOk result (λ found.
        IfSome found (λ number. is_live dir.now.objects number ≡ true)) }
{
    dir.invariants();
    let Some(number) = dir.find(alloc, dn)? else {
        return Ok(None);
    };
    if !dir.is_live(number) {
        return Ok(None);
    }
    if is_seen_as(alloc, dir, token, number, dn.rdns.as_slice())? {
        return Ok(Some(number));
    }
    Ok(None)
}

// Whether an object is seen that has the name, by the one that the name leads to.
fn is_there(
    alloc: Global,
    dir: &Dir,
    token: &Token,
    number: u32,
    rdns: &[Rdn],
) -> Result<bool, AllocError>
    requires found { found dir.now rdns.now ≡ Some number }
    requires rdns { AreRdns rdns.now }
    ensures { IfOk result (λ is. is ≡ is_there (view dir.now token.now) rdns.now) }
{
    dir.invariants();
    if !dir.is_live(number) {
        return Ok(false);
    }
    is_seen_as(alloc, dir, token, number, rdns)
}

fn nearer(seen: bool, levels: usize, nearest: usize) -> usize
    ensures { result ≡ (if seen then levels else nearest) }
{
    if seen { levels } else { nearest }
}

// How many levels above the name the nearest one stands of which an object is seen: all of its parts where there is
// none. The root's name is the first that is tried, and below a name that leads nowhere none is, so no more are than
// objects stand below one another.
fn levels_to_seen(alloc: Global, dir: &Dir, token: &Token, dn: &Dn) -> Result<usize, AllocError>
    ensures within { IfOk result (λ levels. levels ≤ length dn.now.rdns) }
    ensures nearest { IfOk result (λ levels. rdns_text (drop levels dn.now.rdns)
        ≡ matched (view dir.now token.now) dn.now.rdns) }
{
    dir.invariants();
    let parts = dn.rdns.len();
    let above_root = dir.meta().suffix.rdns.len();
    if parts <= above_root {
        return Ok(parts);
    }
    let mut nearest = parts;
    let mut levels = parts - above_root;
    'each: while levels > 1 {
        levels -= 1;
        let above = dn.ancestor(alloc, levels)?;
        let Some(number) = dir.find(alloc, &above)? else {
            return Ok(nearest);
        };
        let seen = is_there(alloc, dir, token, number, above.rdns.as_slice())?;
        nearest = nearer(seen, levels, nearest);
    }
    Ok(nearest)
}

/// The text of the nearest name above of which an object is seen.
pub(crate) fn matched(
    alloc: Global,
    dir: &Dir,
    token: &Token,
    dn: &Dn,
) -> Result<Vec<u8>, AllocError>
    ensures { IfOk result (λ text. text.items ≡ matched (view dir.now token.now) dn.now.rdns) }
{
    let levels = levels_to_seen(alloc, dir, token, dn)?;
    let above = dn.ancestor(alloc, levels)?;
    above.text(alloc)
}
