//! The key of the name above, within the key of a name.

ghost use Rattle.std.specs.Prelude.{◌≡◌, ◌+◌, ◌<◌, false, drop, length};
ghost use Rattle.ad_dn.specs.NameKey.{rdns_key};
ghost use Rattle.ad_dn.specs.Value.{AreRdns};
ghost use Rattle.ad_load_objects.specs.Above.{is_end, is_mark, behind};

use crate::index::has_form;
use ad_dn::Dn;

// Whether the byte is the comma that ends a part in a key. One after a mark doesn't.
fn is_end(marked: bool, byte: u8) -> bool
    ensures { result ≡ is_end marked byte }
{
    !marked && byte == b','
}

// Whether the byte marks the one after it.
fn is_mark(marked: bool, byte: u8) -> bool
    ensures { result ≡ is_mark marked byte }
{
    !marked && byte == b'\\'
}

// What stands after a place.
fn after(key: &[u8], place: usize) -> &[u8]
    requires { place < length key.now }
    ensures { result.now ≡ drop (place + 1) key.now }
{
    &key[place + 1..]
}

// What stands in a key after the first part.
fn behind_first(key: &[u8]) -> &[u8]
    ensures { result.now ≡ behind false key.now }
{
    let mut marked = false;
    for (place, byte) in key.iter().enumerate() {
        if is_end(marked, *byte) {
            return after(key, place);
        }
        marked = is_mark(marked, *byte);
    }
    b""
}

/// The key of the name without its first part, within the key of the name: a key is the keys of the parts, one
/// after the other.
pub(crate) fn key_above<'a>(dn: &Dn, key: &'a [u8]) -> &'a [u8]
    requires { key.now ≡ rdns_key dn.now.rdns }
    ensures key { result.now ≡ rdns_key (drop 1 dn.now.rdns) }
    ensures form { AreRdns (drop 1 dn.now.rdns) }
{
    has_form(dn);
    behind_first(key)
}
