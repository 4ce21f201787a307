//! Which objects a search is about, by their names.

ghost use Rattle.std.specs.Prelude.{◌≡◌};
ghost use Rattle.ad_dn.specs.Value.{IsRdn, AreRdns};
ghost use Rattle.ad_dir_model.specs.Names.{same_rdn};
ghost use Rattle.ad_search.specs.Scope.{same_rdns, is_at_or_below, is_right_below, in_scope};

use ad_dn::Rdn;
use ad_ldap::{BASE_OBJECT, SINGLE_LEVEL};

fn same_part(a: &Rdn, b: &Rdn) -> bool
    requires a { IsRdn a.now }
    requires b { IsRdn b.now }
    ensures { result ≡ same_rdn a.now b.now }
{
    ad_dn::same_rdn(a, b)
}

/// Whether two names are the same.
pub(crate) fn same_rdns(a: &[Rdn], b: &[Rdn]) -> bool
    requires a { AreRdns a.now }
    requires b { AreRdns b.now }
    ensures { result ≡ same_rdns a.now b.now }
{
    if a.len() != b.len() {
        return false;
    }
    'each: for i in 0..a.len() {
        if !same_part(&a[i], &b[i]) {
            return false;
        }
    }
    true
}

fn is_right_below(base: &[Rdn], name: &[Rdn]) -> bool
    requires base { AreRdns base.now }
    requires name { AreRdns name.now }
    ensures { result ≡ is_right_below base.now name.now }
{
    match name.split_first() {
        Some((_, rdns)) => same_rdns(rdns, base),
        None => false,
    }
}

fn is_at_or_below(base: &[Rdn], name: &[Rdn]) -> bool
    requires base { AreRdns base.now }
    requires name { AreRdns name.now }
    ensures { result ≡ is_at_or_below base.now name.now }
{
    if name.len() < base.len() {
        return false;
    }
    same_rdns(&name[name.len() - base.len()..], base)
}

/// Whether the object of a name is in the scope of a search.
#[tactic(auto, unfolding(crate::specs::Scope::in_scope))]
pub(crate) fn in_scope(scope: u8, base: &[Rdn], name: &[Rdn]) -> bool
    requires base { AreRdns base.now }
    requires name { AreRdns name.now }
    ensures { result ≡ in_scope scope base.now name.now }
{
    if scope == BASE_OBJECT {
        return same_rdns(name, base);
    }
    if scope == SINGLE_LEVEL {
        return is_right_below(base, name);
    }
    is_at_or_below(base, name)
}
