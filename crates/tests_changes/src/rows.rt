//! The worked rows, as a function whose contract they are.

ghost use Rattle.std.specs.Prelude.{◌≡◌, codes, []};
ghost use Rattle.ad_change.specs.Effects.{answered};
ghost use Rattle.tests_changes.specs.Base.{admin, ann};
ghost use Rattle.tests_changes.specs.Deletions.{deletes};

/// Deletions that are refused, by their first check that fails.
pub fn deletions_are_answered_so()
    ensures no_name { deletes admin (codes "bob") ≡ answered 34 [] [] }
    ensures not_there { deletes admin (codes "CN=eve,OU=staff,DC=corp,DC=example")
        ≡ answered 32 (codes "OU=staff,DC=corp,DC=example") [] }
    ensures not_the_root { deletes admin (codes "DC=corp,DC=example") ≡ answered 53 [] [] }
    ensures not_without_a_need { deletes ann (codes "CN=bob,OU=staff,DC=corp,DC=example")
        ≡ answered 50 []
        (codes "missing SD - at CN=bob,OU=staff,DC=corp,DC=example or DC 13131313-1313-1313-1313-131313131313 at OU=staff,DC=corp,DC=example") }
    ensures not_with_children { deletes admin (codes "OU=staff,DC=corp,DC=example")
        ≡ answered 66 [] [] }
{}
