//! Laws of identities. Each is the contract of a function that does nothing.

ghost use Rattle.std.specs.Prelude.{◌≡◌, ℕ, true, List, Some, Ok};
ghost use Rattle.std.specs.List.{list_any};
ghost use Rattle.ad_ids.specs.declared.token.Token.{Token as TokenValue};
ghost use Rattle.ad_ids.specs.SidText.{sid_text};
ghost use Rattle.ad_dir_model.specs.Directory.{Directory};
ghost use Rattle.ad_principals.specs.Groups.{is_principal};
ghost use Rattle.ad_identities.specs.declared.identity.Identity.{Identity as IdentityValue};
ghost use Rattle.ad_identities.specs.Identities.{IsIdentity, AreIdentities, IsIdentityToken, HasTooManyIn, is_of};
ghost use Rattle.ad_identities.specs.Named.{identity_named};

use crate::identity::Identity;
use ad_dir::Dir;
use ad_ids::{an_identifier_is_spelled_by_its_text, what_a_sid_s_text_spells};

/// Each principal is an identity.
pub fn each_principal_is_an_identity()
    ensures { (dir : Directory) (all : List IdentityValue) (number : ℕ)
        → AreIdentities dir all → is_principal dir number ≡ true → list_any (is_of number) all ≡ true }
{}

/// An identity is named by the text of its identifier.
pub fn an_identity_is_named_by_its_text(dir: &Dir, identity: &Identity)
    requires { IsIdentity dir.now identity.now }
    ensures { identity_named dir.now (sid_text identity.now.sid) ≡ Ok (Some identity.now) }
{
    dir.invariants();
    identity.sid.has_its_ranges();
    an_identifier_is_spelled_by_its_text();
    what_a_sid_s_text_spells();
}

/// An identity has one token at most.
pub fn an_identity_has_one_token()
    ensures { (dir : Directory) (identity : IdentityValue) (a b : TokenValue)
        → IsIdentityToken dir identity a → IsIdentityToken dir identity b → a ≡ b }
{}

/// An identity with too many groups has no token.
pub fn an_identity_with_too_many_groups_has_no_token()
    ensures { (dir : Directory) (identity : IdentityValue) (token : TokenValue)
        → HasTooManyIn dir identity → IsIdentityToken dir identity token → ⊥ }
{}
