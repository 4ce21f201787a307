//! Who hasn't bound.

ghost use Rattle.std.specs.Prelude.{◌≡◌, ℕ, []};
ghost use Rattle.ad_ids.specs.declared.token.Token.{Token};
ghost use Rattle.ad_dir_model.specs.Directory.{Directory};
ghost use Rattle.ad_principals.specs.Groups.{anonymous};
ghost use Rattle.ad_identities.specs.Identities.{lone, IsIdentityToken};
ghost use Rattle.ad_engine_store.specs.Tokens.{token_of};

/// The identity S-1-5-7, where it is no principal's, has the token of a connection without one, but for the version of
/// its bytes, which no right depends on.
pub fn who_has_not_bound_has_the_token_of_a_connection_without_one()
    ensures { (dir : Directory) (connection : ℕ) (token : Token)
        → IsIdentityToken dir (lone anonymous) token
        → record token { version = 1 } ≡ token_of [] connection }
{}
