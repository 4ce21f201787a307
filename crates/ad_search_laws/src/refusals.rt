//! What a refusal tells, as contracts of functions that do nothing.

ghost use Rattle.std.specs.Prelude.{◌≡◌, List};
ghost use Rattle.ad_ids.specs.declared.token.Token.{Token};
ghost use Rattle.ad_dn.specs.declared.rdn.Rdn.{Rdn};
ghost use Rattle.ad_dn.specs.Text.{rdns_text};
ghost use Rattle.ad_ldap.specs.declared.controls.Settings.{Settings};
ghost use Rattle.ad_ldap.specs.MessageValue.{OpValue};
ghost use Rattle.ad_dir_model.specs.Soundness.{IsSound};
ghost use Rattle.ad_dir_model.specs.Directory.{Directory};
ghost use Rattle.ad_access_dir.specs.Sight.{matched as matched_in};
ghost use Rattle.ad_change.specs.Effects.{effect};
ghost use Rattle.ad_entries.specs.Seen.{view};
ghost use Rattle.ad_search.specs.Scope.{matched};
ghost use Rattle.ad_search_laws.specs.Refusals.{IsAboutUnseen};

/// The name that is told in place of one that no object has that is seen: a change reads it down the tree, and a
/// search among what is seen. Both say the same.
pub fn a_matched_name_has_one_reading()
    ensures { (dir : Directory) (token : Token) (rdns : List Rdn) → IsSound dir
        → rdns_text (matched_in dir token rdns) ≡ matched (view dir token) rdns }
{}

/// A request to change what isn't seen gets the same answer in every sound directory of one schema of which the token
/// sees the same, and changes none. So it tells nothing that a search doesn't.
pub fn a_change_of_what_is_not_seen_tells_what_a_search_tells()
    ensures { (dir other : Directory) (token : Token) (op : OpValue) (settings : Settings)
        → IsSound dir → IsSound other
        → other.schema ≡ dir.schema → view other token ≡ view dir token → IsAboutUnseen dir token op
        → effect other token op settings ≡ effect dir token op settings }
{}
