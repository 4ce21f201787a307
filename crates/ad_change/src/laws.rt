//! Laws of changes. Each is the contract of a function that does nothing.

ghost use Rattle.std.specs.Prelude.{◌≡◌, ℕ, List, Some};
ghost use Rattle.std.specs.List.{AllByRecursion};
ghost use Rattle.ad_bytes.specs.Reading.{IsBytes};
ghost use Rattle.ad_ids.specs.SidValue.{SidValue};
ghost use Rattle.ad_ids.specs.Sid.{IsSid};
ghost use Rattle.ad_ids.specs.declared.token.Token.{Token};
ghost use Rattle.ad_ldap.specs.declared.controls.Settings.{Settings};
ghost use Rattle.ad_ldap.specs.declared.requests.Add.{Add};
ghost use Rattle.ad_ldap.specs.declared.requests.Modify.{Modify};
ghost use Rattle.ad_ldap.specs.declared.requests.Rename.{Rename};
ghost use Rattle.ad_ldap.specs.MessageValue.{ModifyOf, AddOf, DeleteOf, RenameOf};
ghost use Rattle.ad_dir_model.specs.Directory.{Directory};
ghost use Rattle.ad_dir_model.specs.Identity.{domain_sid};
ghost use Rattle.ad_dir_model.specs.Soundness.{IsSound};
ghost use Rattle.ad_change.specs.Effects.{changes_to, effect};

/// Where a Delete changes a sound directory, the new one is sound.
pub fn a_delete_keeps_a_directory_sound()
    ensures { (dir after : Directory) (token : Token) (dn : List ℕ) (s : Settings) → IsSound dir
        → effect dir token (DeleteOf dn) s ≡ changes_to after → IsSound after }
{}

/// The same of a rename and of a move.
pub fn a_rename_keeps_a_directory_sound()
    ensures { (dir after : Directory) (token : Token) (r : Rename) (s : Settings) → IsSound dir
        → effect dir token (RenameOf r) s ≡ changes_to after → IsSound after }
{}

/// The same of a Modify, of values and of the descriptor; its values are bytes.
pub fn a_modify_keeps_a_directory_sound()
    ensures { (dir after : Directory) (token : Token) (m : Modify) (s : Settings) → IsSound dir
        → AllByRecursion (λ item. AllByRecursion IsBytes item.values) m.items
        → effect dir token (ModifyOf m) s ≡ changes_to after → IsSound after }
{}

/// The same of an Add. Its values are bytes, and the domain's identifier, if it has one, has the form of one, as
/// that of each directory in memory has.
pub fn an_add_keeps_a_directory_sound()
    ensures { (dir after : Directory) (token : Token) (a : Add) (s : Settings) → IsSound dir
        → ((sid : SidValue) → domain_sid dir ≡ Some sid → IsSid sid)
        → AllByRecursion (λ attr. AllByRecursion IsBytes attr.1) a.attrs
        → effect dir token (AddOf a) s ≡ changes_to after → IsSound after }
{}
