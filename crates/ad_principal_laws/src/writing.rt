//! Who changes what tokens depend on.

ghost use Rattle.std.specs.Prelude.{◌≡◌, ◌++◌, ◌∷◌, ℕ, true, false, Some, List};
ghost use Rattle.std.specs.List.{list_any, AllByRecursion};
ghost use Rattle.ad_ids.specs.declared.token.Token.{Token};
ghost use Rattle.ad_ldap.specs.declared.controls.Settings.{Settings};
ghost use Rattle.ad_ldap.specs.declared.items.Item.{Item};
ghost use Rattle.ad_ldap.specs.declared.requests.Modify.{Modify};
ghost use Rattle.ad_ldap.specs.MessageValue.{ModifyOf};
ghost use Rattle.ad_dir_model.specs.Attributes.{attr_place};
ghost use Rattle.ad_dir_model.specs.Directory.{Directory};
ghost use Rattle.ad_access_dir.specs.Passwords.{is_password};
ghost use Rattle.ad_needs_rules.specs.Needs.{is_met};
ghost use Rattle.ad_needs_rules.specs.Requests.{number_named, is_descriptor};
ghost use Rattle.ad_needs_rules.specs.Modifying.{is_item_of, items_of, attr_needs};
ghost use Rattle.ad_change.specs.Effects.{changes_to, effect};

/// A Modify that changes the directory was granted the write of each attribute that it names: the right to write it, or
/// the validated write where its items are valid. The first item that names an attribute is looked at; a descriptor
/// and a password have rights of their own. So who isn't granted the write of objectSid, primaryGroupID, member,
/// groupType or sIDHistory changes no token by a Modify that names it.
pub fn what_a_modify_changes_it_may_write()
    ensures { (dir after : Directory) (token : Token) (m : Modify) (s : Settings)
        (before others : List Item) (item : Item) (attr : ℕ)
        → m.items ≡ before ++ item ∷ others
        → list_any (is_item_of item.attr) before ≡ false
        → is_descriptor item.attr ≡ false → is_password item.attr ≡ false
        → attr_place dir.schema item.attr ≡ Some attr
        → effect dir token (ModifyOf m) s ≡ changes_to after
        → AllByRecursion (λ requirement. is_met dir token requirement ≡ true)
        (attr_needs dir token (number_named dir token m.dn) attr (items_of m.items item.attr)) }
{}
