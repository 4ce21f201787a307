//! What is told is what is checked, as contracts of functions that do nothing.

ghost use Rattle.std.specs.Prelude.{◌≡◌, ◌↔◌, ℕ, true, List};
ghost use Rattle.std.specs.List.{Contains};
ghost use Rattle.ad_ids.specs.declared.token.Token.{Token};
ghost use Rattle.ad_schema.specs.declared.info.AttrInfo.{AttrInfo};
ghost use Rattle.ad_schema.specs.Classes.{is_allowed};
ghost use Rattle.ad_ldap.specs.declared.controls.Settings.{Settings};
ghost use Rattle.ad_ldap.specs.MessageValue.{ModifyOf};
ghost use Rattle.ad_dir_objects.specs.declared.act.Act.{Act};
ghost use Rattle.ad_dir_model.specs.Objects.{object_at};
ghost use Rattle.ad_dir_model.specs.Directory.{Directory};
ghost use Rattle.ad_needs_rules.specs.declared.outcome.Verdict.TheVariants.{Granted};
ghost use Rattle.ad_needs_rules.specs.Verdicts.{verdict_of};
ghost use Rattle.ad_constructed_dir.specs.Changing.{may_write, changing_of};
ghost use Rattle.ad_search_laws.specs.Told.{replacement, IsSeenAs, IsOrdinary, IsTold, IsNameTold, IsGrantedAny};

/// The names that are told are those of the attributes that are told to be writable.
pub fn the_attributes_that_are_told_have_the_names_that_are_listed()
    ensures { (dir : Directory) (token : Token) (number : ℕ) (name : List ℕ)
        → Contains (changing_of dir token number).attributes name
        ↔ IsNameTold dir token number name }
{}

/// An attribute that is told to be writable: the request that replaces it by a value, whichever, is granted.
pub fn what_is_told_to_be_writable_is_granted()
    ensures { (dir : Directory) (token : Token) (number place : ℕ) (dn : List ℕ) (info : AttrInfo)
        → IsSeenAs dir token number dn
        → IsOrdinary dir place info → IsTold dir token number place info → IsGrantedAny dir token dn
        info.name }
{}

/// And the other way: an attribute that the class may have, and of which such a request is granted by the right to
/// write it (not by a validated write, which asks for the value), is told to be writable.
pub fn what_is_granted_is_told_to_be_writable()
    ensures { (dir : Directory) (token : Token) (number place : ℕ) (dn value : List ℕ)
        (info : AttrInfo) (settings : Settings) (act : Act)
        → IsSeenAs dir token number dn → IsOrdinary dir place info
        → verdict_of dir token (ModifyOf (replacement dn info.name value)) settings ≡ Granted act
        → is_allowed dir.schema (object_at dir.objects number).class place ≡ true
        → may_write dir token number place ≡ true
        → IsTold dir token number place info }
{}
