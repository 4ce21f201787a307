//! What is told of the classes of which objects may be created is what is checked, as contracts of functions that do
//! nothing.

ghost use Rattle.std.specs.Prelude.{◌≡◌, ◌↔◌, ℕ, None, List};
ghost use Rattle.std.specs.List.{Contains};
ghost use Rattle.ad_ids.specs.declared.token.Token.{Token};
ghost use Rattle.ad_ldap.specs.declared.controls.Settings.{Settings};
ghost use Rattle.ad_ldap.specs.declared.requests.Add.{Add};
ghost use Rattle.ad_ldap.specs.MessageValue.{AddOf};
ghost use Rattle.ad_dir_model.specs.Directory.{Directory};
ghost use Rattle.ad_needs_rules.specs.Checks.{first_failing};
ghost use Rattle.ad_constructed_dir.specs.Changing.{changing_of};
ghost use Rattle.ad_change.specs.Effects.{effect, changes_to};
ghost use Rattle.ad_search_laws.specs.Children.{IsChildTold, IsChildNameTold, IsAddOf, class_own, by_others};
ghost use Rattle.ad_search_laws.specs.Children.{IsOfToldClass};

/// The names that are told are those of the classes that are told.
pub fn the_classes_that_are_told_have_the_names_that_are_listed()
    ensures { (dir : Directory) (token : Token) (number : ℕ) (name : List ℕ)
        → Contains (changing_of dir token number).children name
        ↔ IsChildNameTold dir token number name }
{}

/// A class is told exactly where each check of an addition that asks for the class would hold: it is neither abstract
/// nor auxiliary, it describes no schema, the right to create objects of it is granted on the parent, and it is lawful
/// below the parent's class.
pub fn a_class_is_told_exactly_where_the_checks_of_a_class_hold()
    ensures { (dir : Directory) (token : Token) (number class : ℕ)
        → IsChildTold dir token number class
        ↔ (first_failing (class_own dir token number class) ≡ None) }
{}

/// An addition of a class that is told at the parent is answered by its other checks alone, whatever it is of: where it
/// is refused, it isn't for its class.
pub fn an_addition_of_a_class_that_is_told_is_not_refused_for_its_class()
    ensures { (dir : Directory) (token : Token) (number class : ℕ) (a : Add) (settings : Settings)
        → IsAddOf dir token number class a → IsChildTold dir token number class
        → effect dir token (AddOf a) settings ≡ by_others dir token a settings }
{}

/// And the other way: each addition that is done is of a class that is told at the parent.
pub fn an_addition_that_is_done_is_of_a_class_that_is_told()
    ensures { (dir : Directory) (token : Token) (a : Add) (settings : Settings) (after : Directory)
        → effect dir token (AddOf a) settings ≡ changes_to after → IsOfToldClass dir token a }
{}
