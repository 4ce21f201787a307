//! What is told is what the rule grants.

ghost use Rattle.std.specs.Prelude.{ℕ, List, Option};
ghost use Rattle.ad_dir_model.specs.Directory.{Directory};
ghost use Rattle.ad_dir_model.specs.Objects.{Rise};
ghost use Rattle.ad_rights_dir.specs.Rights.{IsRightsText};
ghost use Rattle.ad_rights_dir.specs.Granted.{IsAnswered};

/// The facts of an answer determine who is told yes on which objects: of each identity that has a token they say, on
/// each live object at and below the base, exactly what the rule says of its token, and on any other object no. Who has
/// no token is told apart.
pub fn what_is_told_is_what_the_rule_grants()
    ensures { (dir : Directory) (right : List ℕ) (base : Option (List ℕ)) (text : List ℕ)
        (told : IsRightsText dir right base text) → Rise dir.objects → IsAnswered dir right base text
        told }
{}
