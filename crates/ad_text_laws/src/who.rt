//! The texts of who and can.

ghost use Rattle.std.specs.Prelude.{◌≡◌, ℕ, List, [], Some};
ghost use Rattle.std.specs.List.{AllByRecursion};
ghost use Rattle.ad_ids.specs.declared.token.Token.{Token};
ghost use Rattle.ad_dir_model.specs.Directory.{Directory};
ghost use Rattle.ad_identities.specs.declared.identity.Identity.{Identity as IdentityValue};
ghost use Rattle.ad_identities.specs.Identities.{IsIdentity};
ghost use Rattle.ad_needs_rules.specs.Needs.{Alternative};
ghost use Rattle.ad_questions.specs.declared.question.Question.{Question};
ghost use Rattle.ad_who.specs.Lines.{AreWhoLines};
ghost use Rattle.ad_text_laws.specs.Lines.{facts_of};
ghost use Rattle.ad_text_laws.specs.Facts.{Holder, IsHolder, holder_of, holders_text, Held, IsHeld, held_of, helds_text};
ghost use Rattle.ad_text_laws.specs.Printed.{HasForms, IsOfHolders, IsOfHeld};

/// The lines of who give back why, the identifier and the name of each who is told yes.
pub fn the_lines_of_who_read_back()
    ensures { (holders : List Holder) → AllByRecursion IsHolder holders → facts_of holder_of
        (holders_text holders)
        ≡ Some holders }
{}

/// The lines of can give back why and the name of each object about which somebody is told yes.
pub fn the_lines_of_can_read_back()
    ensures { (held : List Held) → AllByRecursion IsHeld held → facts_of held_of (helds_text held)
        ≡ Some held }
{}

/// What who prints is of such lines: of those identities who meet what is needed or have no token, in their order, each
/// with why, its identifier and its name.
pub fn what_who_prints_reads_back()
    ensures { (dir : Directory) (number : ℕ) (needed : List (List Alternative))
        (identities : List IdentityValue) (text : List ℕ)
        → HasForms dir → AllByRecursion (IsIdentity dir) identities
        → AreWhoLines dir number needed identities text
        → IsOfHolders dir number needed identities text }
{}

/// What can prints is of such lines: of those objects at and below the base about which a token without restricting
/// identifiers is told yes, each with why and its name.
pub fn what_can_prints_reads_back()
    ensures { (dir : Directory) (token : Token) (question : Question) (base : ℕ) → HasForms dir
        → token.restricting ≡ [] → IsOfHeld dir token question base }
{}
