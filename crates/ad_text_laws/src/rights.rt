//! The text of rights.

ghost use Rattle.std.specs.Prelude.{◌≡◌, ◌<◌, ◌^◌, ℕ, List, Option, Some, length};
ghost use Rattle.std.specs.List.{AllByRecursion};
ghost use Rattle.ad_dir_model.specs.Directory.{Directory};
ghost use Rattle.ad_identities.specs.Identities.{IsIdentity};
ghost use Rattle.ad_rights_dir.specs.Rights.{IsRightsText};
ghost use Rattle.ad_text_laws.specs.Lines.{facts_of};
ghost use Rattle.ad_text_laws.specs.Printed.{HasForms};
ghost use Rattle.ad_text_laws.specs.Rights.{RightsLine, IsRightsLine, rights_line_of, rights_text};
ghost use Rattle.ad_text_laws.specs.RightsTold.{IsRightsRead};

/// The lines of rights give back who has no token, who stands in which set, and of each object its set and the sign.
pub fn the_lines_of_rights_read_back()
    ensures { (lines : List RightsLine) → AllByRecursion IsRightsLine lines → facts_of rights_line_of
        (rights_text lines)
        ≡ Some lines }
{}

/// What rights prints is of such lines, and reads back to the facts of the answer: those which say of each identity that
/// has a token on which objects the rule grants it (`ad_rights_dir`).
pub fn what_rights_prints_reads_back()
    ensures { (dir : Directory) (right : List ℕ) (base : Option (List ℕ)) (text : List ℕ)
        (told : IsRightsText dir right base text) → HasForms dir
        → AllByRecursion (IsIdentity dir) told.all → length dir.objects < 2 ^ 63
        → IsRightsRead dir right base text told }
{}
