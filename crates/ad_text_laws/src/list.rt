//! The text of list.

ghost use Rattle.std.specs.Prelude.{◌≡◌, List, Some};
ghost use Rattle.ad_sd.specs.declared.parts.Sd.{Sd};
ghost use Rattle.ad_schema.specs.declared.line.SchemaRecord.{SchemaRecord};
ghost use Rattle.ad_schema.specs.Sound.{MakeSchema};
ghost use Rattle.ad_dn.specs.declared.rdn.Dn.{Dn};
ghost use Rattle.ad_dn.specs.Text.{dn_text};
ghost use Rattle.ad_dsacls.specs.Listing.{lines_of};
ghost use Rattle.ad_text_laws.specs.Lines.{facts_of};
ghost use Rattle.ad_text_laws.specs.Listings.{IsListed, lines_at, list_line_of};

/// The lines of list give back the name, the owner, the group, which lists are protected, and the words of each entry.
pub fn the_lines_of_list_read_back()
    ensures { (schema : List SchemaRecord) (dn : Dn) (sd : Sd) → MakeSchema schema → IsListed dn sd
        → facts_of list_line_of (lines_of schema (dn_text dn) sd)
        ≡ Some (lines_at schema dn sd) }
{}
