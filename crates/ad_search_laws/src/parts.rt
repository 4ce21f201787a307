//! What is told of the parts of a descriptor that may be written is what is checked, as contracts of functions that do
//! nothing.

ghost use Rattle.std.specs.Prelude.{◌≡◌, ℕ, true, List};
ghost use Rattle.ad_ids.specs.declared.token.Token.{Token};
ghost use Rattle.ad_sd.specs.declared.parts.SdParts.{SdParts};
ghost use Rattle.ad_ldap.specs.declared.controls.Settings.{Settings};
ghost use Rattle.ad_ldap.specs.MessageValue.{ModifyOf};
ghost use Rattle.ad_dir_objects.specs.declared.act.Act.{Act};
ghost use Rattle.ad_dir_model.specs.Directory.{Directory};
ghost use Rattle.ad_needs_rules.specs.declared.outcome.Verdict.TheVariants.{Granted};
ghost use Rattle.ad_needs_rules.specs.Requests.{is_descriptor};
ghost use Rattle.ad_needs_rules.specs.Descriptors.{has_part};
ghost use Rattle.ad_needs_rules.specs.Modifying.{modify_act};
ghost use Rattle.ad_needs_rules.specs.Verdicts.{verdict_of};
ghost use Rattle.ad_search_laws.specs.Told.{replacement, IsSeenAs};
ghost use Rattle.ad_search_laws.specs.Parts.{IsNumberOfParts, ArePartsTold, AreAsked};

/// What is told of the parts is one decimal number: 3 for the owner and the group where their right is granted on the
/// object as a whole, 4 for the DACL and 8 for the SACL.
pub fn the_number_of_parts_has_the_bits_of_their_rights()
    ensures { (dir : Directory) (token : Token) (number : ℕ) → IsNumberOfParts dir token number }
{}

/// Where the bit of each part is told that a value encodes and that is asked for, and there is such a part: the request
/// that replaces the descriptor by the value is granted.
pub fn parts_that_are_told_to_be_writable_are_granted()
    ensures { (dir : Directory) (token : Token) (number : ℕ) (dn name value : List ℕ)
        (parts : SdParts) (settings : Settings)
        → IsSeenAs dir token number dn → is_descriptor name ≡ true
        → AreAsked settings.sd_flags value parts → has_part parts ≡ true
        → ArePartsTold dir token number parts
        → verdict_of dir token (ModifyOf (replacement dn name value)) settings
        ≡ Granted (modify_act dir token (replacement dn name value) settings.sd_flags) }
{}

/// And the other way: where such a request is granted, the bit of each part that the value encodes and that is asked
/// for is told.
pub fn parts_that_are_granted_are_told_to_be_writable()
    ensures { (dir : Directory) (token : Token) (number : ℕ) (dn name value : List ℕ)
        (parts : SdParts) (settings : Settings) (act : Act)
        → IsSeenAs dir token number dn → is_descriptor name ≡ true
        → AreAsked settings.sd_flags value parts
        → verdict_of dir token (ModifyOf (replacement dn name value)) settings ≡ Granted act
        → ArePartsTold dir token number parts }
{}
