//! Laws of auditing, as contracts of functions that do nothing.

ghost use Rattle.std.specs.Prelude.{◌≡◌, ℕ, Bool, true, false, List, [], ◌∷◌, Option, Some, None};
ghost use Rattle.std.specs.List.{list_any};
ghost use Rattle.ad_ids.specs.SidValue.{SidValue};
ghost use Rattle.ad_ids.specs.declared.guid.Guid.{Guid as GuidValue};
ghost use Rattle.ad_ids.specs.declared.token.Token.{Token as TokenValue};
ghost use Rattle.ad_acl.specs.Entry.{Entry};
ghost use Rattle.ad_sd.specs.declared.parts.Sd.{Sd as SdValue};
ghost use Rattle.ad_audit.specs.Audited.{is_audit, audited};

/// Where the SACL has no audit entry of the object itself, no access to the object is audited, by whatever token, on
/// whatever path, granted or not.
pub fn a_list_that_asks_for_nothing_audits_nothing()
    ensures { (sd : SdValue) (token : TokenValue) (self : Option SidValue) (path : List GuidValue)
        (right : ℕ)
        (success : Bool) → list_any is_audit sd.sacl.entries ≡ false
        → audited sd token self path right success ≡ None }
{}
