//! Laws of sets. Each is the contract of a function that does nothing.

ghost use Rattle.std.specs.Prelude.{◌≡◌, ℕ, List, Option, Some, None, false, slice_get};
ghost use Rattle.std.specs.List.{list_any};
ghost use Rattle.ad_ids.specs.SidValue.{SidValue};
ghost use Rattle.ad_ids.specs.declared.guid.Guid.{Guid as GuidValue};
ghost use Rattle.ad_ids.specs.declared.token.Token.{Token as TokenValue};
ghost use Rattle.ad_sd.specs.declared.parts.Sd.{Sd as SdValue};
ghost use Rattle.ad_access.specs.Grant.{granted};
ghost use Rattle.ad_acl.specs.Entry.{Entry};
ghost use Rattle.ad_access.specs.Holder.{first_holder, holds};
ghost use Rattle.ad_rights.specs.Set.{granted_set, is_for_self, IsBare};

/// What stands in the set at the place of a token is what the access check answers of that token.
pub fn what_one_token_is_granted()
    ensures { (sd : SdValue) (tokens : List TokenValue) (self : Option SidValue) (path : List GuidValue)
        (bit place : ℕ) (token : TokenValue) → slice_get tokens place ≡ Some token → slice_get
        (granted_set sd tokens self path bit) place ≡ Some (granted sd.owner sd.dacl.entries token
        self path bit) }
{}

/// Where no entry is for the object itself, all objects with the descriptor have one set.
pub fn the_own_identifier_counts_where_an_entry_names_it()
    ensures { (sd : SdValue) (tokens : List TokenValue) (self other : Option SidValue)
        (path : List GuidValue) (bit : ℕ) → list_any is_for_self sd.dacl.entries ≡ false → granted_set
        sd tokens self path bit ≡ granted_set sd tokens other path bit }
{}

/// Whoever doesn't hold an object's own identifier is granted on it what would be granted if it had none.
pub fn the_own_identifier_counts_for_who_holds_it()
    ensures { (owner : SidValue) (dacl : List Entry) (token : TokenValue) (self : Option SidValue)
        (path : List GuidValue) (bit : ℕ) → IsBare token → ((sid : SidValue) → self ≡ Some sid
        → holds (first_holder token) sid ≡ false) → granted owner dacl token self path bit
        ≡ granted owner dacl token None path bit }
{
    ad_access::the_own_identifier_counts_by_who_answers_to_it();
}
