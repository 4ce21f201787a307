//! One group more or less in a token.

ghost use Rattle.std.specs.Prelude.{◌≡◌, ◌++◌, ◌∷◌, ℕ, List, Option, true, false};
ghost use Rattle.ad_ids.specs.SidValue.{SidValue};
ghost use Rattle.ad_ids.specs.declared.guid.Guid.{Guid as GuidValue};
ghost use Rattle.ad_ids.specs.declared.token.Token.{Token as TokenValue};
ghost use Rattle.ad_acl.specs.Entry.{Entry};
ghost use Rattle.ad_access.specs.Grant.{granted};
ghost use Rattle.ad_access_laws.specs.Fewer.{grouped, some_denies};

/// Without a group nothing is granted on a path that isn't granted with it, where no deny entry that speaks of the
/// path is for the group.
pub fn a_group_less_that_no_entry_denies_by_grants_no_more()
    ensures { (owner : SidValue) (dacl : List Entry) (token : TokenValue)
        (front behind : List SidValue) (group : SidValue)
        (self : Option SidValue) (path : List GuidValue) (bit : ℕ)
        → some_denies dacl self owner path group ≡ false
        → granted owner dacl (grouped token (front ++ behind) token.deny_only) self path bit ≡ true
        → granted owner dacl (grouped token (front ++ group ∷ behind) token.deny_only) self path bit
        ≡ true }
{}

/// Where a group only denies from then on nothing is granted that wasn't granted when it allowed too, whatever the
/// entries are.
pub fn a_group_that_only_denies_grants_no_more()
    ensures { (owner : SidValue) (dacl : List Entry) (token : TokenValue)
        (front behind : List SidValue) (group : SidValue)
        (self : Option SidValue) (path : List GuidValue) (bit : ℕ)
        → granted owner dacl (grouped token (front ++ behind) (group ∷ token.deny_only)) self path bit
        ≡ true
        → granted owner dacl (grouped token (front ++ group ∷ behind) token.deny_only) self path bit
        ≡ true }
{}
