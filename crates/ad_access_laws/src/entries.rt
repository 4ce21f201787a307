//! One entry more or less in a list.

ghost use Rattle.std.specs.Prelude.{◌≡◌, ◌++◌, ◌∷◌, ℕ, List, Option, true, false};
ghost use Rattle.ad_ids.specs.SidValue.{SidValue};
ghost use Rattle.ad_ids.specs.declared.guid.Guid.{Guid as GuidValue};
ghost use Rattle.ad_ids.specs.declared.token.Token.{Token as TokenValue};
ghost use Rattle.ad_acl.specs.Entry.{Entry};
ghost use Rattle.ad_access.specs.Matching.{is_inherit_only};
ghost use Rattle.ad_access.specs.Grant.{is_allow, sets_owner_rights, granted};

/// Wherever an entry is put that doesn't allow, one that denies or asks for an audit event, nothing is granted that
/// wasn't granted without it.
pub fn an_entry_more_that_denies_grants_no_more()
    ensures { (owner : SidValue) (front behind : List Entry) (entry : Entry) (token : TokenValue)
        (self : Option SidValue) (path : List GuidValue) (bit : ℕ)
        → is_allow entry.kind ≡ false
        → granted owner (front ++ entry ∷ behind) token self path bit ≡ true
        → granted owner (front ++ behind) token self path bit ≡ true }
{}

/// Wherever an allow entry is taken away, nothing is granted that wasn't granted with it, unless it set the owner's
/// rights.
pub fn an_entry_less_that_allows_grants_no_more()
    ensures { (owner : SidValue) (front behind : List Entry) (entry : Entry) (token : TokenValue)
        (self : Option SidValue) (path : List GuidValue) (bit : ℕ)
        → is_allow entry.kind ≡ true → sets_owner_rights entry ≡ false
        → granted owner (front ++ behind) token self path bit ≡ true
        → granted owner (front ++ entry ∷ behind) token self path bit ≡ true }
{}

/// An entry that says nothing of the object itself, wherever it stands, neither grants nor denies.
pub fn an_entry_to_be_inherited_alone_changes_nothing()
    ensures { (owner : SidValue) (front behind : List Entry) (entry : Entry) (token : TokenValue)
        (self : Option SidValue) (path : List GuidValue) (bit : ℕ)
        → is_inherit_only entry ≡ true
        → granted owner (front ++ entry ∷ behind) token self path bit
        ≡ granted owner (front ++ behind) token self path bit }
{}
