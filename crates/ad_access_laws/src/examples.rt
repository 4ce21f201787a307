//! Where less grants more, or a denial denies nothing: that the premises of the laws are needed.

ghost use Rattle.std.specs.Prelude.{◌≡◌, ◌∷◌, [], None, true, false};
ghost use Rattle.ad_acl.specs.declared.kind.AceKind.TheVariants as Kind;
ghost use Rattle.ad_acl.specs.Mask.{read_property, write_dac};
ghost use Rattle.ad_access.specs.WellKnown.{owner_rights};
ghost use Rattle.ad_access.specs.Grant.{granted};
ghost use Rattle.ad_access_laws.specs.Examples.{a_user, a_group, user_token, an_entry};

/// An allow entry for the owner's rights (S-1-3-4) is all that an owner has. Without it an owner may write the DACL.
pub fn an_entry_less_for_the_owner_may_grant_more()
    ensures with { granted a_user (an_entry Kind.Allow 0 owner_rights ∷ []) (user_token []) None []
        write_dac ≡ false }
    ensures without { granted a_user [] (user_token []) None [] write_dac ≡ true }
{}

/// A user who leaves a group that an entry denies by may then do what that denied.
pub fn a_group_less_may_grant_more()
    ensures with { granted a_group (an_entry Kind.Deny 0 a_group ∷ an_entry Kind.Allow 0 a_user ∷ [])
        (user_token (a_group ∷ [])) None [] read_property ≡ false }
    ensures without { granted a_group
        (an_entry Kind.Deny 0 a_group ∷ an_entry Kind.Allow 0 a_user ∷ [])
        (user_token []) None [] read_property ≡ true }
{}

/// A deny entry that is there to be inherited alone (flag 0x08) denies nothing here, before all others too.
pub fn a_deny_entry_to_be_inherited_alone_denies_nothing()
    ensures here { granted a_group (an_entry Kind.Deny 0 a_user ∷ an_entry Kind.Allow 0 a_user ∷ [])
        (user_token []) None [] read_property ≡ false }
    ensures below { granted a_group
        (an_entry Kind.Deny 8 a_user ∷ an_entry Kind.Allow 0 a_user ∷ [])
        (user_token []) None [] read_property ≡ true }
{}
