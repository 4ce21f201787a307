//! Laws of tokens. Each is the contract of a function that does nothing.

ghost use Rattle.std.specs.Prelude.{◌≡◌, ℕ, true, List};
ghost use Rattle.ad_ids.specs.declared.token.Token.{Token};
ghost use Rattle.ad_ids.specs.SidValue.{SidValue, contains_sid};
ghost use Rattle.ad_dir_model.specs.Directory.{Directory};
ghost use Rattle.ad_principals.specs.Tokens.{IsTokenOf, HasTooManyGroups};
ghost use Rattle.ad_principals.specs.Alike.{HasTheMembersOf, AreTheSame};

/// A principal has one token at most.
pub fn a_principal_has_one_token()
    ensures { (dir : Directory) (number : ℕ) (extra : List SidValue) (a b : Token)
        → IsTokenOf dir number extra a → IsTokenOf dir number extra b → a ≡ b }
{}

/// Where a directory has more members and is otherwise the same, a principal has each group that it had.
pub fn more_members_give_no_fewer_groups()
    ensures { (dir more : Directory) (number : ℕ) (extra : List SidValue) (a b : Token)
        (sid : SidValue)
        → HasTheMembersOf dir more → IsTokenOf dir number extra a → IsTokenOf more number extra b
        → contains_sid a.groups sid ≡ true → contains_sid b.groups sid ≡ true }
{}

/// The order of objects, of the members of a group and of the identifiers that are given doesn't matter, nor how
/// often one of them is named.
pub fn the_order_of_members_and_identifiers_is_free()
    ensures { (dir other : Directory) (number : ℕ) (extra others : List SidValue) (a b : Token)
        → HasTheMembersOf dir other → HasTheMembersOf other dir → AreTheSame extra others
        → IsTokenOf dir number extra a → IsTokenOf other number others b → a ≡ b }
{}

/// Who has too many groups has no token.
pub fn who_has_too_many_groups_has_no_token()
    ensures { (dir : Directory) (number : ℕ) (extra : List SidValue) (token : Token)
        → HasTooManyGroups dir number extra → IsTokenOf dir number extra token → ⊥ }
{}
