//! Two worlds: a token that sees the same of two directories gets the same answers; and which objects names
//! represent. Each law is the contract of a function that does nothing.

ghost use Rattle.std.specs.Prelude.{◌≡◌, ℕ, List, Some, true};
ghost use Rattle.ad_ids.specs.declared.token.Token.{Token};
ghost use Rattle.ad_ldap.specs.Choices.{whole_subtree};
ghost use Rattle.ad_ldap.specs.MessageValue.{SearchValue};
ghost use Rattle.ad_ldap.specs.declared.requests.Compare.{Compare};
ghost use Rattle.ad_dn.specs.declared.rdn.Rdn.{Rdn};
ghost use Rattle.ad_dn.specs.declared.rdn.Dn.{Dn as Base};
ghost use Rattle.ad_dn.specs.Reading.{dn_of};
ghost use Rattle.ad_dir.specs.Standing.{AreStanding};
ghost use Rattle.ad_dir_model.specs.Objects.{is_live};
ghost use Rattle.ad_dir_model.specs.Names.{rdns_of, found};
ghost use Rattle.ad_dir_model.specs.Directory.{Directory};
ghost use Rattle.ad_dir_model.specs.Changes.{goes_with};
ghost use Rattle.ad_entries.specs.Seen.{view};
ghost use Rattle.ad_search.specs.Scope.{same_rdns, in_scope, is_there};
ghost use Rattle.ad_search.specs.Reads.{HasEntries, numbers_given};
ghost use Rattle.ad_search.specs.Search.{search_answer};
ghost use Rattle.ad_search.specs.Compare.{compare_answer};

/// Two directories of one schema of which a token sees the same: each search of the token has one answer in both. So
/// nothing of an object that it doesn't see, of an attribute or a part of a descriptor that it may not read, and no
/// number of an object, has a part in an answer.
pub fn what_a_token_sees_decides_a_search()
    ensures { (dir other : Directory) (token : Token) (id : ℕ) (search : SearchValue) (flags : ℕ)
        → other.schema ≡ dir.schema → view other token ≡ view dir token
        → search_answer other token id search flags ≡ search_answer dir token id search flags }
{}

/// The same of each compare.
pub fn what_a_token_sees_decides_a_compare()
    ensures { (dir other : Directory) (token : Token) (id : ℕ) (request : Compare)
        → other.schema ≡ dir.schema → view other token ≡ view dir token
        → compare_answer other token id request ≡ compare_answer dir token id request }
{}

/// Of a directory that may be kept, whatever has a name is what is found by it from the root down. So an object is
/// the only one of its name, and the base of a search is the object that its name finds.
pub fn whatever_has_a_name_is_found_by_it()
    ensures { (dir : Directory) (number : ℕ) (rdns : List Rdn) → AreStanding dir.schema dir.objects
        → is_live dir.objects number ≡ true
        → same_rdns (rdns_of dir number) rdns ≡ true → found dir rdns ≡ Some number }
{}

/// Of a directory that may be kept, and a base that is the name of a live object: a live object is in the scope of a
/// search of the subtree exactly where it is that object or stands below it.
pub fn a_subtree_is_what_is_in_its_scope()
    ensures { (dir : Directory) (number other : ℕ) (base : List Rdn)
        → AreStanding dir.schema dir.objects → is_live dir.objects number ≡ true
        → same_rdns (rdns_of dir number) base ≡ true → is_live dir.objects other ≡ true
        → in_scope whole_subtree base (rdns_of dir other) ≡ goes_with dir number other }
{}

/// The objects of which a search tried to read something are those whose entries its answer has, in their order.
pub fn what_is_tried_is_of_the_entries_of_the_answer()
    ensures { (dir : Directory) (token : Token) (id : ℕ) (search : SearchValue) (flags : ℕ)
        (base : Base)
        → dn_of search.base ≡ Some base → is_there (view dir token) base.rdns ≡ true
        → HasEntries dir token id search flags (numbers_given dir token id search flags base)
        (search_answer dir token id search flags) }
{}
