//! Laws of questions, as contracts of functions that do nothing: what they ask for is what is checked where the request
//! is made.

ghost use Rattle.std.specs.Prelude.{◌≡◌, ℕ, ◌&&◌, ◌||◌, ◌==◌, ◌++◌, not, true, false, codes, Some, List, [], ◌∷◌};
ghost use Rattle.std.specs.Prelude.{Option, slice_get};
ghost use Rattle.ad_ids.specs.declared.token.Token.{Token as TokenValue};
ghost use Rattle.ad_sd.specs.declared.parts.SdParts.{SdParts as SdPartsValue};
ghost use Rattle.ad_ldap.specs.declared.items.Item.{Item as ItemValue};
ghost use Rattle.ad_ldap.specs.declared.requests.Add.{Add as AddValue};
ghost use Rattle.ad_ldap.specs.declared.requests.Modify.{Modify as ModifyValue};
ghost use Rattle.ad_schema.specs.declared.line.SchemaRecord.{SchemaRecord};
ghost use Rattle.ad_schema.specs.declared.info.AttrId.{AttrId};
ghost use Rattle.ad_schema.specs.declared.info.ClassId.{ClassId};
ghost use Rattle.ad_schema.specs.declared.info.AttrInfo.{AttrInfo};
ghost use Rattle.ad_schema.specs.Attributes.{attrs_of, attr_named};
ghost use Rattle.ad_schema.specs.Classes.{class_named};
ghost use Rattle.ad_dir_model.specs.Directory.{Directory};
ghost use Rattle.ad_dir_model.specs.Tree.{root};
ghost use Rattle.ad_access_dir.specs.Sight.{is_visible};
ghost use Rattle.ad_needs_rules.specs.Checks.{first_failing};
ghost use Rattle.ad_needs_rules.specs.Requests.{is_descriptor};
ghost use Rattle.ad_needs_rules.specs.Adding.{brings_sacl, add_needs, add_checks};
ghost use Rattle.ad_needs_rules.specs.Deleting.{delete_needs, delete_checks};
ghost use Rattle.ad_needs_rules.specs.Modifying.{modify_needs, modify_checks};
ghost use Rattle.ad_entries.specs.Seen.{is_readable, parts_read};
ghost use Rattle.ad_entries.specs.Entry.{are_read};
ghost use Rattle.ad_questions.specs.declared.asked.Asked.{Asked};
ghost use Rattle.ad_questions.specs.declared.question.Question.{Question};
ghost use Rattle.ad_questions.specs.declared.question.Question.TheVariants as question;
ghost use Rattle.ad_questions.specs.Asked.{asked_of};
ghost use Rattle.ad_questions.specs.Question.{question_of};
ghost use Rattle.ad_questions.specs.Requests.{see_needs, is_right, is_for, request_needs, passes, is_secret};
ghost use Rattle.ad_questions.specs.Requirements.{are_met, is_allowed};
ghost use Rattle.ad_questions.specs.Asking.{IsOrdinary, IsReset, IsJoining, IsOfParts, IsNameOf, IsAddOf, IsModifyOf};
ghost use Rattle.ad_questions.specs.Asking.{is_wanting};

// ---- texts

/// Each word is read as its question, and so is a word with the name of an attribute or a class.
pub fn the_words_are_read()
    ensures words { (schema : List SchemaRecord)
        → (question_of schema (codes "see") ≡ Some question.See)
        × (question_of schema (codes "reset") ≡ Some question.Reset)
        × (question_of schema (codes "join") ≡ Some question.Join)
        × (question_of schema (codes "delete") ≡ Some question.Delete)
        × (question_of schema (codes "dacl") ≡ Some question.Dacl)
        × (question_of schema (codes "owner") ≡ Some question.Owner) }
    ensures descriptor { (schema : List SchemaRecord) (name : List ℕ) → is_descriptor name ≡ true
        → question_of schema (codes "read:" ++ name) ≡ Some question.ReadDescriptor }
    ensures read { (schema : List SchemaRecord) (name : List ℕ) (id : AttrId)
        → is_descriptor name ≡ false → attr_named schema name ≡ Some id
        → question_of schema (codes "read:" ++ name) ≡ Some (question.Read id) }
    ensures write { (schema : List SchemaRecord) (name : List ℕ) (id : AttrId)
        → attr_named schema name ≡ Some id
        → question_of schema (codes "write:" ++ name) ≡ Some (question.Write id) }
    ensures add { (schema : List SchemaRecord) (name : List ℕ) (id : ClassId)
        → class_named schema name ≡ Some id
        → question_of schema (codes "add:" ++ name) ≡ Some (question.Add id) }
{}

/// A text of a right asks for that right: no word stands in its way.
pub fn a_right_is_asked_for_by_its_text()
    ensures { (schema : List SchemaRecord) (text : List ℕ) (asked : Asked)
        → asked_of schema text ≡ Some asked → question_of schema text ≡ Some (question.Right asked) }
{}

// ---- what is told

/// A token sees an object exactly where it meets what is needed to see it.
pub fn an_object_is_seen_where_what_that_needs_is_met()
    ensures { (dir : Directory) (token : TokenValue) (number : ℕ)
        → is_visible dir token number ≡ are_met dir token (see_needs dir number) }
{}

/// A token is told yes, of all but a plain right, exactly where the request can be for the object, it sees the object,
/// and it meets what the request needs.
pub fn yes_is_told_where_the_object_is_seen_and_the_request_has_what_it_needs()
    ensures { (dir : Directory) (token : TokenValue) (question : Question) (number : ℕ)
        → is_right question ≡ false
        → is_allowed dir token question number ≡ (is_for dir question number
        && (is_visible dir token number && are_met dir token (request_needs dir question number))) }
{}

/// An attribute is told to be read exactly where its values are shown, and the descriptor where its owner, group and
/// DACL are, or its SACL.
pub fn reading_is_told_where_a_search_shows_it()
    ensures attribute { (dir : Directory) (token : TokenValue) (number : ℕ) (id : AttrId) (info : AttrInfo)
        → slice_get (attrs_of dir.schema) id.0 ≡ Some info
        → (is_for dir (question.Read id) number
        && are_met dir token (request_needs dir (question.Read id) number))
        ≡ is_readable dir token number id.0 info }
    ensures descriptor { (dir : Directory) (token : TokenValue) (number : ℕ)
        → are_met dir token (request_needs dir question.ReadDescriptor number)
        ≡ (are_read (parts_read dir token number) 7 || are_read (parts_read dir token number) 8) }
{}

/// What a question asks for beside the sight of the object is exactly what the request needs, as it is checked.
pub fn a_question_asks_for_what_the_request_needs()
    ensures write { (dir : Directory) (token : TokenValue) (number flags : ℕ) (item : ItemValue) (id : AttrId)
        → IsOrdinary dir token number id.0 item → passes dir.schema is_secret id.0 ≡ false
        → request_needs dir (question.Write id) number
        ≡ modify_needs dir token number flags (item ∷ []) }
    ensures write_password { (dir : Directory) (token : TokenValue) (number flags : ℕ) (item : ItemValue)
        (id : AttrId) → IsReset item → passes dir.schema is_secret id.0 ≡ true
        → request_needs dir (question.Write id) number
        ≡ modify_needs dir token number flags (item ∷ []) }
    ensures reset { (dir : Directory) (token : TokenValue) (number flags : ℕ) (item : ItemValue)
        → IsReset item → request_needs dir question.Reset number
        ≡ modify_needs dir token number flags (item ∷ []) }
    ensures join { (dir : Directory) (token : TokenValue) (number flags : ℕ) (item : ItemValue) (attr : ℕ)
        → IsJoining dir token number attr item → request_needs dir question.Join number
        ≡ modify_needs dir token number flags (item ∷ []) }
    ensures dacl { (dir : Directory) (token : TokenValue) (number flags : ℕ) (item : ItemValue)
        → IsOfParts flags item false true → request_needs dir question.Dacl number
        ≡ modify_needs dir token number flags (item ∷ []) }
    ensures owner { (dir : Directory) (token : TokenValue) (number flags : ℕ) (item : ItemValue)
        → IsOfParts flags item true false → request_needs dir question.Owner number
        ≡ modify_needs dir token number flags (item ∷ []) }
    ensures delete { (dir : Directory) (number : ℕ)
        → request_needs dir question.Delete number ≡ delete_needs dir number false }
    ensures add { (dir : Directory) (number : ℕ) (id : ClassId) (sd : Option SdPartsValue)
        → brings_sacl sd ≡ false
        → request_needs dir (question.Add id) number ≡ add_needs dir number id.0 sd }
{}

/// A token is told yes exactly where its request isn't refused for want of a right, by the checks that stand before the
/// change: where these are met that ask for no right.
pub fn yes_is_told_where_no_right_is_wanting()
    ensures delete { (dir : Directory) (token : TokenValue) (number : ℕ) (text : List ℕ)
        → IsNameOf dir number text → (number == root) ≡ false
        → is_wanting (first_failing (delete_checks dir token text false))
        ≡ not (is_allowed dir token question.Delete number) }
    ensures modify { (dir : Directory) (token : TokenValue) (question : Question) (number flags : ℕ)
        (m : ModifyValue) → is_right question ≡ false → is_for dir question number ≡ true
        → IsModifyOf dir token question number flags m
        → is_wanting (first_failing (modify_checks dir token m flags))
        ≡ not (is_allowed dir token question number) }
    ensures add { (dir : Directory) (token : TokenValue) (number flags : ℕ) (id : ClassId) (a : AddValue)
        → IsAddOf dir number id.0 flags a → is_for dir (question.Add id) number ≡ true
        → is_wanting (first_failing (add_checks dir token a flags))
        ≡ not (is_allowed dir token (question.Add id) number) }
{}
