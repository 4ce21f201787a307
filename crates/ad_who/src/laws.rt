//! Laws of what decides and of what is told, as contracts of functions that do nothing.

ghost use Rattle.std.specs.Prelude.{◌≡◌, ℕ, List, [], Option, Some, None, is_some, if◌then◌else◌, true, false};
ghost use Rattle.ad_ids.specs.SidValue.{SidValue};
ghost use Rattle.ad_ids.specs.declared.guid.Guid.{Guid as GuidValue};
ghost use Rattle.ad_ids.specs.declared.token.Token.{Token as TokenValue};
ghost use Rattle.ad_acl.specs.Entry.{Entry};
ghost use Rattle.ad_access.specs.Grant.{granted};
ghost use Rattle.ad_dir_model.specs.Directory.{Directory};
ghost use Rattle.ad_access_dir.specs.Sight.{is_granted};
ghost use Rattle.ad_questions.specs.declared.asked.Asked.{Asked};
ghost use Rattle.ad_questions.specs.declared.question.Question.{Question};
ghost use Rattle.ad_questions.specs.declared.question.Question.TheVariants as question;
ghost use Rattle.ad_questions.specs.Asked.{path_at};
ghost use Rattle.ad_questions.specs.Requirements.{requirements, is_allowed};
ghost use Rattle.ad_who.specs.Answers.{TokenTold, WhoTold, CanTold};
ghost use Rattle.ad_who.specs.Decider.{decider, decider_at, grants};
ghost use Rattle.ad_who.specs.declared.reason.Reason.TheVariants as reason;
ghost use Rattle.ad_who.specs.Reason.{told};

/// To a token without restricting identifiers a right is granted exactly where what decides it grants: a privilege,
/// that it holds the owner, or an entry that allows.
pub fn a_right_is_granted_where_what_decides_it_grants()
    ensures { (owner : SidValue) (dacl : List Entry) (token : TokenValue) (self : Option SidValue)
        (path : List GuidValue) (bit : ℕ) → token.restricting ≡ []
        → granted owner dacl token self path bit ≡ grants (decider owner dacl token self path bit) }
{}

/// A line stands exactly where the token is told yes to the question.
pub fn a_line_stands_where_the_token_is_told_yes()
    ensures { (dir : Directory) (token : TokenValue) (question : Question) (number : ℕ)
        → is_some (told dir token number (requirements dir question number))
        ≡ is_allowed dir token question number }
{}

/// A plain right is told by what decides it, on the object itself.
pub fn a_right_is_told_by_what_decides_it()
    ensures { (dir : Directory) (token : TokenValue) (asked : Asked) (number : ℕ)
        → told dir token number (requirements dir (question.Right asked) number)
        ≡ (if is_granted dir token number (path_at dir number asked.on) asked.bit
        then Some (reason.Own (decider_at dir token number (path_at dir number asked.on) asked.bit))
        else None) }
{}

/// No question is both answered and refused: where there is an answer, no line says that there is none.
pub fn no_question_is_both_answered_and_refused()
    ensures token { (dir : Directory) (name : List ℕ) (sids : List (List ℕ)) (answer line : List ℕ)
        → TokenTold dir name sids true answer → TokenTold dir name sids false line → ⊥ }
    ensures who { (dir : Directory) (right name answer line : List ℕ)
        → WhoTold dir right name true answer → WhoTold dir right name false line → ⊥ }
    ensures can { (dir : Directory) (name right : List ℕ) (base : Option (List ℕ)) (answer line : List ℕ)
        → CanTold dir name right base true answer → CanTold dir name right base false line → ⊥ }
{}
