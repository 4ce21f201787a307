//! Laws of the access check. Each is the contract of a function that does nothing.

ghost use Rattle.std.specs.Prelude.{◌≡◌, ◌<◌, ℕ, List, Option, true, false, length};
ghost use Rattle.std.specs.List.{list_all};
ghost use Rattle.ad_ids.specs.SidValue.{SidValue};
ghost use Rattle.ad_ids.specs.declared.guid.Guid.{Guid as GuidValue};
ghost use Rattle.ad_ids.specs.declared.token.Token.{Token as TokenValue};
ghost use Rattle.ad_acl.specs.Entry.{Entry};
ghost use Rattle.ad_sd.specs.declared.parts.Sd.{Sd as SdValue};
ghost use Rattle.ad_types.specs.declared.type_tree.Node.{Node as NodeValue};
ghost use Rattle.ad_types.specs.Tree.{is_tree, is_leaf, children, path_at};
ghost use Rattle.ad_access.specs.Grant.{granted};
ghost use Rattle.ad_access.specs.Tree.{node_granted};
ghost use Rattle.ad_access.specs.Alike.{AnswerAlike};

/// The object's own identifier counts only by whether the token's principals answer to it: where they answer alike
/// to two of them, or to one and to none, they are granted the same. So what a descriptor grants to a token can be
/// kept by the descriptor and these answers.
pub fn the_own_identifier_counts_by_who_answers_to_it()
    ensures { (owner : SidValue) (dacl : List Entry) (token : TokenValue)
        (self other : Option SidValue)
        (path : List GuidValue) (bit : ℕ) → AnswerAlike token self other
        → granted owner dacl token self path bit ≡ granted owner dacl token other path bit }
{}

/// A leaf of a type tree is granted where its path is.
pub fn a_leaf_is_granted_where_its_path_is()
    ensures { (sd : SdValue) (token : TokenValue) (self : Option SidValue) (nodes : List NodeValue)
        (place bit : ℕ)
        → place < length nodes → is_leaf nodes place ≡ true
        → node_granted sd token self nodes place bit ≡ granted sd.owner sd.dacl.entries token self
        (path_at nodes place) bit }
{}

/// An inner node of a type tree is granted where all its children are.
pub fn an_inner_node_is_granted_where_its_children_are()
    ensures { (sd : SdValue) (token : TokenValue) (self : Option SidValue) (nodes : List NodeValue)
        (place bit : ℕ)
        → is_tree nodes ≡ true → place < length nodes → is_leaf nodes place ≡ false
        → node_granted sd token self nodes place bit ≡ list_all
        (λ child. node_granted sd token self nodes child bit) (children nodes place) }
{}
