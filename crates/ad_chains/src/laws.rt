//! Laws of chains. Each is the contract of a function that does nothing.

ghost use Rattle.std.specs.Prelude.{◌≡◌, ◌≤◌, ◌<◌, ℕ, List, Option, Some, None, true, Bool, is_some, map};
ghost use Rattle.ad_chains.specs.declared.edge.Edge.{Edge as EdgeValue};
ghost use Rattle.ad_chains.specs.declared.link.Link.{Link as LinkValue};
ghost use Rattle.ad_chains.specs.Chain.{AreChainsTo, IsChain, IsClosedSet, length_of, link_at, turned, turned_back};
ghost use Rattle.ad_chains.specs.Sets.{AreSetsFrom, Passage, Passes, edges_of};

/// A length that is told is that of a chain.
pub fn a_length_is_of_a_chain()
    ensures { (edges : List EdgeValue) (end : ℕ) (links : List (Option LinkValue)) (x : ℕ) (link : LinkValue)
        → AreChainsTo edges end links → link_at links x ≡ Some link → (chain : List EdgeValue)
        × IsChain edges x chain end × (length_of chain ≡ link.length) }
{}

/// No chain is shorter than what is told.
pub fn a_length_is_least()
    ensures { (edges : List EdgeValue) (end : ℕ) (links : List (Option LinkValue)) (x : ℕ) (link : LinkValue)
        (chain : List EdgeValue) → AreChainsTo edges end links → link_at links x ≡ Some link
        → IsChain edges x chain end → link.length ≤ length_of chain }
{}

/// Who isn't told has no chain.
pub fn who_is_not_told_has_no_chain()
    ensures { (edges : List EdgeValue) (end : ℕ) (links : List (Option LinkValue)) (x : ℕ)
        (chain : List EdgeValue) → AreChainsTo edges end links → link_at links x ≡ None
        → ¬ IsChain edges x chain end }
{}

/// The nodes that are told have the end and, with the end of an edge, also where the edge begins.
pub fn the_nodes_that_are_told_are_a_closed_set()
    ensures { (edges : List EdgeValue) (end : ℕ) (links : List (Option LinkValue))
        → AreChainsTo edges end links → IsClosedSet edges end (λ x. is_some (link_at links x)) }
{}

/// Who is told is in each set that has the end and, with the end of an edge, where the edge begins.
pub fn who_is_told_is_in_each_closed_set()
    ensures { (edges : List EdgeValue) (end : ℕ) (links : List (Option LinkValue)) (set : ℕ → Bool) (x : ℕ)
        (link : LinkValue) → AreChainsTo edges end links → IsClosedSet edges end set
        → link_at links x ≡ Some link → set x ≡ true }
{}

/// A chain between nodes that are no sets goes from such a node to the next, directly or by one set, over the same
/// edges.
pub fn a_chain_passes_from_node_to_node()
    ensures { (edges : List EdgeValue) (first : ℕ) → AreSetsFrom first edges → (x y : ℕ) (chain : List EdgeValue)
        → y < first → IsChain edges x chain y → (passages : List Passage) × Passes edges first x passages y
        × (edges_of passages ≡ chain) }
{}

/// And each way from node to node is a chain.
pub fn a_way_from_node_to_node_is_a_chain()
    ensures { (edges : List EdgeValue) (first x y : ℕ) (passages : List Passage)
        → Passes edges first x passages y → IsChain edges x (edges_of passages) y }
{}

/// A chain of the edges turned round is one of the edges, backwards, and as long.
pub fn a_chain_of_edges_turned_round_leads_back()
    ensures back { (edges : List EdgeValue) (x y : ℕ) (chain : List EdgeValue)
        → IsChain (map turned edges) x chain y → IsChain edges y (turned_back chain) x }
    ensures forth { (edges : List EdgeValue) (x y : ℕ) (chain : List EdgeValue) → IsChain edges x chain y
        → IsChain (map turned edges) y (turned_back chain) x }
    ensures as_long { (chain : List EdgeValue) → length_of (turned_back chain) ≡ length_of chain }
{}
