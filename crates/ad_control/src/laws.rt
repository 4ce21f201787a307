//! Laws of who comes to control what. Each is the contract of a function that does nothing.

ghost use Rattle.std.specs.Prelude.{◌≡◌, ℕ, List, Option, Some, slice_get};
ghost use Rattle.ad_dir_model.specs.Directory.{Directory};
ghost use Rattle.ad_chains.specs.declared.ways.Way.{Way as WayValue};
ghost use Rattle.ad_control_graph.specs.declared.kind.Kind.{Kind as KindValue};
ghost use Rattle.ad_control_graph.specs.declared.node.Node.{Node as NodeValue};
ghost use Rattle.ad_control_graph.specs.Drawing.{IsSteady};
ghost use Rattle.ad_control.specs.Graph.{IsWhole};
ghost use Rattle.ad_control.specs.Chains.{Step, IsChain, length_of, AreControlling, AreReached, IsToldOf};

use ad_control_graph::Graph;

/// In a graph that was drawn, all members of sets are there and all that arcs name, and the numbers of both fit.
pub fn a_graph_that_is_drawn_is_whole(graph: &Graph)
    requires { IsSteady graph.now }
    ensures { IsWhole graph.now }
{}

/// Who is told has a chain to the end, as long as is told.
pub fn who_comes_to_control_has_a_chain()
    ensures { (dir : Directory) (nodes : List NodeValue) (kinds : List KindValue) (end : ℕ)
        (ways : List (Option WayValue)) (node last : NodeValue) (way : WayValue)
        → AreControlling dir nodes kinds end ways → slice_get nodes end ≡ Some last
        → IsToldOf nodes ways node way → (steps : List Step) × IsChain dir node steps last
        × (length_of steps ≡ way.length) }
{}

/// To whom is told a chain leads from the start, as long as is told.
pub fn who_is_reached_has_a_chain()
    ensures { (dir : Directory) (nodes : List NodeValue) (kinds : List KindValue) (start : ℕ)
        (ways : List (Option WayValue)) (first node : NodeValue) (way : WayValue)
        → AreReached dir nodes kinds start ways → slice_get nodes start ≡ Some first
        → IsToldOf nodes ways node way → (steps : List Step) × IsChain dir first steps node
        × (length_of steps ≡ way.length) }
{}

/// Who isn't told has no chain, to the end or from the start.
pub fn who_is_not_told_has_no_chain()
    ensures to { (dir : Directory) (nodes : List NodeValue) (kinds : List KindValue) (end : ℕ)
        (ways : List (Option WayValue)) (node last : NodeValue) (steps : List Step)
        → AreControlling dir nodes kinds end ways → slice_get nodes end ≡ Some last
        → ((way : WayValue) → ¬ IsToldOf nodes ways node way) → ¬ IsChain dir node steps last }
    ensures from { (dir : Directory) (nodes : List NodeValue) (kinds : List KindValue) (start : ℕ)
        (ways : List (Option WayValue)) (first node : NodeValue) (steps : List Step)
        → AreReached dir nodes kinds start ways → slice_get nodes start ≡ Some first
        → ((way : WayValue) → ¬ IsToldOf nodes ways node way) → ¬ IsChain dir first steps node }
{}
