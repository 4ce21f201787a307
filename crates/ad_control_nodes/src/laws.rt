//! What an edge is made of, as the contract of a function that does nothing.

ghost use Rattle.std.specs.Prelude.{◌≡◌, ℕ, true, List, Some, slice_get};
ghost use Rattle.ad_dir_model.specs.Directory.{Directory};
ghost use Rattle.ad_dir_model.specs.Objects.{is_live};
ghost use Rattle.ad_control_graph.specs.declared.kind.Kind.{Kind as KindValue};
ghost use Rattle.ad_control_graph.specs.declared.node.Node.{Node as NodeValue};
ghost use Rattle.ad_control_graph.specs.Kinds.{row};
ghost use Rattle.ad_control.specs.Edges.{is_of, IsEdge};
ghost use Rattle.ad_control_nodes.specs.declared.ground.Ground.{Ground as GroundValue};
ghost use Rattle.ad_control_nodes.specs.Ground.{IsGround};
ghost use Rattle.ad_control_nodes.specs.Parts.{IsPart};

/// An edge is a part: it leads by questions, by a descriptor that is a value, or from where a node stands. And each
/// part is an edge, at a live object to which the kind leads.
pub fn the_parts_are_all_edges()
    ensures parts { (dir : Directory) (nodes : List NodeValue) (kept : GroundValue)
        (kind : KindValue) (node : NodeValue) (number x : ℕ) → IsGround dir nodes kept
        → slice_get nodes x ≡ Some node → IsEdge dir kind node number → IsPart dir nodes
        kept.parties.tokens.all.items kept.at.items kind number x }
    ensures edges { (dir : Directory) (nodes : List NodeValue) (kept : GroundValue)
        (kind : KindValue) (node : NodeValue) (number x : ℕ) → IsGround dir nodes kept
        → slice_get nodes x ≡ Some node → is_live dir.objects number ≡ true
        → is_of dir (row kind).of number ≡ true → IsPart dir nodes kept.parties.tokens.all.items
        kept.at.items kind number x → IsEdge dir kind node number }
{}
