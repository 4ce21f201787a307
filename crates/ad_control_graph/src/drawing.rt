//! Drawing: sets of nodes, and arcs from them.

ghost use Rattle.std.specs.Prelude.{◌≡◌, ◌<◌, ℕ, if◌then◌else◌, List, [], ◌∷◌, length, slice_get, OnOk, IfOk};
ghost use Rattle.ad_chains.specs.Ways.{IsMember, members_at};
ghost use Rattle.ad_control_graph.specs.declared.node.Node.{Node as NodeValue};
ghost use Rattle.ad_control_graph.specs.Drawing.{IsPassIn, IsSteady, IsOver, Adds, KeepsSets, Readies, IsSetOf};
ghost use Rattle.ad_control_graph.specs.Drawing.{IsIn, AreBelow, IsBy};

use crate::graph::Graph;
use crate::kind::Kind;
use crate::node::Node;
use ad_chains::Arc;
use std::alloc::{AllocError, Global};

// A list of one.
fn lone(alloc: Global, x: usize) -> Result<Vec<usize>, AllocError>
    ensures { IfOk result (λ list. list.items ≡ x ∷ []) }
{
    let mut list = Vec::with_capacity(alloc, 1)?;
    list.push(x)?;
    Ok(list)
}

// The set of each single node.
fn lone_sets(alloc: Global, count: usize) -> Result<Vec<Vec<usize>>, AllocError>
    ensures long { IfOk result (λ sets. length sets.items ≡ count) }
    ensures lone { IfOk result (λ sets. (x : ℕ) → x < count → members_at sets.items x ≡ x ∷ []) }
{
    let mut sets = Vec::with_capacity(alloc, count)?;
    for x in 0..count {
        sets.push(lone(alloc, x)?)?;
    }
    Ok(sets)
}

// The node of a place, where its flag is set.
fn chosen_at(at: &[usize], place: usize, there: bool) -> Option<usize>
    ensures { result ≡ (if there then slice_get at.now place else None) }
{
    if there { at.get(place).copied() } else { None }
}

// The nodes of those places whose flag is set.
fn chosen(alloc: Global, at: &[usize], set: &[bool]) -> Result<Vec<usize>, AllocError>
    ensures only { IfOk result (λ found. (x : ℕ) → IsIn found.items x → IsBy set.now at.now (λ there. there) x) }
    ensures all { IfOk result (λ found. (x : ℕ) → IsBy set.now at.now (λ there. there) x → IsIn found.items x) }
{
    let mut found = Vec::new(alloc);
    for (place, there) in set.iter().enumerate() {
        if let Some(node) = chosen_at(at, place, *there) {
            found.push(node)?;
        }
    }
    Ok(found)
}

impl Graph {
    /// A graph over nodes, with no arc. Its first sets are those of each single node.
    ///
    /// # Errors
    ///
    /// Out of memory.
    pub fn over(alloc: Global, nodes: Vec<Node>) -> Result<Graph, AllocError>
        ensures over { IfOk result (IsOver nodes.items) }
        ensures none { IfOk result (λ graph. (x place y : ℕ) → IsPassIn graph x place y → ⊥) }
    {
        let sets = lone_sets(alloc, nodes.len())?;
        Ok(Graph {
            nodes,
            sets,
            arcs: Vec::new(alloc),
            kinds: Vec::new(alloc),
        })
    }

    /// Puts a set of nodes, from which no arc leads yet, and answers its place.
    ///
    /// # Errors
    ///
    /// Out of memory.
    pub fn put_set(&mut self, members: Vec<usize>) -> Result<usize, AllocError>
        requires members { AreBelow (length self.now.nodes.items) members.items }
        ensures over { OnOk result ((nodes : List NodeValue) → IsOver nodes self.old → IsOver nodes self.new) }
        ensures sets { OnOk result (KeepsSets self.old self.new) }
        ensures readies { OnOk result (Readies self.old self.new) }
        ensures set { IfOk result (λ place. IsSetOf self.new place (IsIn members.items)) }
    {
        let place = self.sets.len();
        self.sets.push(members)?;
        Ok(place)
    }

    /// Puts the set of the nodes of those places whose flag is set: `at` has of each place the node.
    ///
    /// # Errors
    ///
    /// Out of memory.
    pub fn put_members(
        &mut self,
        alloc: Global,
        at: &[usize],
        set: &[bool],
    ) -> Result<usize, AllocError>
        requires at { AreBelow (length self.now.nodes.items) at.now }
        ensures over { OnOk result ((nodes : List NodeValue) → IsOver nodes self.old → IsOver nodes self.new) }
        ensures sets { OnOk result (KeepsSets self.old self.new) }
        ensures readies { OnOk result (Readies self.old self.new) }
        ensures set { IfOk result (λ place. IsSetOf self.new place (IsBy set.now at.now (λ there. there))) }
    {
        let members = chosen(alloc, at, set)?;
        self.put_set(members)
    }

    /// Draws an arc of a kind from all nodes of a set to a node.
    ///
    /// # Errors
    ///
    /// Out of memory.
    pub fn draw(&mut self, kind: Kind, set: usize, to: usize) -> Result<(), AllocError>
        requires steady { IsSteady self.now }
        requires set { set < length self.now.sets.items }
        requires to { to < length self.now.nodes.items }
        ensures over { OnOk result ((nodes : List NodeValue) → IsOver nodes self.old → IsOver nodes self.new) }
        ensures sets { OnOk result (KeepsSets self.old self.new) }
        ensures adds { OnOk result (Adds self.old self.new kind to (λ x. IsMember self.old.sets.items set x)) }
    {
        self.arcs.push(Arc {
            set,
            to,
            counts: kind.counts(),
        })?;
        self.kinds.push(kind)?;
        Ok(())
    }

    /// Draws an arc of a kind from one node to another.
    ///
    /// # Errors
    ///
    /// Out of memory.
    pub fn draw_from(&mut self, kind: Kind, from: usize, to: usize) -> Result<(), AllocError>
        requires steady { IsSteady self.now }
        requires from { from < length self.now.nodes.items }
        requires to { to < length self.now.nodes.items }
        ensures over { OnOk result ((nodes : List NodeValue) → IsOver nodes self.old → IsOver nodes self.new) }
        ensures sets { OnOk result (KeepsSets self.old self.new) }
        ensures adds { OnOk result (Adds self.old self.new kind to (λ x. x ≡ from)) }
    {
        self.draw(kind, from, to)
    }
}
