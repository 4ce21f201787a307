//! A directory as a graph.

use crate::kind::Kind;
use crate::node::Node;
use ad_chains::Arc;

/// The nodes, each once; sets of them, by their places; arcs, each from all members of a set to a node; and of each arc
/// its kind, at the same place.
#[derive(Drop)]
pub struct Graph {
    pub nodes: Vec<Node>,
    pub sets: Vec<Vec<usize>>,
    pub arcs: Vec<Arc>,
    pub kinds: Vec<Kind>,
}
