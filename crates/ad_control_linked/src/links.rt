//! Sets of policies that stand already.

ghost use Rattle.std.specs.Prelude.{List};
ghost use Rattle.ad_dir_model.specs.Directory.{Directory};
ghost use Rattle.ad_control_graph.specs.declared.graph.Graph.{Graph as GraphValue};
ghost use Rattle.ad_control_graph.specs.declared.node.Node.{Node as NodeValue};
ghost use Rattle.ad_control_linked.specs.Links.{AreLinks};

use indexmap::IndexMap;
use std::alloc::Global;

/// Of parents that were asked, the sets of the policies that count for their children, by their places in a graph.
#[derive(Drop)]
pub struct Links {
    pub(crate) sets: IndexMap<u32, usize>,
}

impl Links {
    /// No parent was asked.
    pub fn new(alloc: Global) -> Links
        ensures { (dir : Directory) (nodes : List NodeValue) (graph : GraphValue) → AreLinks dir nodes graph result }
    {
        Links {
            sets: IndexMap::new(alloc),
        }
    }
}
