//! What is kept while objects are asked; and arcs from who meets requirements.

ghost use Rattle.std.specs.Prelude.{◌≡◌, ◌<◌, List, length, nat_eq, IfOk, OnOk};
ghost use Rattle.indexmap.specs.IndexMap.{get};
ghost use Rattle.ad_questions.specs.Requirements.{requirements_seen, are_met, AreJudged};
ghost use Rattle.ad_control_graph.specs.declared.graph.Graph.{Graph as GraphValue};
ghost use Rattle.ad_control_graph.specs.declared.node.Node.{Node as NodeValue};
ghost use Rattle.ad_control_graph.specs.Drawing.{IsSteady, IsOver, Adds, KeepsSets, IsBy};
ghost use Rattle.ad_control_nodes.specs.Ground.{IsGround};
ghost use Rattle.ad_control_asked.specs.Asked.{IsJudging};

use crate::drawn::{Drawn, draw_told};
use ad_control_graph::{Graph, Kind};
use ad_control_nodes::Ground;
use ad_dir::Dir;
use ad_questions::Alternative;
use ad_rights_judged::Judged;
use ad_rights_rows::{Ends, put_ends, told_needed};
use indexmap::IndexMap;
use std::alloc::{AllocError, Global};

/// What was judged of the tokens so far, and which of their sets stand as sets of nodes.
#[derive(Drop)]
pub struct Judging {
    judged: Judged,
    ends: Ends,
    drawn: Drawn,
}

impl Judging {
    /// Nothing was asked yet.
    ///
    /// # Errors
    ///
    /// Out of memory.
    pub fn new(alloc: Global, dir: &Dir, ground: &Ground) -> Result<Judging, AllocError>
        ensures { IfOk result (λ judging. (graph : GraphValue) → IsJudging dir.now ground.now graph
            judging) }
    {
        let mut judged = Judged::new(alloc);
        let ends = put_ends(alloc, dir, &ground.parties.tokens, &mut judged)?;
        Ok(Judging {
            judged,
            ends,
            drawn: IndexMap::new(alloc),
        })
    }
}

fn own_of(own: &IndexMap<u32, usize>, number: u32) -> Option<usize>
    ensures { result ≡ get nat_eq own.now number }
{
    own.get(&number).copied()
}

/// Draws arcs to a node from who meets all requirements. The number is of an object whose own identifier may count in
/// them; what is drawn doesn't depend on it.
///
/// # Errors
///
/// Out of memory.
pub fn draw_needed(
    alloc: Global,
    dir: &Dir,
    ground: &Ground,
    judging: &mut Judging,
    graph: &mut Graph,
    kind: Kind,
    number: u32,
    needed: &[Vec<Alternative>],
    to: usize,
) -> Result<(), AllocError>
    requires needed { AreJudged dir.now (requirements_seen needed.now) }
    requires ground { IsGround dir.now graph.now.nodes.items ground.now }
    requires steady { IsSteady graph.now }
    requires judging { IsJudging dir.now ground.now graph.now judging.now }
    requires to { to < length graph.now.nodes.items }
    ensures over { OnOk result ((nodes : List NodeValue) → IsOver nodes graph.old → IsOver nodes graph.new) }
    ensures judging { OnOk result (IsJudging dir.now ground.now graph.new judging.new) }
    ensures sets { OnOk result (KeepsSets graph.old graph.new) }
    ensures adds { OnOk result (Adds graph.old graph.new kind to (IsBy
        ground.now.parties.tokens.all.items ground.now.at.items
        (λ token. are_met dir.now token (requirements_seen needed.now)))) }
{
    ad_sets::a_row_tells_the_whole();
    let own = own_of(&ground.own, number);
    let told = told_needed(
        alloc,
        dir,
        &ground.parties,
        &mut judging.judged,
        judging.ends,
        own,
        needed,
    )?;
    draw_told(
        alloc,
        ground.at.as_slice(),
        judging.judged.sets(),
        &mut judging.drawn,
        graph,
        kind,
        told,
        own,
        to,
    )
}
