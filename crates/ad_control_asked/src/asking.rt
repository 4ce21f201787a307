//! Arcs from who is told yes to questions.

ghost use Rattle.std.specs.Prelude.{◌≡◌, ◌<◌, ◌++◌, List, true, length, IfOk, IfSome, OnOk};
ghost use Rattle.std.specs.List.{list_all, flat_map};
ghost use Rattle.ad_dir_model.specs.Objects.{is_live};
ghost use Rattle.ad_questions.specs.Question.{IsQuestion};
ghost use Rattle.ad_questions.specs.Requirements.{requirements, requirements_seen, nobody, AreJudged};
ghost use Rattle.ad_control_graph.specs.declared.node.Node.{Node as NodeValue};
ghost use Rattle.ad_control_graph.specs.Drawing.{IsSteady, IsOver, Adds, KeepsSets, IsBy};
ghost use Rattle.ad_control_nodes.specs.Ground.{IsGround};
ghost use Rattle.ad_control_asked.specs.Asked.{IsJudging, is_told_yes, needed_by, AreQuestions};

use crate::judging::{Judging, draw_needed};
use ad_control_graph::{Graph, Kind};
use ad_control_nodes::Ground;
use ad_dir::Dir;
use ad_questions::{Alternative, Question, requirements};
use std::alloc::{AllocError, Global};

// ---- what questions ask for

fn put_asked(
    alloc: Global,
    into: &mut Vec<Vec<Alternative>>,
    dir: &Dir,
    question: Question,
    number: u32,
) -> Result<(), AllocError>
    requires live { is_live dir.now.objects number ≡ true }
    requires question { IsQuestion dir.now.schema question }
    requires judged { AreJudged dir.now (requirements_seen into.old.items) }
    ensures judged { OnOk result (AreJudged dir.now (requirements_seen into.new.items)) }
    ensures asked { OnOk result (requirements_seen into.new.items
        ≡ requirements_seen into.old.items ++ requirements dir.now question number) }
{
    let mut needed = requirements(alloc, dir, question, number)?;
    into.append(&mut needed)?;
    Ok(())
}

fn put_nobody(alloc: Global, into: &mut Vec<Vec<Alternative>>, dir: &Dir) -> Result<(), AllocError>
    requires judged { AreJudged dir.now (requirements_seen into.old.items) }
    ensures judged { OnOk result (AreJudged dir.now (requirements_seen into.new.items)) }
    ensures asked { OnOk result (requirements_seen into.new.items
        ≡ requirements_seen into.old.items ++ nobody) }
{
    into.push(Vec::new(alloc))?;
    Ok(())
}

fn put_needed(
    alloc: Global,
    into: &mut Vec<Vec<Alternative>>,
    dir: &Dir,
    question: Option<Question>,
    number: u32,
) -> Result<(), AllocError>
    requires live { is_live dir.now.objects number ≡ true }
    requires question { IfSome question (IsQuestion dir.now.schema) }
    requires judged { AreJudged dir.now (requirements_seen into.old.items) }
    ensures judged { OnOk result (AreJudged dir.now (requirements_seen into.new.items)) }
    ensures asked { OnOk result (requirements_seen into.new.items
        ≡ requirements_seen into.old.items ++ needed_by dir.now number question) }
{
    match question {
        Some(question) => put_asked(alloc, into, dir, question, number),
        None => put_nobody(alloc, into, dir),
    }
}

// What all questions ask for, one after the other.
fn needed_of(
    alloc: Global,
    dir: &Dir,
    asks: &[Option<Question>],
    number: u32,
) -> Result<Vec<Vec<Alternative>>, AllocError>
    requires live { is_live dir.now.objects number ≡ true }
    requires questions { AreQuestions dir.now.schema asks.now }
    ensures judged { IfOk result (λ needed. AreJudged dir.now (requirements_seen needed.items)) }
    ensures asked { IfOk result (λ needed. requirements_seen needed.items
        ≡ flat_map (needed_by dir.now number) asks.now) }
{
    let mut needed = Vec::new(alloc);
    for question in asks {
        put_needed(alloc, &mut needed, dir, *question, number)?;
    }
    Ok(needed)
}

/// Draws arcs to a node from who is told yes to all questions at a live object.
///
/// # Errors
///
/// Out of memory.
pub(crate) fn draw_all(
    alloc: Global,
    dir: &Dir,
    ground: &Ground,
    judging: &mut Judging,
    graph: &mut Graph,
    kind: Kind,
    number: u32,
    asks: &[Option<Question>],
    to: usize,
) -> Result<(), AllocError>
    requires live { is_live dir.now.objects number ≡ true }
    requires questions { AreQuestions dir.now.schema asks.now }
    requires ground { IsGround dir.now graph.now.nodes.items ground.now }
    requires steady { IsSteady graph.now }
    requires judging { IsJudging dir.now ground.now graph.now judging.now }
    requires to { to < length graph.now.nodes.items }
    ensures over { OnOk result ((nodes : List NodeValue) → IsOver nodes graph.old → IsOver nodes graph.new) }
    ensures judging { OnOk result (IsJudging dir.now ground.now graph.new judging.new) }
    ensures sets { OnOk result (KeepsSets graph.old graph.new) }
    ensures adds { OnOk result (Adds graph.old graph.new kind to (IsBy
        ground.now.parties.tokens.all.items ground.now.at.items
        (λ token. list_all (is_told_yes dir.now token number) asks.now))) }
{
    let needed = needed_of(alloc, dir, asks, number)?;
    draw_needed(
        alloc,
        dir,
        ground,
        judging,
        graph,
        kind,
        number,
        needed.as_slice(),
        to,
    )
}

/// Draws arcs to a node from who is told yes to a question at a live object, if there is such a question.
///
/// # Errors
///
/// Out of memory.
pub fn draw_asked(
    alloc: Global,
    dir: &Dir,
    ground: &Ground,
    judging: &mut Judging,
    graph: &mut Graph,
    kind: Kind,
    number: u32,
    question: Option<Question>,
    to: usize,
) -> Result<(), AllocError>
    requires live { is_live dir.now.objects number ≡ true }
    requires question { IfSome question (IsQuestion dir.now.schema) }
    requires ground { IsGround dir.now graph.now.nodes.items ground.now }
    requires steady { IsSteady graph.now }
    requires judging { IsJudging dir.now ground.now graph.now judging.now }
    requires to { to < length graph.now.nodes.items }
    ensures over { OnOk result ((nodes : List NodeValue) → IsOver nodes graph.old → IsOver nodes graph.new) }
    ensures judging { OnOk result (IsJudging dir.now ground.now graph.new judging.new) }
    ensures sets { OnOk result (KeepsSets graph.old graph.new) }
    ensures adds { OnOk result (Adds graph.old graph.new kind to (IsBy
        ground.now.parties.tokens.all.items ground.now.at.items
        (λ token. is_told_yes dir.now token number question))) }
{
    draw_all(
        alloc,
        dir,
        ground,
        judging,
        graph,
        kind,
        number,
        &[question],
        to,
    )
}
