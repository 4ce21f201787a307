//! The table's questions and attributes, looked up once for a schema.

ghost use Rattle.std.specs.Prelude.{◌≡◌, map, slice_get, IfOk};
ghost use Rattle.std.specs.Option.{option_copied};
ghost use Rattle.ad_schema.specs.Attributes.{attr_named};
ghost use Rattle.ad_questions.specs.Question.{question_of};
ghost use Rattle.ad_control_graph.specs.Texts.{texts_seen, asking_seen};
ghost use Rattle.ad_control_asked.specs.Asked.{AreQuestions, in_schema, known_seen, AreWaysOf, AreWaysFor};
ghost use Rattle.ad_control_asked.specs.Asked.{AreWays};

use ad_control_graph::{Asking, Kind};
use ad_dir::Dir;
use ad_questions::{Question, question_of};
use ad_schema::{AttrId, Schema};
use std::alloc::{AllocError, Global};

/// The attributes and questions of a way, where the schema has them.
#[derive(Drop)]
pub struct Known {
    pub stored: Vec<Option<AttrId>>,
    pub asks: Vec<Option<Question>>,
}

/// The ways of each kind, in the order of the kinds.
#[derive(Drop)]
pub struct Ways {
    all: Vec<Vec<Known>>,
}

// ---- one way

fn attrs_of(
    alloc: Global,
    schema: &Schema,
    names: &[&[u8]],
) -> Result<Vec<Option<AttrId>>, AllocError>
    ensures { IfOk result (λ found. found.items ≡ map (attr_named schema.now) (texts_seen names.now)) }
{
    let mut found = Vec::with_capacity(alloc, names.len())?;
    for name in names {
        found.push(schema.attr(name))?;
    }
    Ok(found)
}

fn questions_of(
    alloc: Global,
    schema: &Schema,
    texts: &[&[u8]],
) -> Result<Vec<Option<Question>>, AllocError>
    ensures asked { IfOk result (λ found. found.items
        ≡ map (question_of schema.now) (texts_seen texts.now)) }
    ensures known { IfOk result (λ found. AreQuestions schema.now found.items) }
{
    let mut found = Vec::with_capacity(alloc, texts.len())?;
    for text in texts {
        found.push(question_of(schema, text))?;
    }
    Ok(found)
}

fn known_of(alloc: Global, schema: &Schema, way: &Asking) -> Result<Known, AllocError>
    ensures seen { IfOk result (λ known. known_seen known ≡ in_schema schema.now (asking_seen way.now)) }
    ensures questions { IfOk result (λ known. AreQuestions schema.now known.asks.items) }
{
    let stored = attrs_of(alloc, schema, way.stored)?;
    let asks = questions_of(alloc, schema, way.asks)?;
    Ok(Known { stored, asks })
}

// ---- all ways

fn ways_of(alloc: Global, schema: &Schema, kind: Kind) -> Result<Vec<Known>, AllocError>
    ensures { IfOk result (λ found. AreWaysOf schema.now kind found.items) }
{
    let ways = kind.ways();
    let mut found = Vec::with_capacity(alloc, ways.len())?;
    for way in ways {
        found.push(known_of(alloc, schema, way)?)?;
    }
    Ok(found)
}

fn all_of(alloc: Global, schema: &Schema, kinds: &[Kind]) -> Result<Vec<Vec<Known>>, AllocError>
    ensures { IfOk result (λ all. AreWaysFor schema.now kinds.now all.items) }
{
    let mut all = Vec::with_capacity(alloc, kinds.len())?;
    for kind in kinds {
        all.push(ways_of(alloc, schema, *kind)?)?;
    }
    Ok(all)
}

fn known_at(all: &[Vec<Known>], place: usize) -> Option<&Vec<Known>>
    ensures { option_copied result ≡ slice_get all.now place }
{
    all.get(place)
}

impl Ways {
    /// The table's ways in the schema of a directory.
    ///
    /// # Errors
    ///
    /// Out of memory.
    pub fn of(alloc: Global, dir: &Dir) -> Result<Ways, AllocError>
        ensures { IfOk result (AreWays dir.now.schema) }
    {
        let kinds = Kind::all();
        let all = all_of(alloc, dir.schema(), &kinds)?;
        Ok(Ways { all })
    }

    /// The ways of a kind.
    pub(crate) fn at(&self, dir: &Dir, kind: Kind) -> &[Known]
        requires { AreWays dir.now.schema self.now }
        ensures { AreWaysOf dir.now.schema kind result.now }
    {
        let all = self.all.as_slice();
        let place = kind.place();
        match known_at(all, place) {
            Some(known) => known.as_slice(),
            None => unreachable!(),
        }
    }
}
