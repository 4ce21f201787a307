//! What depends on the object itself: who holds its identifier, judged one by one.

ghost use Rattle.std.specs.Prelude.{◌≡◌, ◌++◌, All, map, IfOk, OnOk};
ghost use Rattle.std.specs.List.{flat_map};
ghost use Rattle.ad_questions.specs.Requirements.{alternative_seen, requirements_seen, are_met, IsJudged, AreJudged};
ghost use Rattle.ad_rights.specs.Holding.{listed};
ghost use Rattle.ad_rights_judged.specs.Judged.{own_places, AreIndexed};
ghost use Rattle.ad_sets.specs.Rows.{IsChanged};
ghost use Rattle.ad_rights_rows.specs.Rows.{are_met_apart};
ghost use Rattle.ad_rights_rows.specs.Steps.{places_of, meets_at, change_at};

use ad_dir::Dir;
use ad_questions::{Alternative, are_met};
use ad_rights_judged::{Tokens, own_places};
use ad_sets::Change;
use std::alloc::{AllocError, Global};

// The places that count at the object of an alternative.
fn put_own(
    into: &mut Vec<usize>,
    dir: &Dir,
    tokens: &Tokens,
    alternative: Alternative,
) -> Result<(), AllocError>
    requires { IsJudged dir.now (alternative_seen alternative) }
    ensures { OnOk result (into.new.items ≡ into.old.items
        ++ own_places dir.now (listed tokens.now.holding.holders) alternative.object) }
{
    into.extend_from_slice(own_places(dir, tokens, alternative.object))?;
    Ok(())
}

// Those of each alternative.
fn put_each(
    into: &mut Vec<usize>,
    dir: &Dir,
    tokens: &Tokens,
    requirement: &[Alternative],
) -> Result<(), AllocError>
    requires { All (λ a. IsJudged dir.now (alternative_seen a)) requirement.now }
    ensures { OnOk result (into.new.items ≡ into.old.items ++ flat_map (λ a. own_places dir.now
        (listed tokens.now.holding.holders) (alternative_seen a).object) requirement.now) }
{
    for alternative in requirement {
        put_own(into, dir, tokens, *alternative)?;
    }
    Ok(())
}

// The places of the tokens for which the own identifier of an object counts.
fn places(
    alloc: Global,
    dir: &Dir,
    tokens: &Tokens,
    needed: &[Vec<Alternative>],
) -> Result<Vec<usize>, AllocError>
    requires { AreJudged dir.now (requirements_seen needed.now) }
    ensures { IfOk result (λ places. places.items ≡ places_of dir.now
        (listed tokens.now.holding.holders) (requirements_seen needed.now)) }
{
    let mut found = Vec::new(alloc);
    for requirement in needed {
        put_each(&mut found, dir, tokens, requirement.as_slice())?;
    }
    Ok(found)
}

// Whether the token at a place meets what is needed.
fn meets(dir: &Dir, tokens: &Tokens, needed: &[Vec<Alternative>], place: usize) -> bool
    requires { AreJudged dir.now (requirements_seen needed.now) }
    ensures { result ≡ meets_at dir.now tokens.now.all.items (requirements_seen needed.now) place }
{
    match tokens.get(place) {
        Some(token) => are_met(dir, token, needed),
        None => false,
    }
}

// What the tokens at places are told.
fn changes_at(
    alloc: Global,
    dir: &Dir,
    tokens: &Tokens,
    needed: &[Vec<Alternative>],
    places: &[usize],
) -> Result<Vec<Change>, AllocError>
    requires { AreJudged dir.now (requirements_seen needed.now) }
    ensures { IfOk result (λ changes. changes.items ≡ map (change_at dir.now tokens.now.all.items
        (requirements_seen needed.now)) places.now) }
{
    let mut changes = Vec::with_capacity(alloc, places.len())?;
    for place in places {
        let value = meets(dir, tokens, needed, *place);
        changes.push(Change {
            place: *place,
            value,
        })?;
    }
    Ok(changes)
}

/// These changes make of the set of those who would meet what is needed, if no object had an identifier, the set of
/// those who do.
pub(crate) fn changes_make_the_whole(dir: &Dir, tokens: &Tokens, needed: &[Vec<Alternative>])
    requires { AreIndexed tokens.now }
    ensures { IsChanged (map (λ token. are_met_apart dir.now token (requirements_seen needed.now))
        tokens.now.all.items) (map (change_at dir.now tokens.now.all.items (requirements_seen needed.now))
        (places_of dir.now (listed tokens.now.holding.holders) (requirements_seen needed.now)))
        (map (λ token. are_met dir.now token (requirements_seen needed.now)) tokens.now.all.items) }
{
    ad_rights_judged::the_own_identifier_counts_at_its_places();
}

/// What the tokens are told for which the own identifier of an object counts.
///
/// # Errors
///
/// Out of memory.
pub(crate) fn changes(
    alloc: Global,
    dir: &Dir,
    tokens: &Tokens,
    needed: &[Vec<Alternative>],
) -> Result<Vec<Change>, AllocError>
    requires { AreJudged dir.now (requirements_seen needed.now) }
    ensures { IfOk result (λ changes. changes.items ≡ map (change_at dir.now tokens.now.all.items
        (requirements_seen needed.now)) (places_of dir.now (listed tokens.now.holding.holders)
        (requirements_seen needed.now))) }
{
    let places = places(alloc, dir, tokens, needed)?;
    changes_at(alloc, dir, tokens, needed, places.as_slice())
}
