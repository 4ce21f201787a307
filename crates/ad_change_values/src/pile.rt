//! The stored values of an attribute while the items of a Modify are applied to them. From some values on that are
//! looked for there is an index, so that what is looked for, added or taken away takes log n steps.

ghost use Rattle.std.specs.Prelude.{◌≡◌, ◌++◌, ◌==◌, ◌∷◌, [], filter, map, length, IfOk};
ghost use Rattle.ad_dir_objects.specs.Seen.{stored_seen};
ghost use Rattle.ad_change_values.specs.Piles.{alive, not_among, pile_in, since_in, IsIndex, IsPile};
ghost use Rattle.ad_change_values.specs.Values.{is_among};

use crate::places::{Places, add_one, alive_of, is_bare, is_there, places_of, take_all};
use crate::repeated::MANY;
use crate::values::is_among;
use ad_bytes::OneOrMany;
use ad_dir::Stored;
use std::alloc::{AllocError, Global};
use std::marker::Model;

/// The stored values of an attribute. A contract sees those that are there, in their order.
#[derive(Drop)]
pub(crate) struct Pile {
    // Those that came, in their order. Where there is an index, some may have been taken away since.
    all: OneOrMany<Stored>,
    // How many were looked for.
    looks: usize,
    places: Option<Places>,
}

impl Model for Pile {
    ghost use Rattle.std.specs.Prelude.{List as Values};
    ghost use Rattle.ad_dir_objects.specs.declared.object.Stored.{Stored as StoredValue};
    ghost use Rattle.ad_change_values.specs.Piles.{pile_in, IsPile};

    ghost Value = { Values StoredValue };

    ghost view = { λ pile. pile_in pile.all pile.places };

    ghost invariant = { λ pile. IsPile pile.all pile.places };
}

fn is_due(looks: usize, count: usize) -> bool {
    looks >= MANY && count >= MANY
}

// The index that there is, or one where it is due.
fn index_if(
    alloc: Global,
    due: bool,
    all: &OneOrMany<Stored>,
    places: Option<Places>,
) -> Result<Option<Places>, AllocError>
    requires { IsPile all.now places }
    ensures pile { IfOk result (λ made. IsPile all.now made) }
    ensures seen { IfOk result (λ made. pile_in all.now made ≡ pile_in all.now places) }
{
    match places {
        Some(places) => Ok(Some(places)),
        None => index_of(alloc, due, all),
    }
}

// The index, if it is due.
fn index_of(alloc: Global, due: bool, all: &OneOrMany<Stored>) -> Result<Option<Places>, AllocError>
    ensures pile { IfOk result (λ places. IsPile all.now places) }
    ensures seen { IfOk result (λ places. pile_in all.now places ≡ all.now) }
{
    if !due {
        return Ok(None);
    }
    let places = places_of(alloc, all.as_slice())?;
    Ok(Some(places))
}

fn is_empty_in(all: &OneOrMany<Stored>, places: &Option<Places>) -> bool
    requires { IsPile all.now places.now }
    ensures { result ≡ (length (pile_in all.now places.now) == 0) }
{
    match places {
        Some(places) => is_bare(places),
        None => all.is_empty(),
    }
}

fn has_in(
    alloc: Global,
    all: &OneOrMany<Stored>,
    places: &Option<Places>,
    one: &Stored,
) -> Result<bool, AllocError>
    requires { IsPile all.now places.now }
    ensures { IfOk result (λ there. there ≡ is_among (map stored_seen (pile_in all.now places.now))
        (stored_seen one.now)) }
{
    match places {
        Some(places) => {
            let there = is_there(alloc, places, one)?;
            Ok(there)
        }
        None => Ok(is_among(all.as_slice(), one)),
    }
}

fn joined(
    first: OneOrMany<Stored>,
    second: OneOrMany<Stored>,
) -> Result<OneOrMany<Stored>, AllocError>
    ensures { IfOk result (λ all. all ≡ first ++ second) }
{
    let mut all = first.into_vec()?;
    let mut others = second.into_vec()?;
    all.append(&mut others)?;
    Ok(OneOrMany::from_vec(all))
}

fn add_all(
    alloc: Global,
    mut all: OneOrMany<Stored>,
    mut places: Places,
    new: Vec<Stored>,
) -> Result<(OneOrMany<Stored>, Option<Places>), AllocError>
    requires { IsIndex (since_in places) all }
    ensures pile { IfOk result (λ both. IsPile both.0 both.1) }
    ensures seen { IfOk result (λ both. pile_in both.0 both.1 ≡ alive (since_in places) 0 all
        ++ new.items) }
{
    for one in new {
        add_one(alloc, &mut all, &mut places, one)?;
    }
    Ok((all, Some(places)))
}

fn with_in(
    alloc: Global,
    all: OneOrMany<Stored>,
    places: Option<Places>,
    new: OneOrMany<Stored>,
) -> Result<(OneOrMany<Stored>, Option<Places>), AllocError>
    requires { IsPile all places }
    ensures pile { IfOk result (λ both. IsPile both.0 both.1) }
    ensures seen { IfOk result (λ both. pile_in both.0 both.1 ≡ pile_in all places ++ new) }
{
    match places {
        Some(places) => add_all(alloc, all, places, new.into_vec()?),
        None => Ok((joined(all, new)?, None)),
    }
}

fn without_these(
    stored: OneOrMany<Stored>,
    gone: &[Stored],
) -> Result<OneOrMany<Stored>, AllocError>
    ensures { IfOk result (λ left. left ≡ filter (not_among gone.now) stored) }
{
    let mut left = stored.into_vec()?;
    left.retain(|value| !is_among(gone, value));
    Ok(OneOrMany::from_vec(left))
}

fn without_in(
    alloc: Global,
    all: OneOrMany<Stored>,
    places: Option<Places>,
    gone: &[Stored],
) -> Result<(OneOrMany<Stored>, Option<Places>), AllocError>
    requires { IsPile all places }
    ensures pile { IfOk result (λ both. IsPile both.0 both.1) }
    ensures seen { IfOk result (λ both. pile_in both.0 both.1 ≡ filter (not_among gone.now)
        (pile_in all places)) }
{
    match places {
        Some(places) => {
            let left = take_all(alloc, all.as_slice(), places, gone)?;
            Ok((all, Some(left)))
        }
        None => Ok((without_these(all, gone)?, None)),
    }
}

fn few_in(
    alloc: Global,
    all: OneOrMany<Stored>,
    places: Option<Places>,
) -> Result<OneOrMany<Stored>, AllocError>
    ensures { IfOk result (λ few. few ≡ pile_in all places) }
{
    match places {
        Some(places) => alive_of(alloc, &places, all),
        None => Ok(all),
    }
}

impl Pile {
    /// These values. It takes no memory.
    pub fn of(stored: OneOrMany<Stored>) -> Pile
        ensures { result ≡ stored }
    {
        Pile {
            all: stored,
            looks: 0,
            places: None,
        }
    }

    /// The same values, of which so many more will be looked for.
    ///
    /// # Errors
    ///
    /// Out of memory.
    pub fn looked_at(self, alloc: Global, more: usize) -> Result<Pile, AllocError>
        ensures { IfOk result (λ pile. pile ≡ self) }
    {
        let Pile { all, looks, places } = self;
        let looks = looks.saturating_add(more);
        let places = index_if(alloc, is_due(looks, all.len()), &all, places)?;
        Ok(Pile { all, looks, places })
    }

    /// Whether there are none.
    pub fn is_empty(&self) -> bool
        ensures { result ≡ (length self.now == 0) }
    {
        is_empty_in(&self.all, &self.places)
    }

    /// Whether a value is one of them.
    ///
    /// # Errors
    ///
    /// Out of memory.
    pub fn has(&self, alloc: Global, one: &Stored) -> Result<bool, AllocError>
        ensures { IfOk result (λ there. there ≡ is_among (map stored_seen self.now)
            (stored_seen one.now)) }
    {
        has_in(alloc, &self.all, &self.places, one)
    }

    /// With these after them.
    ///
    /// # Errors
    ///
    /// Out of memory.
    pub fn with(self, alloc: Global, new: OneOrMany<Stored>) -> Result<Pile, AllocError>
        ensures { IfOk result (λ pile. pile ≡ self ++ new) }
    {
        let Pile { all, looks, places } = self;
        let (all, places) = with_in(alloc, all, places, new)?;
        Ok(Pile { all, looks, places })
    }

    /// Without these.
    ///
    /// # Errors
    ///
    /// Out of memory.
    pub fn without(self, alloc: Global, gone: &[Stored]) -> Result<Pile, AllocError>
        ensures { IfOk result (λ pile. pile ≡ filter (not_among gone.now) self) }
    {
        let Pile { all, looks, places } = self;
        let (all, places) = without_in(alloc, all, places, gone)?;
        Ok(Pile { all, looks, places })
    }

    /// The values.
    ///
    /// # Errors
    ///
    /// Out of memory.
    pub fn into_few(self, alloc: Global) -> Result<OneOrMany<Stored>, AllocError>
        ensures { IfOk result (λ few. few ≡ self) }
    {
        let Pile {
            all,
            looks: _,
            places,
        } = self;
        few_in(alloc, all, places)
    }
}
