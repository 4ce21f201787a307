//! The values of an object, as they come.

ghost use Rattle.std.specs.Prelude.{◌≡◌, ◌++◌, ◌∷◌, [], None, map, IfOk, IfSome};
ghost use Rattle.std.specs.List.{list_any};
ghost use Rattle.ad_load_objects.specs.Drafts.{is_given};
ghost use Rattle.ad_load_objects.specs.Had.{AreHad, PutsOnce, is_had};
ghost use Rattle.ad_load_objects.specs.Objects.{is_same_given};
ghost use Rattle.ad_load_objects.specs.Seen.{given_seen};

use crate::drafts::Given;
use crate::seen_values::{SeenValues, had_of_many, has_attr, note};
use ad_schema::AttrId;
use ad_value::{Value, equal};
use std::alloc::{AllocError, Global};
use std::marker::Model;

/// The values of an object so far, none twice. A contract sees them as a list.
#[derive(Drop)]
pub(crate) struct Values {
    items: Vec<Given>,
    // What they are found by, once they are many.
    had: Option<SeenValues>,
}

impl Model for Values {
    ghost use Rattle.std.specs.Prelude.{List, map, IfSome};
    ghost use Rattle.ad_load_objects.specs.Drafts.{Given as GivenValue};
    ghost use Rattle.ad_load_objects.specs.Had.{AreHad};
    ghost use Rattle.ad_load_objects.specs.Seen.{given_seen};

    ghost Value = { List GivenValue };

    ghost view = { λ values. map given_seen values.items.items };

    ghost invariant = { λ values. IfSome values.had (AreHad (map given_seen values.items.items)) };
}

// ---- few values, gone over one by one

fn is_same_given(one: &Given, single: bool, attr: AttrId, value: &Value) -> bool
    ensures { result ≡ is_same_given single attr.0 value.now (given_seen one.now) }
{
    one.attr.0 == attr.0 && (single || equal(&one.value, value))
}

fn any_same(given: &[Given], single: bool, attr: AttrId, value: &Value) -> bool
    ensures { result ≡ list_any (λ one. is_same_given single attr.0 value.now (given_seen one))
        given.now }
{
    given
        .iter()
        .any(|one| is_same_given(one, single, attr, value))
}

fn is_among(items: &[Given], single: bool, one: &Given) -> bool
    ensures { result ≡ is_had single (given_seen one.now) (map given_seen items.now) }
{
    any_same(items, single, one.attr, &one.value)
}

fn any_given(given: &[Given], attr: AttrId) -> bool
    ensures { result ≡ list_any (λ one. is_given attr.0 (given_seen one)) given.now }
{
    given.iter().any(|one| one.attr.0 == attr.0)
}

fn is_given(given: &[Given], attr: AttrId) -> bool
    ensures { result ≡ list_any (is_given attr.0) (map given_seen given.now) }
{
    any_given(given, attr)
}

fn push_few(items: &mut Vec<Given>, single: bool, one: Given) -> Result<Option<Given>, AllocError>
    ensures { IfOk result (PutsOnce single (given_seen one) (map given_seen items.old.items)
        (map given_seen items.new.items)) }
{
    if is_among(items.as_slice(), single, &one) {
        return Ok(Some(one));
    }
    items.push(one)?;
    Ok(None)
}

// ---- many values, which are found

fn push_known(
    alloc: Global,
    items: &mut Vec<Given>,
    known: &mut SeenValues,
    single: bool,
    one: Given,
) -> Result<Option<Given>, AllocError>
    requires { AreHad (map given_seen items.old.items) known.old }
    ensures put { IfOk result (PutsOnce single (given_seen one) (map given_seen items.old.items)
        (map given_seen items.new.items)) }
    ensures had { IfOk result (λ again. again ≡ None → AreHad (map given_seen items.new.items)
        known.new) }
{
    if !note(alloc, known, single, &one)? {
        return Ok(Some(one));
    }
    items.push(one)?;
    Ok(None)
}

// The same, and what is known then: nothing more where the value is given back.
fn push_many(
    alloc: Global,
    items: &mut Vec<Given>,
    known: SeenValues,
    single: bool,
    one: Given,
) -> Result<(Option<Given>, Option<SeenValues>), AllocError>
    requires { AreHad (map given_seen items.old.items) known }
    ensures put { IfOk result (λ both. PutsOnce single (given_seen one) (map given_seen items.old.items)
        (map given_seen items.new.items) both.0) }
    ensures had { IfOk result (λ both. IfSome both.1 (AreHad (map given_seen items.new.items))) }
{
    let mut known = known;
    match push_known(alloc, items, &mut known, single, one)? {
        Some(again) => Ok((Some(again), None)),
        None => Ok((None, Some(known))),
    }
}

// ---- either

fn push(
    alloc: Global,
    items: &mut Vec<Given>,
    had: &mut Option<SeenValues>,
    single: bool,
    one: Given,
) -> Result<Option<Given>, AllocError>
    requires { IfSome had.old (AreHad (map given_seen items.old.items)) }
    ensures put { IfOk result (PutsOnce single (given_seen one) (map given_seen items.old.items)
        (map given_seen items.new.items)) }
    ensures had { IfSome had.new (AreHad (map given_seen items.new.items)) }
{
    match had.take() {
        Some(known) => {
            let (again, known) = push_many(alloc, items, known, single, one)?;
            *had = known;
            Ok(again)
        }
        None => {
            let again = push_few(items, single, one)?;
            *had = had_of_many(alloc, items.as_slice())?;
            Ok(again)
        }
    }
}

fn is_of_one(items: &[Given], had: &Option<SeenValues>, attr: AttrId) -> bool
    requires { IfSome had.now (AreHad (map given_seen items.now)) }
    ensures { result ≡ list_any (is_given attr.0) (map given_seen items.now) }
{
    match had {
        Some(known) => has_attr(known, attr),
        None => is_given(items, attr),
    }
}

impl Values {
    /// None yet, with room for so many.
    pub(crate) fn with_room(alloc: Global, room: usize) -> Result<Values, AllocError>
        ensures { IfOk result (λ values. values ≡ []) }
    {
        Ok(Values {
            items: Vec::with_capacity(alloc, room)?,
            had: None,
        })
    }

    /// Whether one of them is of the attribute.
    pub(crate) fn is_given(&self, attr: AttrId) -> bool
        ensures { result ≡ list_any (is_given attr.0) self.now }
    {
        is_of_one(self.items.as_slice(), &self.had, attr)
    }

    /// PutsOnce a value after the others, or gives it back where it is there already. Of an attribute with one value
    /// each is.
    pub(crate) fn push(
        &mut self,
        alloc: Global,
        single: bool,
        one: Given,
    ) -> Result<Option<Given>, AllocError>
        ensures { IfOk result (PutsOnce single (given_seen one) self.old self.new) }
    {
        push(alloc, &mut self.items, &mut self.had, single, one)
    }

    /// All of them.
    pub(crate) fn into_items(self) -> Vec<Given>
        ensures { map given_seen result.items ≡ self }
    {
        self.items
    }
}
