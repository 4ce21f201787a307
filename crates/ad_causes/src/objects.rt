//! What differs of an object that stands in both directories.

ghost use Rattle.std.specs.Prelude.{◌≡◌, ◌++◌, [], true, All, map, IfOk, OnOk};
ghost use Rattle.std.specs.List.{flat_map};
ghost use Rattle.std.specs.Option.{option_copied, option_map_or};
ghost use Rattle.ad_dir_objects.specs.Seen.{stored_seen};
ghost use Rattle.ad_dir_model.specs.Objects.{is_live};
ghost use Rattle.ad_both.specs.Both.{objects_of_both, IsLiveBoth};
ghost use Rattle.ad_causes.specs.Extra.{texts, is_none};
ghost use Rattle.ad_causes.specs.Cause.{causes_text};
ghost use Rattle.ad_causes.specs.Causes.{class_name, primary_text, shown_in, history_values, history_texts, are_same};
ghost use Rattle.ad_causes.specs.Causes.{all_objects};
ghost use Rattle.ad_causes.specs.Steps.{changed_text, history_text, object_text};

use crate::counting::extra;
use crate::descriptors::put_descriptors;
use crate::pieces::{name_of, put_line};
use ad_both::{Both, objects_of_both};
use ad_dir::{Dir, Stored, class_of, first_of, live_object, live_sd, stored_of};
use ad_schema::RuleAttr;
use ad_value::Value;
use std::alloc::{AllocError, Global};

// ---- in one directory

#[tactic(auto, unfolding(crate::specs::Causes::class_name))]
fn class_name(dir: &Dir, number: u32) -> &[u8]
    requires { is_live dir.now.objects number ≡ true }
    ensures { result.now ≡ class_name dir.entry.now number }
{
    let class = class_of(dir, number);
    dir.schema().class_info(class).name.as_slice()
}

fn shown_of(value: Option<&Value>) -> &[u8]
    ensures { result.now ≡ option_map_or (λ v. v.shown) (option_copied value.entry) [] }
{
    match value {
        Some(value) => value.shown(),
        None => &[],
    }
}

#[tactic(auto, unfolding(crate::specs::Causes::primary_text, ad_dir_model::specs::Identity::first_of_attr, ad_dir_model::specs::Attributes::rule_place))]
fn primary_of(dir: &Dir, number: u32) -> &[u8]
    requires { is_live dir.now.objects number ≡ true }
    ensures { result.now ≡ primary_text dir.entry.now number }
{
    match dir.schema().attr_of_rule(RuleAttr::PrimaryGroupId) {
        Some(attr) => shown_of(first_of(live_object(dir, number).values.as_slice(), attr)),
        None => &[],
    }
}

#[tactic(auto, unfolding(crate::specs::Causes::history_values))]
fn history_values(dir: &Dir, number: u32) -> &[Stored]
    requires { is_live dir.now.objects number ≡ true }
    ensures { map stored_seen result.now ≡ history_values dir.entry.now number }
{
    match dir.schema().attr(b"sIDHistory") {
        Some(attr) => stored_of(live_object(dir, number).values.as_slice(), attr),
        None => &[],
    }
}

fn push_shown(alloc: Global, into: &mut Vec<Vec<u8>>, value: &Stored) -> Result<(), AllocError>
    ensures { OnOk result (texts into.new.items
        ≡ texts into.old.items ++ shown_in (stored_seen value.now)) }
{
    match value {
        Stored::Plain(value) => {
            into.push(Vec::from_slice(alloc, value.shown())?)?;
            Ok(())
        }
        Stored::Link(_) => Ok(()),
    }
}

fn all_shown(alloc: Global, values: &[Stored]) -> Result<Vec<Vec<u8>>, AllocError>
    ensures { IfOk result (λ all. texts all.items ≡ flat_map shown_in (map stored_seen values.now)) }
{
    let mut all = Vec::new(alloc);
    for value in values {
        push_shown(alloc, &mut all, value)?;
    }
    Ok(all)
}

#[tactic(auto, unfolding(crate::specs::Causes::history_texts))]
fn history_of(alloc: Global, dir: &Dir, number: u32) -> Result<Vec<Vec<u8>>, AllocError>
    requires { is_live dir.now.objects number ≡ true }
    ensures { IfOk result (λ all. texts all.items ≡ history_texts dir.now number) }
{
    all_shown(alloc, history_values(dir, number))
}

// ---- in two

fn put_changed(
    into: &mut Vec<u8>,
    label: &[u8],
    name: &[u8],
    was: &[u8],
    is: &[u8],
) -> Result<(), AllocError>
    ensures { OnOk result (into.new.items
        ≡ into.old.items ++ changed_text label.now name.now was.now is.now) }
{
    if was == is {
        return Ok(());
    }
    put_line(into, label, name)
}

// Whether each text stands as often in the one list as in the other.
fn are_same(alloc: Global, was: &[Vec<u8>], is: &[Vec<u8>]) -> Result<bool, AllocError>
    ensures { IfOk result (λ are. are ≡ are_same (texts was.now) (texts is.now)) }
{
    let more = extra(alloc, is, was)?;
    let less = extra(alloc, was, is)?;
    Ok(more.as_slice().is_empty() && less.as_slice().is_empty())
}

fn put_history(
    alloc: Global,
    into: &mut Vec<u8>,
    name: &[u8],
    was: &[Vec<u8>],
    is: &[Vec<u8>],
) -> Result<(), AllocError>
    ensures { OnOk result (into.new.items
        ≡ into.old.items ++ history_text name.now (texts was.now) (texts is.now)) }
{
    if are_same(alloc, was, is)? {
        return Ok(());
    }
    put_line(into, b"history ", name)
}

fn put_object(
    alloc: Global,
    into: &mut Vec<u8>,
    before: &Dir,
    after: &Dir,
    o: Both,
) -> Result<(), AllocError>
    requires { IsLiveBoth before.now after.now o }
    ensures { OnOk result (into.new.items ≡ into.old.items ++ object_text before.now after.now o) }
{
    let name = name_of(alloc, after, o.after)?;
    let name = name.as_slice();
    put_descriptors(
        alloc,
        into,
        name,
        live_sd(before, o.before),
        live_sd(after, o.after),
    )?;
    put_changed(
        into,
        b"class ",
        name,
        class_name(before, o.before),
        class_name(after, o.after),
    )?;
    put_changed(
        into,
        b"primary ",
        name,
        primary_of(before, o.before),
        primary_of(after, o.after),
    )?;
    let had = history_of(alloc, before, o.before)?;
    let has = history_of(alloc, after, o.after)?;
    put_history(alloc, into, name, had.as_slice(), has.as_slice())
}

fn put_each(
    alloc: Global,
    into: &mut Vec<u8>,
    before: &Dir,
    after: &Dir,
    objects: &[Both],
) -> Result<(), AllocError>
    requires { All (IsLiveBoth before.now after.now) objects.now }
    ensures { OnOk result (into.new.items ≡ into.old.items
        ++ flat_map (object_text before.now after.now) objects.now) }
{
    for o in objects {
        put_object(alloc, into, before, after, *o)?;
    }
    Ok(())
}

/// What differs of each object that stands in both directories.
///
/// # Errors
///
/// Out of memory.
pub(crate) fn put_objects(
    alloc: Global,
    into: &mut Vec<u8>,
    before: &Dir,
    after: &Dir,
) -> Result<(), AllocError>
    ensures { OnOk result (into.new.items ≡ into.old.items
        ++ causes_text (all_objects before.now after.now)) }
{
    let objects = objects_of_both(alloc, before, after)?;
    put_each(alloc, into, before, after, objects.as_slice())
}
