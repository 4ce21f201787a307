//! The values that an object shows.

ghost use Rattle.std.specs.Prelude.{◌≡◌, ◌<◌, ◌∷◌, ◌==◌, ◌||◌, true, [], map, reverse, length};
ghost use Rattle.std.specs.Prelude.{IfOk};
ghost use Rattle.ad_value.specs.declared.syntax.Syntax.TheVariants as syntax;
ghost use Rattle.ad_schema.specs.Classes.{classes_of, chain_of};
ghost use Rattle.ad_schema.specs.Meaning.{attr_is_back_link};
ghost use Rattle.ad_dir_objects.specs.Seen.{stored_seen};
ghost use Rattle.ad_dir.specs.Kept.{AreLive};
ghost use Rattle.ad_dir_model.specs.Objects.{is_live};
ghost use Rattle.ad_dir_model.specs.Attributes.{is_named, syntax_at};
ghost use Rattle.ad_dir_model.specs.Names.{name_text};
ghost use Rattle.ad_dir_model.specs.Shown as shown;

use crate::dir::Dir;
use crate::live::live_object;
use crate::names::dn_of;
use ad_dir_objects::{Stored, is_named, stored_of};
use ad_schema::{AttrId, ClassId, Schema};
use ad_value::{Syntax, Value, ValueFault, normal};
use std::alloc::{AllocError, Global};

// The value with these bytes in the place of what it shows.
fn showing(alloc: Global, value: Value, bytes: &[u8]) -> Result<Value, AllocError>
    ensures { IfOk result (λ showing. showing ≡ record { shown = bytes.now; key = value.key }) }
{
    if value.shown() == bytes {
        return Ok(value);
    }
    value.with_shown(alloc, bytes)
}

// The value that shows bytes and has the key of what the syntax reads, or else is compared by the bytes.
#[tactic(auto, unfolding(ad_dir_model::specs::Shown::computed))]
fn computed(alloc: Global, syntax: Syntax, bytes: &[u8]) -> Result<Value, AllocError>
    ensures { IfOk result (λ value. value ≡ shown.computed syntax bytes.now) }
{
    match normal(alloc, syntax, bytes) {
        Ok(value) => showing(alloc, value, bytes),
        Err(ValueFault::Memory) => Err(AllocError),
        Err(_) => Value::as_shown(alloc, bytes),
    }
}

// The one value that shows bytes.
fn one(alloc: Global, syntax: Syntax, bytes: &[u8]) -> Result<Vec<Value>, AllocError>
    ensures { IfOk result (λ values. values.items ≡ shown.computed syntax bytes.now ∷ []) }
{
    let mut values = Vec::new(alloc);
    values.push(computed(alloc, syntax, bytes)?)?;
    Ok(values)
}

// The one value that shows the name of a live object.
fn named(alloc: Global, dir: &Dir, syntax: Syntax, number: u32) -> Result<Vec<Value>, AllocError>
    requires { is_live dir.now.objects number ≡ true }
    ensures { IfOk result (λ values. values.items ≡ shown.computed syntax (name_text dir.now number)
        ∷ []) }
{
    let text = dn_of(alloc, dir, number)?.text(alloc)?;
    one(alloc, syntax, text.as_slice())
}

// The syntax of an attribute.
#[tactic(auto, unfolding(ad_dir_model::specs::Attributes::syntax_at))]
fn syntax_of(schema: &Schema, attr: AttrId) -> Syntax
    ensures { result ≡ syntax_at schema.now attr.0 }
{
    match schema.attrs().get(attr.0 as usize) {
        Some(info) => info.syntax,
        None => Syntax::Other,
    }
}

/// Whether an attribute shows the naming value of objects of a class.
pub fn is_naming(schema: &Schema, class: ClassId, attr: AttrId) -> bool
    requires { class.0 < length (classes_of schema.now) }
    ensures { result ≡ shown.is_naming schema.now class.0 attr.0 }
{
    is_named(schema, b"name", attr) || schema.class_info(class).naming.0 == attr.0
}

fn is_back_link(schema: &Schema, attr: AttrId) -> bool
    ensures { result ≡ attr_is_back_link schema.now attr.0 }
{
    (attr.0 as usize) < schema.attrs().len() && schema.is_back_link(attr)
}

// ---- objectClass

// The classes of a chain, each as a value, from the class up.
fn chain_values(
    alloc: Global,
    schema: &Schema,
    syntax: Syntax,
    class: ClassId,
) -> Result<Vec<Value>, AllocError>
    requires { class.0 < length (classes_of schema.now) }
    ensures { IfOk result (λ values. values.items
        ≡ map (λ c. shown.computed syntax (shown.class_name schema.now c))
        (chain_of schema.now class.0)) }
{
    ad_schema::chains_end();
    schema.make_schema();
    let mut values = Vec::new(alloc);
    let mut next = Some(class);
    while let Some(class) = next {
        let info = schema.class_info(class);
        values.push(computed(alloc, syntax, info.name.as_slice())?)?;
        next = info.above;
    }
    Ok(values)
}

fn class_values(
    alloc: Global,
    schema: &Schema,
    syntax: Syntax,
    class: ClassId,
) -> Result<Vec<Value>, AllocError>
    requires { class.0 < length (classes_of schema.now) }
    ensures { IfOk result (λ values. values.items ≡ map (shown.computed syntax)
        (shown.class_names schema.now class.0)) }
{
    let mut values = chain_values(alloc, schema, syntax, class)?;
    values.reverse();
    Ok(values)
}

// ---- stored values

// A stored value, and of a link to a live object the name of the object.
fn shown_value(
    alloc: Global,
    dir: &Dir,
    syntax: Syntax,
    stored: &Stored,
) -> Result<Value, AllocError>
    requires { AreLive dir.now.objects (stored_seen stored.now ∷ []) }
    ensures { IfOk result (λ value. value ≡ shown.shown_value dir.now syntax
        (stored_seen stored.now)) }
{
    match stored {
        Stored::Plain(value) => value.copy(alloc),
        Stored::Link(number) => {
            let text = dn_of(alloc, dir, *number)?.text(alloc)?;
            computed(alloc, syntax, text.as_slice())
        }
    }
}

fn stored_values(
    alloc: Global,
    dir: &Dir,
    syntax: Syntax,
    stored: &[Stored],
) -> Result<Vec<Value>, AllocError>
    requires { AreLive dir.now.objects (map stored_seen stored.now) }
    ensures { IfOk result (λ values. values.items ≡ map (shown.shown_value dir.now syntax)
        (map stored_seen stored.now)) }
{
    let mut values = Vec::new(alloc);
    for value in stored {
        values.push(shown_value(alloc, dir, syntax, value)?)?;
    }
    Ok(values)
}

/// What a live object shows of an attribute.
#[tactic(auto, unfolding(ad_dir_model::specs::Shown::shown))]
pub(crate) fn shown(
    alloc: Global,
    dir: &Dir,
    number: u32,
    attr: AttrId,
) -> Result<Vec<Value>, AllocError>
    requires { is_live dir.now.objects number ≡ true }
    ensures { IfOk result (λ values. values.items ≡ shown.shown dir.now number attr.0) }
{
    dir.invariants();
    let object = live_object(dir, number);
    let schema = dir.schema();
    let syntax = syntax_of(schema, attr);
    if is_named(schema, b"objectClass", attr) {
        return class_values(alloc, schema, syntax, object.class);
    }
    if is_named(schema, b"distinguishedName", attr) {
        return named(alloc, dir, syntax, number);
    }
    if is_naming(schema, object.class, attr) {
        return one(alloc, syntax, object.name.as_slice());
    }
    if is_back_link(schema, attr) {
        return Ok(Vec::new(alloc));
    }
    stored_values(
        alloc,
        dir,
        syntax,
        stored_of(object.values.as_slice(), attr),
    )
}

impl Dir {
    /// The values that a live object shows of an attribute, stored and computed: none of one that isn't the schema's.
    ///
    /// # Errors
    ///
    /// Out of memory.
    pub fn shown(&self, alloc: Global, number: u32, attr: AttrId) -> Result<Vec<Value>, AllocError>
        requires { is_live self.now.objects number ≡ true }
        ensures { IfOk result (λ values. values.items ≡ shown.shown self.now number attr.0) }
    {
        shown(alloc, self, number, attr)
    }
}
