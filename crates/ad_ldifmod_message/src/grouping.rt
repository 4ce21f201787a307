//! The lines of a new object by their names.

ghost use Rattle.std.specs.Prelude.{◌≡◌, ◌<◌, ◌++◌, [], ◌∷◌, map, length, OnOk, IfOk};
ghost use Rattle.ad_ldif.specs.Records.{field_of};
ghost use Rattle.ad_ldifmod_message.specs.Asked.{and_line, grouped};
ghost use Rattle.ad_ldifmod_message.specs.Grouping.{with_value};

use ad_bytes::{Bytes, List};
use ad_ldif::LdifLine;
use ad_schema_classes::Names;
use std::alloc::{AllocError, Global};

// Puts a value after those of the attribute at a place.
fn put_value(
    attrs: &mut Vec<(Bytes, List<Bytes>)>,
    place: usize,
    value: Bytes,
) -> Result<(), AllocError>
    requires { place < length attrs.old.items }
    ensures { OnOk result (attrs.new.items ≡ with_value place value attrs.old.items) }
{
    attrs[place].1.push(value)
}

// Puts an attribute with its first value at the end.
fn put_first(
    alloc: Global,
    names: &mut Names,
    attrs: &mut Vec<(Bytes, List<Bytes>)>,
    name: &[u8],
    value: Bytes,
) -> Result<(), AllocError>
    ensures names { OnOk result (names.new ≡ names.old ++ name.now ∷ []) }
    ensures attrs { OnOk result (attrs.new.items ≡ attrs.old.items ++ (name.now, value ∷ []) ∷ []) }
{
    if names.len() >= u32::MAX as usize {
        return Err(AllocError);
    }
    let mut values = List::new(alloc);
    values.push(value)?;
    attrs.push((Bytes::from_slice(alloc, name)?, values))?;
    names.push(Bytes::from_slice(alloc, name)?)
}

// Puts a line's value after those of its name. `names` are the names of the attributes so far.
fn put_line(
    alloc: Global,
    names: &mut Names,
    attrs: &mut Vec<(Bytes, List<Bytes>)>,
    line: &LdifLine,
) -> Result<(), AllocError>
    requires { names.old ≡ map (λ a. a.0) attrs.old.items }
    ensures names { OnOk result (names.new ≡ map (λ a. a.0) attrs.new.items) }
    ensures attrs { OnOk result (attrs.new.items ≡ and_line attrs.old.items (field_of line.now)) }
{
    let value = Bytes::from_slice(alloc, line.value())?;
    match names.find(line.name.as_slice()) {
        Some(place) => put_value(attrs, place as usize, value),
        None => put_first(alloc, names, attrs, line.name.as_slice(), value),
    }
}

/// The lines' values by their names. A name is looked for by its hash, so that a line costs the same however many
/// there are.
pub(crate) fn grouped(
    alloc: Global,
    lines: &[LdifLine],
) -> Result<List<(Bytes, List<Bytes>)>, AllocError>
    ensures { IfOk result (λ attrs. attrs ≡ grouped (map field_of lines.now)) }
{
    let mut names = Names::new(alloc);
    let mut attrs = Vec::new(alloc);
    'lines: for line in lines {
        put_line(alloc, &mut names, &mut attrs, line)?;
    }
    Ok(List::from_vec(attrs))
}
