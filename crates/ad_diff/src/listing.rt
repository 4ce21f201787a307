//! The lines of groups.

ghost use Rattle.std.specs.Prelude.{◌≡◌, ◌++◌, true, All, OnOk};
ghost use Rattle.std.specs.List.{flat_map};
ghost use Rattle.ad_dir_model.specs.Objects.{is_live};
ghost use Rattle.ad_diff.specs.Text.{principal_line, object_line, blocks_text};

use crate::numbering::Grouped;
use crate::pieces::{put_number, put_sid_of};
use ad_dir::Dir;
use ad_principals::{put, put_name};
use std::alloc::{AllocError, Global};

#[tactic(auto, unfolding(crate::specs::Text::principal_line))]
fn put_principal_line(
    alloc: Global,
    into: &mut Vec<u8>,
    after: &Dir,
    g: Grouped,
) -> Result<(), AllocError>
    requires { is_live after.now.objects g.both.after ≡ true }
    ensures { OnOk result (into.new.items ≡ into.old.items ++ principal_line after.now g) }
{
    if g.group == 0 {
        return Ok(());
    }
    put(into, b"principal ")?;
    put_number(into, g.group)?;
    put_sid_of(alloc, into, after, g.both.after)?;
    put_name(alloc, into, after, g.both.after)
}

/// The lines of principals in groups.
///
/// # Errors
///
/// Out of memory.
pub(crate) fn put_principal_lines(
    alloc: Global,
    into: &mut Vec<u8>,
    after: &Dir,
    groups: &[Grouped],
) -> Result<(), AllocError>
    requires { All (λ g. is_live after.now.objects g.both.after ≡ true) groups.now }
    ensures { OnOk result (into.new.items ≡ into.old.items
        ++ flat_map (principal_line after.now) groups.now) }
{
    for g in groups {
        put_principal_line(alloc, into, after, *g)?;
    }
    Ok(())
}

#[tactic(auto, unfolding(crate::specs::Text::object_line))]
fn put_object_line(
    alloc: Global,
    into: &mut Vec<u8>,
    after: &Dir,
    g: Grouped,
) -> Result<(), AllocError>
    requires { is_live after.now.objects g.both.after ≡ true }
    ensures { OnOk result (into.new.items ≡ into.old.items ++ object_line after.now g) }
{
    if g.group == 0 {
        return Ok(());
    }
    put(into, b"object ")?;
    put_number(into, g.group)?;
    put_name(alloc, into, after, g.both.after)
}

/// The lines of objects in groups.
///
/// # Errors
///
/// Out of memory.
pub(crate) fn put_object_lines(
    alloc: Global,
    into: &mut Vec<u8>,
    after: &Dir,
    groups: &[Grouped],
) -> Result<(), AllocError>
    requires { All (λ g. is_live after.now.objects g.both.after ≡ true) groups.now }
    ensures { OnOk result (into.new.items ≡ into.old.items
        ++ flat_map (object_line after.now) groups.now) }
{
    for g in groups {
        put_object_line(alloc, into, after, *g)?;
    }
    Ok(())
}

// ---- both, before what stands in the table

/// The lines of principals and of objects, and those of the table; none where the table has none.
///
/// # Errors
///
/// Out of memory.
pub(crate) fn put_blocks(
    alloc: Global,
    into: &mut Vec<u8>,
    after: &Dir,
    principals: &[Grouped],
    objects: &[Grouped],
    table: &[u8],
) -> Result<(), AllocError>
    requires principals { All (λ g. is_live after.now.objects g.both.after ≡ true) principals.now }
    requires objects { All (λ g. is_live after.now.objects g.both.after ≡ true) objects.now }
    ensures { OnOk result (into.new.items ≡ into.old.items
        ++ blocks_text after.now principals.now objects.now table.now) }
{
    match table {
        [] => Ok(()),
        table => {
            put_principal_lines(alloc, into, after, principals)?;
            put_object_lines(alloc, into, after, objects)?;
            put(into, table)
        }
    }
}
