//! The edges by the node that they lead to.

ghost use Rattle.std.specs.Prelude.{◌≡◌, ◌<◌, ◌++◌, ℕ, [], ◌∷◌, length, IfOk, OnOk};
ghost use Rattle.ad_chains.specs.Work.{IsWithin, listed, Puts, IsIndexOf};

use crate::edge::Edge;
use std::alloc::{AllocError, Global};

/// So many empty rows.
fn rows(alloc: Global, count: usize) -> Result<Vec<Vec<usize>>, AllocError>
    ensures long { IfOk result (λ found. length found.items ≡ count) }
    ensures empty { IfOk result (λ found. (y : ℕ) → listed found.items y ≡ []) }
{
    let mut found = Vec::with_capacity(alloc, count)?;
    for _ in 0..count {
        found.push(Vec::new(alloc))?;
    }
    Ok(found)
}

// Puts a place at the end of a row.
fn put(rows: &mut [Vec<usize>], node: usize, place: usize) -> Result<(), AllocError>
    requires { node < length rows.old }
    ensures { OnOk result (Puts rows.old node place rows.new) }
{
    rows[node].push(place)?;
    Ok(())
}

/// The places of the edges that lead to a node.
pub(crate) fn listed(index: &[Vec<usize>], node: usize) -> &[usize]
    ensures { result.now ≡ listed index.entry.now node }
{
    match index.get(node) {
        Some(places) => places.as_slice(),
        None => &[],
    }
}

/// The index of the edges: of each node the places of those that lead to it.
pub(crate) fn index_of(
    alloc: Global,
    count: usize,
    edges: &[Edge],
) -> Result<Vec<Vec<usize>>, AllocError>
    requires { IsWithin count edges.now }
    ensures { IfOk result (λ index. IsIndexOf edges.now index.items) }
{
    let mut index = rows(alloc, count)?;
    for (place, edge) in edges.iter().enumerate() {
        put(&mut index, edge.to, place)?;
    }
    Ok(index)
}
