//! What is known of each node.

ghost use Rattle.std.specs.Prelude.{◌≡◌, ℕ, None, length, IfOk};
ghost use Rattle.ad_chains.specs.Chain.{link_at};

use std::alloc::{AllocError, Global};

/// What is told of a node from which a chain leads: the length of the shortest, and the place of its first edge among
/// the edges, or none at the end itself.
#[derive(Clone, Copy, Debug, PartialEq, Eq)]
pub struct Link {
    pub length: usize,
    pub step: Option<usize>,
}

/// Nothing is known of so many nodes.
pub(crate) fn blank(alloc: Global, count: usize) -> Result<Vec<Option<Link>>, AllocError>
    ensures long { IfOk result (λ links. length links.items ≡ count) }
    ensures blank { IfOk result (λ links. (x : ℕ) → link_at links.items x ≡ None) }
{
    let mut links = Vec::with_capacity(alloc, count)?;
    for _ in 0..count {
        links.push(None)?;
    }
    Ok(links)
}
