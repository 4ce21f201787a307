//! The tokens of nodes.

ghost use Rattle.std.specs.Prelude.{◌≡◌, ◌<◌, ℕ, Some, None, List, [], length, slice_get, slice_set, IfOk};
ghost use Rattle.std.specs.Option.{option_copied};
ghost use Rattle.ad_ids.specs.declared.token.Token.{Token as TokenValue};
ghost use Rattle.ad_control_graph.specs.Drawing.{AreBelow};
ghost use Rattle.ad_control_graph.specs.declared.node.Node.{Node as NodeValue};
ghost use Rattle.ad_control.specs.Edges.{IsTokenIf};
ghost use Rattle.ad_control_nodes.specs.Ground.{IsGround};
ghost use Rattle.ad_control_lines.specs.Tables.{place_at, AreOwners};

use ad_control_nodes::Ground;
use ad_dir::Dir;
use ad_ids::Token;
use std::alloc::{AllocError, Global};

// Of so many nodes, that none has a token.
fn nobody(alloc: Global, count: usize) -> Result<Vec<Option<usize>>, AllocError>
    ensures long { IfOk result (λ owners. length owners.items ≡ count) }
    ensures none { IfOk result (λ owners. (x : ℕ) → place_at owners.items x ≡ None) }
{
    let mut owners = Vec::with_capacity(alloc, count)?;
    for _ in 0..count {
        owners.push(None)?;
    }
    Ok(owners)
}

// The token at a place is that of a node.
fn put(owners: &mut [Option<usize>], node: usize, place: usize)
    requires { node < length owners.old }
    ensures { owners.new ≡ slice_set owners.old node (Some place) }
{
    owners[node] = Some(place);
}

/// Of each of so many nodes the place of its token, if it has one: `at` has the node of each token.
///
/// # Errors
///
/// Out of memory.
pub(crate) fn owners_of(
    alloc: Global,
    count: usize,
    at: &[usize],
) -> Result<Vec<Option<usize>>, AllocError>
    requires { AreBelow count at.now }
    ensures { IfOk result (λ owners. AreOwners at.now (length at.now) owners.items) }
{
    let mut owners = nobody(alloc, count)?;
    for (place, node) in at.iter().enumerate() {
        put(&mut owners, *node, place);
    }
    Ok(owners)
}

// The place of the token of a node.
fn place_at(owners: &[Option<usize>], x: usize) -> Option<usize>
    ensures { result ≡ place_at owners.now x }
{
    match owners.get(x) {
        Some(place) => *place,
        None => None,
    }
}

/// The token of the node at a place, if it has one.
pub(crate) fn token_at<'a>(
    dir: &Dir,
    ground: &'a Ground,
    owners: &[Option<usize>],
    x: usize,
) -> Option<&'a Token>
    requires { AreOwners ground.now.at.items (length ground.now.at.items) owners.now }
    ensures token { (nodes : List NodeValue) (node : NodeValue) → IsGround dir.now nodes ground.entry.now
        → slice_get nodes x ≡ Some node → IsTokenIf dir.now node (option_copied result) }
    ensures alone { (nodes : List NodeValue) (token : TokenValue) → IsGround dir.now nodes ground.entry.now
        → option_copied result ≡ Some token → token.restricting ≡ [] }
{
    match place_at(owners, x) {
        Some(place) => ground.parties.tokens.get(place),
        None => None,
    }
}
