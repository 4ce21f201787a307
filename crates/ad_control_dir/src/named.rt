//! The node that a text names.

ghost use Rattle.std.specs.Prelude.{◌≡◌, true, Some, IfOk};
ghost use Rattle.ad_bytes.specs.Reading.{GivesUnless};
ghost use Rattle.ad_ids.specs.SidFront.{sid_of_text};
ghost use Rattle.ad_dir_model.specs.Identity.{with_sid};
ghost use Rattle.ad_principals.specs.Named.{or_no_object, is_memory, named};
ghost use Rattle.ad_identities.specs.Identities.{is_without_principal};
ghost use Rattle.ad_control.specs.Edges.{is_node};
ghost use Rattle.ad_control_dir.specs.Control.{object_node, sid_node, node_named};

use ad_control_graph::Node;
use ad_dir::Dir;
use ad_identities::identity_named;
use ad_ids::Sid;
use ad_principals::{NameFault, principal_named, sid_of_text};
use std::alloc::{AllocError, Global};

// Whether the identifier of a text counts without a principal.
fn is_alone(alloc: Global, dir: &Dir, text: &[u8], sid: &Sid) -> Result<bool, AllocError>
    requires { sid_of_text text.now ≡ Some sid.now }
    ensures { IfOk result (λ is. is ≡ is_without_principal dir.now sid.now) }
{
    match identity_named(alloc, dir, text) {
        Ok(Some(identity)) => Ok(identity.number.is_none()),
        Ok(None) => Ok(false),
        Err(NameFault::NoObject) => Ok(false),
        Err(NameFault::Several) => Ok(false),
        Err(NameFault::Memory) => Err(AllocError),
    }
}

// The object of an identifier.
fn with_sid(dir: &Dir, sid: &Sid) -> Result<Node, NameFault>
    ensures named { result ≡ object_node (or_no_object (with_sid dir.now sid.now)) }
    ensures node { IfOk result (λ node. is_node dir.now node ≡ true) }
{
    dir.invariants();
    match dir.with_sid(sid) {
        Some(number) => Ok(Node::Object(number)),
        None => Err(NameFault::NoObject),
    }
}

// The node of the identifier of a text.
fn sid_node(alloc: Global, dir: &Dir, text: &[u8], sid: &Sid) -> Result<Node, NameFault>
    requires { sid_of_text text.now ≡ Some sid.now }
    ensures named { GivesUnless is_memory (λ node. node) result (sid_node dir.now sid.now) }
    ensures node { IfOk result (λ node. is_node dir.now node ≡ true) }
{
    match is_alone(alloc, dir, text, sid) {
        Ok(true) => Ok(Node::Identifier(*sid)),
        Ok(false) => with_sid(dir, sid),
        Err(AllocError) => Err(NameFault::Memory),
    }
}

// The object of a name.
fn object_named(alloc: Global, dir: &Dir, text: &[u8]) -> Result<Node, NameFault>
    ensures named { GivesUnless is_memory (λ node. node) result (object_node (named dir.now text.now)) }
    ensures node { IfOk result (λ node. is_node dir.now node ≡ true) }
{
    match principal_named(alloc, dir, text) {
        Ok(number) => Ok(Node::Object(number)),
        Err(NameFault::NoObject) => Err(NameFault::NoObject),
        Err(NameFault::Several) => Err(NameFault::Several),
        Err(NameFault::Memory) => Err(NameFault::Memory),
    }
}

/// The node that a text names: an identifier that counts without a principal by its text, and any other by the text
/// that [names its object](ad_principals::principal_named).
///
/// # Errors
///
/// Those of [`principal_named`](ad_principals::principal_named).
#[tactic(auto, unfolding(crate::specs::Control::node_named))]
pub(crate) fn node_named(alloc: Global, dir: &Dir, text: &[u8]) -> Result<Node, NameFault>
    ensures named { GivesUnless is_memory (λ node. node) result (node_named dir.now text.now) }
    ensures node { IfOk result (λ node. is_node dir.now node ≡ true) }
{
    match sid_of_text(text) {
        Some(sid) => sid_node(alloc, dir, text, &sid),
        None => object_named(alloc, dir, text),
    }
}
