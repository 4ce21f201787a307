//! The tree of attributes of a class.

ghost use Rattle.std.specs.Prelude.{◌≡◌, ◌<◌, ◌++◌, ◌∷◌, [], All, length, map, IfOk, IfSome, OnOk, position};
ghost use Rattle.std.specs.List.{list_any};
ghost use Rattle.ad_schema.specs.Attributes.{attrs_of};
ghost use Rattle.ad_ids.specs.Guid.{same_guid};
ghost use Rattle.ad_schema.specs.Classes.{classes_of};
ghost use Rattle.ad_types.specs.TypesOf.{infos_at, with_set, sets_behind, above_attr, attr_node};
ghost use Rattle.ad_types.specs.TypesOf.{set_node, nodes_of, tree_of};

use crate::type_tree::{Node, TypeTree};
use ad_ids::Guid;
use ad_schema::{AttrId, AttrInfo, ClassId, Schema};
use std::alloc::{AllocError, Global};

fn is_seen(sets: &[Guid], set: Guid) -> bool
    ensures { result ≡ list_any (λ other. same_guid other set) sets.now }
{
    sets.iter().any(|other| other.bytes == set.bytes)
}

/// Puts a set after the others, where it is new.
#[tactic(auto, unfolding(crate::specs::TypesOf::with_set))]
fn note_set(sets: &mut Vec<Guid>, set: Option<Guid>) -> Result<(), AllocError>
    ensures { OnOk result (sets.new.items ≡ with_set sets.old.items set) }
{
    let Some(set) = set else {
        return Ok(());
    };
    if is_seen(sets.as_slice(), set) {
        return Ok(());
    }
    sets.push(set)?;
    Ok(())
}

/// The sets of these attributes, by first use.
fn sets_of(alloc: Global, schema: &Schema, attrs: &[AttrId]) -> Result<Vec<Guid>, AllocError>
    requires { All (λ attr. attr.0 < length (attrs_of schema.now)) attrs.now }
    ensures { IfOk result (λ sets. sets.items ≡ sets_behind [] (infos_at schema.now attrs.now)) }
{
    let mut sets = Vec::new(alloc);
    for attr in attrs {
        let info = schema.attr_info(*attr);
        note_set(&mut sets, info.set)?;
    }
    Ok(sets)
}

fn place_of(sets: &[Guid], set: Guid) -> Option<usize>
    ensures place { result ≡ position (λ other. same_guid other set) sets.now }
    ensures within { IfSome result (λ place. place < length sets.now) }
{
    sets.iter().position(|other| other.bytes == set.bytes)
}

/// The place of the node above an attribute: that of its set, or of the class.
#[tactic(auto, unfolding(crate::specs::TypesOf::above_attr))]
fn above_attr(sets: &[Guid], set: Option<Guid>) -> usize
    ensures { result ≡ above_attr sets.now set }
{
    let Some(set) = set else {
        return 0;
    };
    match place_of(sets, set) {
        Some(place) => place + 1,
        None => 0,
    }
}

fn attr_node(sets: &[Guid], info: &AttrInfo) -> Node
    ensures { result ≡ attr_node sets.now info.now }
{
    Node {
        guid: info.guid,
        above: Some(above_attr(sets, info.set)),
    }
}

/// Puts the nodes of the sets after that of the class.
fn push_sets(nodes: &mut Vec<Node>, sets: &[Guid]) -> Result<(), AllocError>
    ensures { OnOk result (nodes.new.items ≡ nodes.old.items ++ map set_node sets.now) }
{
    for set in sets {
        nodes.push(Node {
            guid: *set,
            above: Some(0),
        })?;
    }
    Ok(())
}

/// Puts the nodes of the attributes after those of the sets.
fn push_attrs(
    nodes: &mut Vec<Node>,
    sets: &[Guid],
    schema: &Schema,
    attrs: &[AttrId],
) -> Result<(), AllocError>
    requires { All (λ attr. attr.0 < length (attrs_of schema.now)) attrs.now }
    ensures { OnOk result (nodes.new.items
        ≡ nodes.old.items ++ map (attr_node sets.now) (infos_at schema.now attrs.now)) }
{
    for attr in attrs {
        let info = schema.attr_info(*attr);
        nodes.push(attr_node(sets, info))?;
    }
    Ok(())
}

/// The nodes of the tree.
fn nodes_of(
    alloc: Global,
    class: Guid,
    schema: &Schema,
    attrs: &[AttrId],
) -> Result<Vec<Node>, AllocError>
    requires { All (λ attr. attr.0 < length (attrs_of schema.now)) attrs.now }
    ensures { IfOk result (λ nodes. nodes.items ≡ nodes_of class
        (sets_behind [] (infos_at schema.now attrs.now)) (infos_at schema.now attrs.now)) }
{
    let sets = sets_of(alloc, schema, attrs)?;
    let mut nodes = Vec::new(alloc);
    nodes.push(Node {
        guid: class,
        above: None,
    })?;
    push_sets(&mut nodes, sets.as_slice())?;
    push_attrs(&mut nodes, sets.as_slice(), schema, attrs)?;
    Ok(nodes)
}

impl TypeTree {
    /// The tree of attributes of a class ([MS-ADTS] 5.1.3): the node of the class; below it those of the attributes'
    /// property sets by first use; then those of the attributes in the order given, each below its set, or below the
    /// class where it has none. The ids are of this schema.
    pub fn build(
        alloc: Global,
        schema: &Schema,
        class: ClassId,
        attrs: &[AttrId],
    ) -> Result<TypeTree, AllocError>
        requires class { class.0 < length (classes_of schema.now) }
        requires attrs { All (λ attr. attr.0 < length (attrs_of schema.now)) attrs.now }
        ensures { IfOk result (λ tree. tree ≡ tree_of schema.now class attrs.now) }
    {
        let class = schema.class_info(class).guid;
        let nodes = nodes_of(alloc, class, schema, attrs)?;
        Ok(TypeTree::new(nodes).unwrap())
    }
}
