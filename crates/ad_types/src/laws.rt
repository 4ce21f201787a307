//! What follows for every tree, as contracts of functions that do nothing.

ghost use Rattle.std.specs.Prelude.{◌≡◌, ◌<◌, ℕ, List, All, Some, true, length, slice_get};
ghost use Rattle.ad_schema.specs.declared.line.SchemaRecord.{SchemaRecord};
ghost use Rattle.ad_schema.specs.declared.info.AttrId.{AttrId as Attr};
ghost use Rattle.ad_schema.specs.declared.info.ClassId.{ClassId as Class};
ghost use Rattle.ad_schema.specs.Attributes.{attrs_of};
ghost use Rattle.ad_schema.specs.Classes.{classes_of};
ghost use Rattle.ad_types.specs.declared.type_tree.Node.{Node as NodeValue};
ghost use Rattle.ad_types.specs.Tree.{is_tree, IsPlaced};
ghost use Rattle.ad_types.specs.TypesOf.{HasLeaves};

/// The path of a node is that of the node above it and its own GUID, its children are the nodes that name it, and
/// it is a leaf where none does.
pub fn nodes_are_placed()
    ensures { (nodes : List NodeValue) → is_tree nodes ≡ true → (place : ℕ) (node : NodeValue)
        → slice_get nodes place ≡ Some node → IsPlaced nodes place node }
{}

/// In the tree of attributes of a class each attribute has a leaf, whose path is the attribute's.
pub fn attributes_are_leaves()
    ensures { (records : List SchemaRecord) (class : Class) (attrs : List Attr)
        → class.0 < length (classes_of records)
        → All (λ attr. attr.0 < length (attrs_of records)) attrs
        → HasLeaves records class attrs }
{}
