//! Access masks: the rights, and the mapping of the generic ones ([MS-ADTS] 5.1.3.2).

ghost use Rattle.std.specs.Prelude.{◌≡◌, ℕ, ◌<◌, ◌^◌, ◌&&◌};
ghost use Rattle.ad_acl.specs.Mask.{has_bit, mapped_has, create_child, delete_child, list_children, self_write};
ghost use Rattle.ad_acl.specs.Mask.{read_property, write_property, delete_tree, list_object, control_access};
ghost use Rattle.ad_acl.specs.Mask.{delete_object, read_control, write_dac, write_owner, access_system_security};
ghost use Rattle.ad_acl.specs.Mask.{generic_all, generic_execute, generic_write, generic_read};

/// To create a child.
pub const CREATE_CHILD: u32 = 0x1;
/// To delete a child.
pub const DELETE_CHILD: u32 = 0x2;
/// To list the children.
pub const LIST_CHILDREN: u32 = 0x4;
/// To do a validated write.
pub const SELF_WRITE: u32 = 0x8;
/// To read a property.
pub const READ_PROPERTY: u32 = 0x10;
/// To write a property.
pub const WRITE_PROPERTY: u32 = 0x20;
/// To delete the object with all that is below it.
pub const DELETE_TREE: u32 = 0x40;
/// To list the object itself.
pub const LIST_OBJECT: u32 = 0x80;
/// To do what an extended right names.
pub const CONTROL_ACCESS: u32 = 0x100;
/// To delete the object.
pub const DELETE: u32 = 0x1_0000;
/// To read the security descriptor, without its system access control list.
pub const READ_CONTROL: u32 = 0x2_0000;
/// To write the discretionary access control list.
pub const WRITE_DAC: u32 = 0x4_0000;
/// To write the owner.
pub const WRITE_OWNER: u32 = 0x8_0000;
/// To read and write the system access control list.
pub const ACCESS_SYSTEM_SECURITY: u32 = 0x100_0000;
/// Stands for all rights of objects and of descriptors.
pub const GENERIC_ALL: u32 = 0x1000_0000;
/// Stands for [`READ_CONTROL`] and [`LIST_CHILDREN`].
pub const GENERIC_EXECUTE: u32 = 0x2000_0000;
/// Stands for [`READ_CONTROL`], [`WRITE_PROPERTY`] and [`SELF_WRITE`].
pub const GENERIC_WRITE: u32 = 0x4000_0000;
/// Stands for [`READ_CONTROL`], [`READ_PROPERTY`], [`LIST_CHILDREN`] and [`LIST_OBJECT`].
pub const GENERIC_READ: u32 = 0x8000_0000;

// Every right that is not generic.
const SPECIFIC: u32 = 0x0fff_ffff;

// What each generic right represents.
const ALL_RIGHTS: u32 = CREATE_CHILD
    | DELETE_CHILD
    | LIST_CHILDREN
    | SELF_WRITE
    | READ_PROPERTY
    | WRITE_PROPERTY
    | DELETE_TREE
    | LIST_OBJECT
    | CONTROL_ACCESS
    | DELETE
    | READ_CONTROL
    | WRITE_DAC
    | WRITE_OWNER;

const EXECUTE_RIGHTS: u32 = READ_CONTROL | LIST_CHILDREN;

const WRITE_RIGHTS: u32 = READ_CONTROL | WRITE_PROPERTY | SELF_WRITE;

const READ_RIGHTS: u32 = READ_CONTROL | READ_PROPERTY | LIST_CHILDREN | LIST_OBJECT;

// The rights, where the mask has the generic right that represents them; else none.
#[inline]
fn stood_for(mask: u32, generic: u32, rights: u32) -> u32
    ensures { (place bit : ℕ) → generic ≡ 2 ^ place → has_bit result bit
        ≡ (has_bit mask place && has_bit rights bit) }
{
    if mask & generic == 0 { 0 } else { rights }
}

/// The mask with each generic right replaced by the rights that it represents. It has no generic right.
#[inline]
pub fn map_generic(mask: u32) -> u32
    ensures { (bit : ℕ) → bit < 32 → has_bit result bit ≡ mapped_has mask bit }
{
    mask & SPECIFIC
        | stood_for(mask, GENERIC_ALL, ALL_RIGHTS)
        | stood_for(mask, GENERIC_EXECUTE, EXECUTE_RIGHTS)
        | stood_for(mask, GENERIC_WRITE, WRITE_RIGHTS)
        | stood_for(mask, GENERIC_READ, READ_RIGHTS)
}

/// Each constant of a right is the mask of that right's bit.
pub fn each_right_is_its_bit()
    ensures create_child { CREATE_CHILD ≡ 2 ^ create_child }
    ensures delete_child { DELETE_CHILD ≡ 2 ^ delete_child }
    ensures list_children { LIST_CHILDREN ≡ 2 ^ list_children }
    ensures self_write { SELF_WRITE ≡ 2 ^ self_write }
    ensures read_property { READ_PROPERTY ≡ 2 ^ read_property }
    ensures write_property { WRITE_PROPERTY ≡ 2 ^ write_property }
    ensures delete_tree { DELETE_TREE ≡ 2 ^ delete_tree }
    ensures list_object { LIST_OBJECT ≡ 2 ^ list_object }
    ensures control_access { CONTROL_ACCESS ≡ 2 ^ control_access }
    ensures delete { DELETE ≡ 2 ^ delete_object }
    ensures read_control { READ_CONTROL ≡ 2 ^ read_control }
    ensures write_dac { WRITE_DAC ≡ 2 ^ write_dac }
    ensures write_owner { WRITE_OWNER ≡ 2 ^ write_owner }
    ensures access_system_security { ACCESS_SYSTEM_SECURITY ≡ 2 ^ access_system_security }
    ensures generic_all { GENERIC_ALL ≡ 2 ^ generic_all }
    ensures generic_execute { GENERIC_EXECUTE ≡ 2 ^ generic_execute }
    ensures generic_write { GENERIC_WRITE ≡ 2 ^ generic_write }
    ensures generic_read { GENERIC_READ ≡ 2 ^ generic_read }
{}
