//! Which right a text asks for, and on which path.

ghost use Rattle.std.specs.Prelude.{◌≡◌, ◌<◌, true, length, IfSome};
ghost use Rattle.ad_schema.specs.Attributes.{attr_named, attrs_of, rights_of};
ghost use Rattle.ad_schema.specs.Classes.{classes_of};
ghost use Rattle.ad_types.specs.Path.{guids_of};
ghost use Rattle.ad_dir_model.specs.Objects.{is_live};
ghost use Rattle.ad_questions.specs.Asked.{is_property_right, is_child_right, right_named, class_guid, named_on};
ghost use Rattle.ad_questions.specs.Asked.{on_attribute, on_type, asked_behind, asked_of, path_on, path_at, IsOn, IsAsked};

use crate::codes::bit_of;
use ad_dir::{Dir, class_of};
use ad_ids::Guid;
use ad_schema::{AttrId, ClassId, RightInfo, Schema};
use ad_schema_classes::same_name;
use ad_types::{Path, path};

/// What a right is asked for on.
#[derive(Clone, Copy, Debug, PartialEq, Eq)]
pub enum On {
    /// The object as a whole.
    Whole,
    /// An attribute of it.
    OfAttribute(AttrId),
    /// What a GUID alone represents: an extended right, a validated write or a class.
    OfType(Guid),
}

/// A right that is asked for, by its place in a mask.
#[derive(Clone, Copy, Debug, PartialEq, Eq)]
pub struct Asked {
    pub bit: u32,
    pub on: On,
}

/// validAccesses of an extended right.
const EXTENDED: u32 = 256;

/// validAccesses of a validated write.
const VALIDATED: u32 = 8;

// The first right of the kind that has the name.
#[tactic(auto, unfolding(crate::specs::Asked::right_named))]
fn right_named(rights: &[RightInfo], kind: u32, name: &[u8]) -> Option<Guid>
    ensures { result ≡ right_named rights.now kind name.now }
{
    for right in rights {
        if right.accesses == kind && same_name(right.name.as_slice(), name) {
            return Some(right.guid);
        }
    }
    None
}

// The GUID of the class of a name.
#[tactic(auto, unfolding(crate::specs::Asked::class_guid))]
fn class_guid(schema: &Schema, name: &[u8]) -> Option<Guid>
    ensures { result ≡ class_guid schema.now name.now }
{
    match schema.class(name) {
        Some(class) => Some(schema.class_info(class).guid),
        None => None,
    }
}

fn is_property_right(bit: u32) -> bool
    ensures { result ≡ is_property_right bit }
{
    bit == 4 || bit == 5
}

fn is_child_right(bit: u32) -> bool
    ensures { result ≡ is_child_right bit }
{
    bit == 0 || bit == 1
}

fn on_type(guid: Option<Guid>) -> Option<On>
    ensures { result ≡ on_type guid }
{
    match guid {
        Some(guid) => Some(On::OfType(guid)),
        None => None,
    }
}

fn on_attribute(attr: Option<AttrId>) -> Option<On>
    ensures { result ≡ on_attribute attr }
{
    match attr {
        Some(attr) => Some(On::OfAttribute(attr)),
        None => None,
    }
}

// What a name after a right is of.
#[tactic(auto, unfolding(crate::specs::Asked::named_on))]
fn named_on(schema: &Schema, bit: u32, name: &[u8]) -> Option<On>
    ensures named { result ≡ named_on schema.now bit name.now }
    ensures on { IfSome result (IsOn schema.now) }
{
    if is_property_right(bit) {
        return on_attribute(schema.attr(name));
    }
    if is_child_right(bit) {
        return on_type(class_guid(schema, name));
    }
    if bit == 8 {
        return on_type(right_named(schema.rights(), EXTENDED, name));
    }
    if bit == 3 {
        return on_type(right_named(schema.rights(), VALIDATED, name));
    }
    None
}

// The right, by what stands after its letters: nothing, or a colon and a name.
#[tactic(auto, unfolding(crate::specs::Asked::asked_behind))]
fn asked_behind(schema: &Schema, bit: u32, behind: &[u8]) -> Option<Asked>
    requires { bit < 20 }
    ensures asked { result ≡ asked_behind schema.now bit behind.now }
    ensures known { IfSome result (IsAsked schema.now) }
{
    match behind.split_first() {
        None => Some(Asked { bit, on: On::Whole }),
        Some((colon, name)) => {
            if *colon != b':' {
                return None;
            }
            match named_on(schema, bit, name) {
                Some(on) => Some(Asked { bit, on }),
                None => None,
            }
        }
    }
}

/// The right that a text asks for: one of thirteen codes, `CC DC LC SW RP WP DT LO CR SD RC WD WO`, by itself for the
/// object as a whole, or with a colon and a name, without regard to ASCII case: of an attribute after `RP` and `WP`,
/// of a class after `CC` and `DC`, of an extended right after `CR` and of a validated write after `SW`. None where it
/// is no such text, or nothing has the name.
#[tactic(auto, unfolding(crate::specs::Asked::asked_of))]
pub fn right_asked(schema: &Schema, text: &[u8]) -> Option<Asked>
    ensures asked { result ≡ asked_of schema.now text.now }
    ensures known { IfSome result (IsAsked schema.now) }
{
    if text.len() < 2 {
        return None;
    }
    let (letters, behind) = text.split_at(2);
    match bit_of(letters) {
        Some(bit) => asked_behind(schema, bit, behind),
        None => None,
    }
}

/// The path that a right is asked for on, of an object of a class ([MS-ADTS] 5.1.3). The ids are of this schema.
#[tactic(auto, unfolding(crate::specs::Asked::path_on))]
pub fn path_on(schema: &Schema, class: ClassId, on: On) -> Path
    requires class { class.0 < length (classes_of schema.now) }
    requires on { IsOn schema.now on }
    ensures { guids_of result ≡ path_on schema.now class on }
{
    match on {
        On::Whole => Path::empty(),
        On::OfAttribute(attr) => path(schema, class, attr),
        On::OfType(guid) => Path::one(guid),
    }
}

/// The same of a live object, by its class.
#[tactic(auto, unfolding(crate::specs::Asked::path_at))]
pub fn path_at(dir: &Dir, number: u32, on: On) -> Path
    requires live { is_live dir.now.objects number ≡ true }
    requires on { IsOn dir.now.schema on }
    ensures { guids_of result ≡ path_at dir.now number on }
{
    path_on(dir.schema(), class_of(dir, number), on)
}
