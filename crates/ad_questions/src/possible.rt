//! For which objects a request can be.

ghost use Rattle.std.specs.Prelude.{◌≡◌, ◌<◌, ◌==◌, not, true, length, slice_get, Some, IfSome};
ghost use Rattle.std.specs.Option.{option_map};
ghost use Rattle.ad_schema.specs.Attributes.{attrs_of};
ghost use Rattle.ad_schema.specs.Classes.{naming_of};
ghost use Rattle.ad_constructed.specs.Listed.{is_replaceable, is_object_sid};
ghost use Rattle.ad_dir_model.specs.Objects.{is_live};
ghost use Rattle.ad_dir_model.specs.Attributes.{attr_place, member};
ghost use Rattle.ad_needs_rules.specs.Requests.{class_at};
ghost use Rattle.ad_entries.specs.Seen.{is_never_read};
ghost use Rattle.ad_questions.specs.Question.{IsQuestion};
ghost use Rattle.ad_questions.specs.Requests.{passes, is_shown, is_written, has, is_added, is_for};

use crate::question::Question;
use ad_dir::{Dir, ROOT, class_of, naming_of};
use ad_schema::{AttrId, AttrInfo, ClassId, RuleAttr, Schema, is_computed};
use ad_schema_classes::same_name;
use ad_schema_defaults::{is_schema_class, is_structural};

// ---- attributes

#[tactic(auto, unfolding(ad_entries::specs::Seen::is_never_read))]
fn is_never_read(name: &[u8]) -> bool
    ensures { result ≡ is_never_read name.now }
{
    same_name(name, b"unicodePwd")
        || same_name(name, b"nTSecurityDescriptor")
        || same_name(name, b"allowedAttributesEffective")
        || same_name(name, b"allowedChildClassesEffective")
        || same_name(name, b"sDRightsEffective")
}

// Values of the attribute are shown to who may read them.
#[tactic(auto, unfolding(crate::specs::Requests::passes))]
fn is_shown(schema: &Schema, attr: AttrId) -> bool
    requires { attr.0 < length (attrs_of schema.now) }
    ensures { result ≡ passes schema.now is_shown attr.0 }
{
    !is_never_read(schema.attr_info(attr).name.as_slice())
}

fn is_naming(dir: &Dir, number: u32, attr: AttrId) -> bool
    requires { is_live dir.now.objects number ≡ true }
    ensures { result ≡ (naming_of dir.now.schema (class_at dir.now number) == attr.0) }
{
    naming_of(dir, number).0 == attr.0
}

fn is_object_sid(schema: &Schema, attr: AttrId) -> bool
    ensures { result ≡ is_object_sid schema.now attr.0 }
{
    match schema.attr_of_rule(RuleAttr::ObjectSid) {
        Some(sid) => sid.0 == attr.0,
        None => false,
    }
}

// Its values can be replaced.
#[tactic(auto, unfolding(ad_constructed::specs::Listed::is_replaceable))]
fn is_replaceable(dir: &Dir, number: u32, attr: AttrId, info: &AttrInfo) -> bool
    requires live { is_live dir.now.objects number ≡ true }
    requires attr { attr.0 < length (attrs_of dir.now.schema) }
    ensures { result ≡ is_replaceable dir.now.schema (class_at dir.now number) attr.0 info.now }
{
    !is_computed(info.name.as_slice())
        && !is_naming(dir, number, attr)
        && !is_object_sid(dir.schema(), attr)
        && !dir.schema().is_back_link(attr)
}

// Objects of the object's class may have it, and its values can be replaced.
#[tactic(auto, unfolding(crate::specs::Requests::passes))]
fn is_written(dir: &Dir, number: u32, attr: AttrId) -> bool
    requires live { is_live dir.now.objects number ≡ true }
    requires attr { attr.0 < length (attrs_of dir.now.schema) }
    ensures { result ≡ passes dir.now.schema (is_written dir.now.schema (class_at dir.now number)
        attr.0) attr.0 }
{
    let info = dir.schema().attr_info(attr);
    dir.schema().allowed(class_of(dir, number), attr) && is_replaceable(dir, number, attr, info)
}

// Objects of the object's class may have it, where there is one.
#[tactic(auto, unfolding(crate::specs::Requests::has))]
fn has(dir: &Dir, number: u32, attr: Option<AttrId>) -> bool
    requires live { is_live dir.now.objects number ≡ true }
    requires attr { IfSome attr (λ id. id.0 < length (attrs_of dir.now.schema)) }
    ensures { result ≡ has dir.now.schema (class_at dir.now number) (option_map (λ id. id.0) attr) }
{
    match attr {
        Some(attr) => dir.schema().allowed(class_of(dir, number), attr),
        None => false,
    }
}

/// The attribute that holds members, where the schema has it.
#[tactic(auto, unfolding(ad_dir_model::specs::Attributes::rule_place))]
pub(crate) fn member_of(schema: &Schema) -> Option<AttrId>
    ensures member { option_map (λ id. id.0) result ≡ member schema.now }
    ensures in_range { IfSome result (λ id. id.0 < length (attrs_of schema.now)) }
{
    schema.attr_of_rule(RuleAttr::Member)
}

// ---- classes

// Objects of the class may be added below the object.
#[tactic(auto, unfolding(crate::specs::Requests::is_added))]
fn is_added(dir: &Dir, number: u32, class: ClassId) -> bool
    requires { is_live dir.now.objects number ≡ true }
    ensures { result ≡ is_added dir.now.schema (class_at dir.now number) class.0 }
{
    is_structural(dir.schema(), class)
        && !is_schema_class(dir.schema(), class)
        && dir.schema().under(class, class_of(dir, number))
}

// ---- all

/// Whether the request that a question is about can be for a live object: to read an attribute that is shown, to
/// replace one that objects of its class may have and that can be replaced, a password where it may have one, members
/// where it may have them, to add a class that may stand below it, and to delete all but the root. Any other can be
/// for each. It takes no memory.
#[tactic(auto, unfolding(crate::specs::Requests::is_for))]
pub fn is_for(dir: &Dir, question: Question, number: u32) -> bool
    requires live { is_live dir.now.objects number ≡ true }
    requires known { IsQuestion dir.now.schema question }
    ensures { result ≡ is_for dir.now question number }
{
    match question {
        Question::Right(_) => true,
        Question::See => true,
        Question::Read(attr) => is_shown(dir.schema(), attr),
        Question::ReadDescriptor => true,
        Question::Write(attr) => is_written(dir, number, attr),
        Question::Reset => has(dir, number, dir.schema().attr(b"unicodePwd")),
        Question::Join => has(dir, number, member_of(dir.schema())),
        Question::Add(class) => is_added(dir, number, class),
        Question::Delete => number != ROOT,
        Question::Dacl => true,
        Question::Owner => true,
    }
}
