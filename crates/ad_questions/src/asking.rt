//! What a request needs that a question is about.

ghost use Rattle.std.specs.Prelude.{◌≡◌, ◌≢◌, ◌<◌, ◌∷◌, [], ◌++◌, true, length, OnOk};
ghost use Rattle.ad_schema.specs.Attributes.{attrs_of};
ghost use Rattle.ad_schema.specs.Classes.{classes_of};
ghost use Rattle.ad_dir_model.specs.Objects.{is_live};
ghost use Rattle.ad_dir_model.specs.Tree.{root};
ghost use Rattle.ad_dir_model.specs.Attributes.{member};
ghost use Rattle.ad_needs_rules.specs.Needs.{needs};
ghost use Rattle.ad_needs_rules.specs.Requests.{class_at, class_path, attr_path};
ghost use Rattle.ad_questions.specs.Asked.{path_at, IsAsked};
ghost use Rattle.ad_questions.specs.Question.{IsQuestion};
ghost use Rattle.ad_questions.specs.Requests.{passes, is_confidential, is_secret, listed_needs, see_needs};
ghost use Rattle.ad_questions.specs.Requests.{is_right, sight_needs, if_confidential};
ghost use Rattle.ad_questions.specs.Requests.{read_needs, descriptor_read, to_reset, write_needs, join_needs, to_delete};
ghost use Rattle.ad_questions.specs.Requests.{request_needs, is_for};
ghost use Rattle.ad_questions.specs.Requirements.{alternative_seen, requirements_seen};

use crate::alternative::{Alternative, on_object, on_path, push_none, push_one, push_two};
use crate::asked::{Asked, path_at};
use crate::possible::member_of;
use crate::question::Question;
use ad_access_dir::{is_password, password_right};
use ad_dir::{Dir, ROOT, class_of, guid_of, parent_of};
use ad_ids::Guid;
use ad_schema::{AttrId, ClassId, Schema};
use ad_types::{Path, path};
use std::alloc::{AllocError, Global};

// The rights, by their places in a mask.
const CREATE_CHILD: u32 = 0;

const DELETE_CHILD: u32 = 1;

const LIST_CHILDREN: u32 = 2;

const SELF_WRITE: u32 = 3;

const READ_PROPERTY: u32 = 4;

const WRITE_PROPERTY: u32 = 5;

const LIST_OBJECT: u32 = 7;

const CONTROL_ACCESS: u32 = 8;

const DELETE: u32 = 16;

const READ_CONTROL: u32 = 17;

const WRITE_DAC: u32 = 18;

const WRITE_OWNER: u32 = 19;

const SYSTEM_SECURITY: u32 = 24;

/// The validated write Self-Membership, in packet order.
const SELF_MEMBERSHIP: Guid = Guid {
    bytes: [
        0xc0, 0x79, 0x96, 0xbf, 0xe6, 0x0d, 0xd0, 0x11, 0xa2, 0x85, 0x00, 0xaa, 0x00, 0x30, 0x49,
        0xe2,
    ],
};

// ---- to see

// In list-object mode, of an object below this parent.
fn put_listed(
    alloc: Global,
    into: &mut Vec<Vec<Alternative>>,
    parent: u32,
    number: u32,
) -> Result<(), AllocError>
    ensures { OnOk result (requirements_seen into.new.items
        ≡ requirements_seen into.old.items ++ listed_needs true parent number) }
{
    let children = on_object(parent, LIST_CHILDREN);
    push_two(alloc, into, children, on_object(parent, LIST_OBJECT))?;
    push_two(alloc, into, children, on_object(number, LIST_OBJECT))
}

fn put_below(
    alloc: Global,
    into: &mut Vec<Vec<Alternative>>,
    list_mode: bool,
    parent: u32,
    number: u32,
) -> Result<(), AllocError>
    ensures { OnOk result (requirements_seen into.new.items
        ≡ requirements_seen into.old.items ++ listed_needs list_mode parent number) }
{
    if list_mode {
        return put_listed(alloc, into, parent, number);
    }
    push_one(alloc, into, on_object(parent, LIST_CHILDREN))
}

/// Puts what is needed to see a live object.
#[tactic(auto, unfolding(crate::specs::Requests::see_needs))]
fn put_sight(
    alloc: Global,
    into: &mut Vec<Vec<Alternative>>,
    dir: &Dir,
    number: u32,
) -> Result<(), AllocError>
    requires { is_live dir.now.objects number ≡ true }
    ensures { OnOk result (requirements_seen into.new.items
        ≡ requirements_seen into.old.items ++ see_needs dir.now number) }
{
    if number == ROOT {
        return Ok(());
    }
    put_below(alloc, into, dir.list_mode(), parent_of(dir, number), number)
}

fn is_right(question: Question) -> bool
    ensures { result ≡ is_right question }
{
    match question {
        Question::Right(_) => true,
        Question::See => false,
        Question::Read(_) => false,
        Question::ReadDescriptor => false,
        Question::Write(_) => false,
        Question::Reset => false,
        Question::Join => false,
        Question::Add(_) => false,
        Question::Delete => false,
        Question::Dacl => false,
        Question::Owner => false,
    }
}

/// Puts what is needed to see a live object, for all but a plain right.
#[tactic(auto, unfolding(crate::specs::Requests::sight_needs))]
pub(crate) fn put_sight_for(
    alloc: Global,
    into: &mut Vec<Vec<Alternative>>,
    dir: &Dir,
    question: Question,
    number: u32,
) -> Result<(), AllocError>
    requires { is_live dir.now.objects number ≡ true }
    ensures { OnOk result (requirements_seen into.new.items
        ≡ requirements_seen into.old.items ++ sight_needs dir.now question number) }
{
    if is_right(question) {
        return Ok(());
    }
    put_sight(alloc, into, dir, number)
}

// ---- what is asked for

fn to_ask(dir: &Dir, asked: Asked, number: u32) -> Alternative
    requires live { is_live dir.now.objects number ≡ true }
    requires known { IsAsked dir.now.schema asked }
    ensures { alternative_seen result ≡ needs number asked.bit (path_at dir.now number asked.on) }
{
    on_path(number, asked.bit, path_at(dir, number, asked.on))
}

// A right on the path of an attribute of a live object.
fn on_attribute(dir: &Dir, number: u32, bit: u32, attr: AttrId) -> Alternative
    requires live { is_live dir.now.objects number ≡ true }
    requires attr { attr.0 < length (attrs_of dir.now.schema) }
    ensures { alternative_seen result ≡ needs number bit
        (attr_path dir.now.schema (class_at dir.now number) attr.0) }
{
    on_path(number, bit, path(dir.schema(), class_of(dir, number), attr))
}

// A right to the children of a class.
fn on_class(schema: &Schema, number: u32, bit: u32, class: ClassId) -> Alternative
    requires { class.0 < length (classes_of schema.now) }
    ensures { alternative_seen result ≡ needs number bit (class_path schema.now class.0) }
{
    on_path(number, bit, Path::one(guid_of(schema, class)))
}

#[tactic(auto, unfolding(crate::specs::Requests::passes))]
fn is_confidential(schema: &Schema, attr: AttrId) -> bool
    requires { attr.0 < length (attrs_of schema.now) }
    ensures { result ≡ passes schema.now is_confidential attr.0 }
{
    schema.attr_info(attr).confidential
}

#[tactic(auto, unfolding(crate::specs::Requests::passes))]
fn is_secret(schema: &Schema, attr: AttrId) -> bool
    requires { attr.0 < length (attrs_of schema.now) }
    ensures { result ≡ passes schema.now is_secret attr.0 }
{
    is_password(schema.attr_info(attr).name.as_slice())
}

// The requirement, where the attribute is confidential.
fn put_if(
    alloc: Global,
    into: &mut Vec<Vec<Alternative>>,
    confidential: bool,
    only: Alternative,
) -> Result<(), AllocError>
    ensures { OnOk result (requirements_seen into.new.items ≡ requirements_seen into.old.items
        ++ if_confidential confidential (alternative_seen only ∷ [])) }
{
    if confidential {
        return push_one(alloc, into, only);
    }
    Ok(())
}

#[tactic(auto, unfolding(crate::specs::Requests::read_needs))]
fn put_read(
    alloc: Global,
    into: &mut Vec<Vec<Alternative>>,
    dir: &Dir,
    number: u32,
    attr: AttrId,
) -> Result<(), AllocError>
    requires live { is_live dir.now.objects number ≡ true }
    requires attr { attr.0 < length (attrs_of dir.now.schema) }
    ensures { OnOk result (requirements_seen into.new.items
        ≡ requirements_seen into.old.items ++ read_needs dir.now number attr.0) }
{
    let confidential = is_confidential(dir.schema(), attr);
    push_one(alloc, into, on_attribute(dir, number, READ_PROPERTY, attr))?;
    put_if(
        alloc,
        into,
        confidential,
        on_attribute(dir, number, CONTROL_ACCESS, attr),
    )
}

fn put_descriptor(
    alloc: Global,
    into: &mut Vec<Vec<Alternative>>,
    number: u32,
) -> Result<(), AllocError>
    ensures { OnOk result (requirements_seen into.new.items
        ≡ requirements_seen into.old.items ++ descriptor_read number ∷ []) }
{
    push_two(
        alloc,
        into,
        on_object(number, READ_CONTROL),
        on_object(number, SYSTEM_SECURITY),
    )
}

fn resetting(number: u32) -> Alternative
    ensures { (alternative_seen result ∷ []) ≡ to_reset number }
{
    on_path(number, CONTROL_ACCESS, Path::one(password_right(true)))
}

fn writing(dir: &Dir, number: u32, attr: AttrId) -> Alternative
    requires live { is_live dir.now.objects number ≡ true }
    requires attr { attr.0 < length (attrs_of dir.now.schema) }
    ensures { (alternative_seen result ∷ []) ≡ write_needs dir.now number attr.0
        (passes dir.now.schema is_secret attr.0) }
{
    if is_secret(dir.schema(), attr) {
        return resetting(number);
    }
    on_attribute(dir, number, WRITE_PROPERTY, attr)
}

fn put_join(
    alloc: Global,
    into: &mut Vec<Vec<Alternative>>,
    dir: &Dir,
    number: u32,
) -> Result<(), AllocError>
    requires { is_live dir.now.objects number ≡ true }
    ensures { OnOk result (requirements_seen into.new.items ≡ requirements_seen into.old.items
        ++ join_needs dir.now number (member dir.now.schema) ∷ []) }
{
    match member_of(dir.schema()) {
        Some(attr) => push_two(
            alloc,
            into,
            on_attribute(dir, number, WRITE_PROPERTY, attr),
            on_path(number, SELF_WRITE, Path::one(SELF_MEMBERSHIP)),
        ),
        None => push_none(alloc, into),
    }
}

fn put_delete(
    alloc: Global,
    into: &mut Vec<Vec<Alternative>>,
    dir: &Dir,
    number: u32,
) -> Result<(), AllocError>
    requires live { is_live dir.now.objects number ≡ true }
    requires below { number ≢ root }
    ensures { OnOk result (requirements_seen into.new.items
        ≡ requirements_seen into.old.items ++ to_delete dir.now number ∷ []) }
{
    let parent = parent_of(dir, number);
    let class = class_of(dir, number);
    push_two(
        alloc,
        into,
        on_object(number, DELETE),
        on_class(dir.schema(), parent, DELETE_CHILD, class),
    )
}

/// Puts what the request needs that a question is about, of a live object for which it can be.
///
/// # Errors
///
/// Memory ran out.
#[tactic(auto, unfolding(crate::specs::Requests::request_needs))]
pub(crate) fn put_request(
    alloc: Global,
    into: &mut Vec<Vec<Alternative>>,
    dir: &Dir,
    question: Question,
    number: u32,
) -> Result<(), AllocError>
    requires live { is_live dir.now.objects number ≡ true }
    requires known { IsQuestion dir.now.schema question }
    requires possible { is_for dir.now question number ≡ true }
    ensures { OnOk result (requirements_seen into.new.items
        ≡ requirements_seen into.old.items ++ request_needs dir.now question number) }
{
    match question {
        Question::Right(asked) => push_one(alloc, into, to_ask(dir, asked, number)),
        Question::See => Ok(()),
        Question::Read(attr) => put_read(alloc, into, dir, number, attr),
        Question::ReadDescriptor => put_descriptor(alloc, into, number),
        Question::Write(attr) => push_one(alloc, into, writing(dir, number, attr)),
        Question::Reset => push_one(alloc, into, resetting(number)),
        Question::Join => put_join(alloc, into, dir, number),
        Question::Add(class) => {
            push_one(
                alloc,
                into,
                on_class(dir.schema(), number, CREATE_CHILD, class),
            )
        }
        Question::Delete => put_delete(alloc, into, dir, number),
        Question::Dacl => push_one(alloc, into, on_object(number, WRITE_DAC)),
        Question::Owner => push_one(alloc, into, on_object(number, WRITE_OWNER)),
    }
}
