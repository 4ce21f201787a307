//! What a token may do at an object, right by right.

ghost use Rattle.std.specs.Prelude.{◌≡◌, ◌≤◌, ◌<◌, ◌+◌, ◌-◌, ◌^◌, ◌&&◌, ◌∷◌, [], ℕ, true, length, drop};
ghost use Rattle.std.specs.Prelude.{if◌then◌else◌, IfOk};
ghost use Rattle.ad_acl.specs.Mask.{has_bit};
ghost use Rattle.ad_schema.specs.declared.info.ClassId.{ClassId};
ghost use Rattle.ad_schema.specs.Attributes.{attrs_of};
ghost use Rattle.ad_schema.specs.Classes.{classes_of};
ghost use Rattle.ad_constructed.specs.Rights.{if_may, parts_of};
ghost use Rattle.ad_dir_model.specs.Objects.{is_live, object_at};
ghost use Rattle.ad_access_dir.specs.Sight.{is_granted};
ghost use Rattle.ad_access_dir.specs.Passwords.{is_password, force_change};
ghost use Rattle.ad_access_dir.specs.Allowed.{allowed_attrs};
ghost use Rattle.ad_constructed_dir.specs.Changing.{may_write, may_create, rights_at};
ghost use Rattle.ad_constructed_dir.specs.Writes.{writes_below, writes_of, AreWriteMasks, IsPlaced, rights_by};

use ad_access_dir::{allowed_attrs, attr_count, attr_masks, grants, is_password, password_right};
use ad_acl::{
    ACCESS_SYSTEM_SECURITY, CONTROL_ACCESS, CREATE_CHILD, WRITE_DAC, WRITE_OWNER, WRITE_PROPERTY,
};
use ad_constructed::Rights;
use ad_dir::Dir;
use ad_ids::Token;
use ad_schema::{AttrId, AttrInfo, ClassId};
use ad_types::Path;
use std::alloc::{AllocError, Global};

// ---- attributes

fn forces_change(dir: &Dir, token: &Token, number: u32) -> bool
    requires { is_live dir.now.objects number ≡ true }
    ensures { result ≡ is_granted dir.now token.now number (force_change ∷ []) 8 }
{
    let path = Path::one(password_right(true));
    grants(dir, token, number, &path, CONTROL_ACCESS)
}

fn has_write(mask: u32) -> bool
    ensures { result ≡ has_bit mask 5 }
{
    mask & WRITE_PROPERTY != 0
}

// Whether an attribute on whose path these rights are granted may be written.
fn writes(dir: &Dir, token: &Token, number: u32, info: &AttrInfo, mask: u32) -> bool
    requires { is_live dir.now.objects number ≡ true }
    ensures { result ≡ (if is_password info.now.name then is_granted dir.now token.now number
        (force_change ∷ []) 8 else has_bit mask 5) }
{
    if is_password(info.name.as_slice()) {
        return forces_change(dir, token, number);
    }
    has_write(mask)
}

// Whether objects of the object's class may have the attribute, and it may be written. Where they may have it, its
// mask stands at this place.
fn writes_allowed(
    dir: &Dir,
    token: &Token,
    number: u32,
    attr: AttrId,
    allowed: bool,
    masks: &[u32],
    next: usize,
) -> bool
    requires live { is_live dir.now.objects number ≡ true }
    requires attr { attr.0 < length (attrs_of dir.now.schema) }
    requires placed { (class : ClassId) × IsPlaced dir.now token.now number class attr.0 allowed
        masks.now next }
    ensures { result ≡ (allowed && may_write dir.now token.now number attr.0) }
{
    if !allowed {
        return false;
    }
    writes(
        dir,
        token,
        number,
        dir.schema().attr_info(attr),
        masks[next],
    )
}

// One place further, where something stands at this one.
fn further(next: usize, is_taken: bool) -> usize
    requires { is_taken ≡ true → next + 1 < 2 ^ 64 }
    ensures { result ≡ (if is_taken then next + 1 else next) }
{
    if is_taken {
        return next + 1;
    }
    next
}

// Of each attribute whether objects of the class may have it, and it may be written.
#[tactic(auto, unfolding(crate::specs::Writes::writes_below))]
fn each_written(
    alloc: Global,
    dir: &Dir,
    token: &Token,
    number: u32,
    class: ClassId,
    masks: &[u32],
) -> Result<Vec<bool>, AllocError>
    requires live { is_live dir.now.objects number ≡ true }
    requires class { class.0 ≡ (object_at dir.now.objects number).class }
    requires within { class.0 < length (classes_of dir.now.schema) }
    requires masks { AreWriteMasks dir.now token.now number class
        (allowed_attrs dir.now.schema class.0) masks.now }
    ensures { IfOk result (λ written. written.items ≡ writes_of dir.now token.now number class.0) }
{
    let mut written = Vec::new(alloc);
    let mut next = 0;
    'each: for place in 0..attr_count(dir) {
        let attr = AttrId(place);
        let allowed = dir.schema().allowed(class, attr);
        let so = writes_allowed(dir, token, number, attr, allowed, masks, next);
        written.push(so)?;
        next = further(next, allowed);
    }
    Ok(written)
}

// The last ones of masks.
fn last_of(masks: &[u32], count: usize) -> &[u32]
    requires { count ≤ length masks.now }
    ensures { result.now ≡ drop (length masks.entry.now - count) masks.entry.now }
{
    masks.split_at(masks.len() - count).1
}

/// Of each attribute of the schema whether objects of the class may have it, and the token may write it at this
/// one. It takes one sweep over the descriptor.
pub(crate) fn written_attrs(
    alloc: Global,
    dir: &Dir,
    token: &Token,
    number: u32,
    class: ClassId,
) -> Result<Vec<bool>, AllocError>
    requires live { is_live dir.now.objects number ≡ true }
    requires class { class.0 ≡ (object_at dir.now.objects number).class }
    requires within { class.0 < length (classes_of dir.now.schema) }
    ensures { IfOk result (λ written. written.items ≡ writes_of dir.now token.now number class.0) }
{
    let attrs = allowed_attrs(alloc, dir, class)?;
    let masks = attr_masks(
        alloc,
        dir,
        token,
        number,
        class,
        attrs.as_slice(),
        WRITE_PROPERTY,
    )?;
    let masks = last_of(masks.as_slice(), attrs.len());
    each_written(alloc, dir, token, number, class, masks)
}

// ---- classes of children

#[tactic(auto, unfolding(crate::specs::Changing::may_create))]
fn creates(dir: &Dir, token: &Token, number: u32, class: ClassId) -> bool
    requires { is_live dir.now.objects number ≡ true }
    ensures { result ≡ may_create dir.now token.now number class.0 }
{
    match dir.schema().classes().get(class.0 as usize) {
        Some(info) => grants(dir, token, number, &Path::one(info.guid), CREATE_CHILD),
        None => false,
    }
}

// ---- parts of the descriptor

fn has_on_object(dir: &Dir, token: &Token, number: u32, right: u32) -> bool
    requires { is_live dir.now.objects number ≡ true }
    ensures { (bit : ℕ) → right ≡ 2 ^ bit → bit < 28 → result ≡ is_granted dir.now token.now number
        [] bit }
{
    grants(dir, token, number, &Path::empty(), right)
}

fn flags_if(may: bool, flags: u8) -> u8
    ensures flags { result ≡ if_may may flags }
    ensures small { result ≤ flags }
{
    if may { flags } else { 0 }
}

fn sum_of(owner: bool, list: bool, system_list: bool) -> u8
    ensures { result ≡ if_may owner 3 + if_may list 4 + if_may system_list 8 }
{
    flags_if(owner, 3) + flags_if(list, 4) + flags_if(system_list, 8)
}

/// The number of the parts of the descriptor that the token may write: 3 for the owner, 4 for the DACL, 8 for the
/// SACL. It takes no memory.
#[tactic(auto, unfolding(ad_constructed::specs::Rights::parts_of))]
pub fn parts_written(dir: &Dir, token: &Token, number: u32) -> u8
    requires { is_live dir.now.objects number ≡ true }
    ensures { result ≡ parts_of (rights_at dir.now token.now number) }
{
    sum_of(
        has_on_object(dir, token, number, WRITE_OWNER),
        has_on_object(dir, token, number, WRITE_DAC),
        has_on_object(dir, token, number, ACCESS_SYSTEM_SECURITY),
    )
}

// ---- all

/// What a token may do at an object, where it may write the attributes that have a flag.
#[derive(Drop)]
pub(crate) struct ObjectRights<'a> {
    pub dir: &'a Dir,
    pub token: &'a Token,
    pub number: u32,
    /// A flag for each attribute of the schema.
    pub written: &'a [bool],
}

impl<'a> Rights for ObjectRights<'a> {
    ghost use Rattle.ad_constructed_dir.specs.Writes.{rights_by};

    ghost view = { λ rights. rights_by rights.dir.now rights.token.now rights.number
        rights.written.now };

    fn may_write(&self, attr: AttrId) -> bool {
        match self.written.get(attr.0 as usize) {
            Some(may) => *may,
            None => false,
        }
    }

    fn may_create(&self, class: ClassId) -> bool {
        if !self.dir.is_live(self.number) {
            return false;
        }
        creates(self.dir, self.token, self.number, class)
    }

    fn sd_parts(&self) -> u8 {
        if !self.dir.is_live(self.number) {
            return 0;
        }
        parts_written(self.dir, self.token, self.number)
    }
}
