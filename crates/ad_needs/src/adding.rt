//! Add: its checks up to the required rights.

ghost use Rattle.std.specs.Prelude.{◌≡◌, ◌<◌, ◌≤◌, ◌==◌, ◌++◌, [], false, true, Some, drop, length, codes, option_map};
ghost use Rattle.std.specs.Prelude.{unwrap_or, IfOk, IfSome, MatchOption};
ghost use Rattle.std.specs.Option.{option_map_or};
ghost use Rattle.std.specs.List.{flat_map};
ghost use Rattle.ad_ldap.specs.MessageValue.{AddOf};
ghost use Rattle.ad_schema.specs.Classes.{classes_of};
ghost use Rattle.ad_dir_model.specs.Objects.{is_live};
ghost use Rattle.ad_dir_model.specs.Tree.{root};
ghost use Rattle.ad_dir_model.specs.Names.{found};
ghost use Rattle.ad_access_dir.specs.Sight.{visible_of};
ghost use Rattle.ad_needs_rules.specs.Checks.{all_met};
ghost use Rattle.ad_needs_rules.specs.Descriptors.{sd_in_one};
ghost use Rattle.ad_schema_defaults.specs.NewClass.{is_schema_class};
ghost use Rattle.ad_needs_rules.specs.Renaming.{is_typed};
ghost use Rattle.ad_needs_rules.specs.Adding.{first_part, sent, new_class, new_sd, all_ordinary, own_checks};
ghost use Rattle.ad_needs_rules.specs.Adding.{brings_sacl, sacl_needs, add_needs};
ghost use Rattle.ad_needs.specs.Additions.{sd_sent, class_judged, below_judged};
ghost use Rattle.ad_needs_rules.specs.Judged.{refusal_of};
ghost use Rattle.ad_needs.specs.Steps.{Steps};
ghost use Rattle.ad_needs_rules.specs.Verdicts.{verdict_of};

use crate::renaming::is_typed;
use crate::sent::{new_values, sent, unless_all_lawful, unless_named_once};
use crate::trying::{Trace, no_trace, require};
use ad_bytes::Bytes;
use ad_dir::{Act, Dir, ROOT};
use ad_dn::{Dn, Rdn};
use ad_ids::Token;
use ad_ldap::{Add, Settings, result_code};
use ad_needs_rules::{
    Right, Verdict, asked_in, asked_of, matched, on_children, on_object, read_name, sd_in_one,
    visible,
};
use ad_schema::ClassId;
use ad_schema_defaults::{class_by_names, is_schema_class};
use ad_sd::SdParts;
use std::alloc::{AllocError, Global};

// ---- what is sent

// The values of objectClass, and none where it isn't sent.
fn class_names(add: &Add) -> &[Bytes]
    ensures { result.now ≡ unwrap_or (sent add.entry.now (codes "objectClass")) [] }
{
    match sent(add, b"objectClass") {
        Some(values) => values,
        None => &[],
    }
}

/// The class of the object of an Add, which is one of the schema.
///
/// # Errors
///
/// Memory ran out.
#[tactic(auto, unfolding(ad_needs_rules::specs::Adding::new_class))]
pub(crate) fn new_class(alloc: Global, dir: &Dir, add: &Add) -> Result<Option<ClassId>, AllocError>
    ensures class { IfOk result (λ class. option_map (λ id. id.0) class
        ≡ new_class dir.now add.now) }
    ensures in_range { IfOk result (λ class.
        IfSome class (λ id. id.0 < length (classes_of dir.now.schema))) }
{
    class_by_names(alloc, dir.schema(), class_names(add))
}

fn some_parts(alloc: Global, values: &[Bytes]) -> Result<Option<Option<SdParts>>, AllocError>
    ensures { IfOk result (λ sd. sd ≡ option_map Some (sd_in_one values.now)) }
{
    match sd_in_one(alloc, values)? {
        Some(parts) => Ok(Some(Some(parts))),
        None => Ok(None),
    }
}

// The descriptor, where it reads; none where none is sent.
#[tactic(auto, unfolding(crate::specs::Additions::sd_sent))]
fn sd_sent(alloc: Global, add: &Add) -> Result<Option<Option<SdParts>>, AllocError>
    ensures { IfOk result (λ sd. sd ≡ sd_sent add.now) }
{
    match sent(add, b"nTSecurityDescriptor") {
        Some(values) => some_parts(alloc, values),
        None => Ok(Some(None)),
    }
}

/// The parts of the descriptor of an Add that are sent and asked for.
///
/// # Errors
///
/// Memory ran out.
pub(crate) fn new_sd(alloc: Global, add: &Add, flags: u8) -> Result<Option<SdParts>, AllocError>
    ensures { IfOk result (λ sd. sd ≡ new_sd add.now flags) }
{
    match sent(add, b"nTSecurityDescriptor") {
        Some(values) => asked_in(alloc, values, flags),
        None => Ok(None),
    }
}

// Whether a descriptor has a SACL.
fn brings_sacl(sd: &Option<SdParts>) -> bool
    ensures { result ≡ brings_sacl sd.now }
{
    match sd {
        Some(parts) => parts.sacl.is_some(),
        None => false,
    }
}

// ---- needs

// The refusal where a SACL may not be given to a child of a live object.
fn unless_audits(
    alloc: Global,
    dir: &Dir,
    token: &Token,
    parent: u32,
    sacl: bool,
    trace: &mut Trace,
) -> Result<Option<Verdict>, AllocError>
    requires { is_live dir.now.objects parent ≡ true }
    ensures refusal { IfOk result (λ refusal. refusal
        ≡ refusal_of (all_met dir.now token.now (sacl_needs parent sacl))) }
    ensures steps { IfOk result (λ refusal. Steps dir.now token.now trace.old
        (sacl_needs parent sacl) trace.new refusal) }
{
    if sacl {
        require(
            alloc,
            dir,
            token,
            &on_object(parent, Right::SystemSecurity),
            trace,
        )
    } else {
        Ok(None)
    }
}

/// The refusal where what an Add below a live object needs is missing.
///
/// # Errors
///
/// Memory ran out.
pub(crate) fn unless_creates(
    alloc: Global,
    dir: &Dir,
    token: &Token,
    parent: u32,
    class: ClassId,
    sd: &Option<SdParts>,
    trace: &mut Trace,
) -> Result<Option<Verdict>, AllocError>
    requires parent { is_live dir.now.objects parent ≡ true }
    requires class { class.0 < length (classes_of dir.now.schema) }
    ensures refusal { IfOk result (λ refusal. refusal
        ≡ refusal_of (all_met dir.now token.now (add_needs dir.now parent class.0 sd.now))) }
    ensures steps { IfOk result (λ refusal. Steps dir.now token.now trace.old
        (add_needs dir.now parent class.0 sd.now) trace.new refusal) }
{
    let create = on_children(dir, parent, Right::CreateChild, class);
    if let Some(refusal) = require(alloc, dir, token, &create, trace)? {
        return Ok(Some(refusal));
    }
    unless_audits(alloc, dir, token, parent, brings_sacl(sd), trace)
}

// ---- the checks

// An Add of an object of this class below a parent, and the parts of a descriptor that are asked for.
#[derive(Drop)]
struct Adding<'a> {
    parent: u32,
    class: ClassId,
    add: &'a Add,
    flags: u8,
}

// The refusal where an attribute is unlawful, or what an Add of this descriptor needs is missing.
fn unless_adds(
    alloc: Global,
    dir: &Dir,
    token: &Token,
    added: &Adding<'_>,
    rdn: &Rdn,
    sd: &Option<SdParts>,
) -> Result<Option<Verdict>, AllocError>
    requires parent { is_live dir.now.objects added.now.parent ≡ true }
    requires class { added.now.class.0 < length (classes_of dir.now.schema) }
    ensures { IfOk result (λ refusal. refusal
        ≡ refusal_of (flat_map (own_checks dir.now.schema added.now.class.0 rdn.now.value)
        (all_ordinary dir.now.schema added.now.add.now)
        ++ all_met dir.now token.now
        (add_needs dir.now added.now.parent added.now.class.0 sd.now))) }
{
    let attrs = added.add.attrs.as_slice();
    match unless_all_lawful(dir.schema(), added.class, rdn.value.as_slice(), attrs) {
        Some(refusal) => Ok(Some(refusal)),
        None => {
            let mut trace = no_trace(alloc);
            unless_creates(alloc, dir, token, added.parent, added.class, sd, &mut trace)
        }
    }
}

// What is said of an object of this class below a live one, where the class and the name are lawful and this
// descriptor is sent.
fn judged_with(
    alloc: Global,
    dir: &Dir,
    token: &Token,
    added: &Adding<'_>,
    rdn: Rdn,
    sd: Option<SdParts>,
) -> Result<Verdict, AllocError>
    requires parent { is_live dir.now.objects added.now.parent ≡ true }
    requires class { added.now.class.0 < length (classes_of dir.now.schema) }
    requires other { is_schema_class dir.now.schema added.now.class.0 ≡ false }
    requires typed { is_typed dir.now.schema added.now.class.0 rdn ≡ true }
    requires sent { Some sd ≡ sd_sent added.now.add.now }
    ensures { IfOk result (λ verdict. verdict
        ≡ class_judged dir.now token.now added.now.parent rdn added.now.class.0 added.now.add.now
        added.now.flags) }
{
    let sd = asked_of(added.flags, sd);
    match unless_adds(alloc, dir, token, added, &rdn, &sd)? {
        Some(refusal) => Ok(refusal),
        None => {
            let values = new_values(alloc, dir.schema(), added.class, added.add)?;
            Ok(Verdict::Granted(Act::Add {
                parent: added.parent,
                class: added.class,
                name: rdn.value,
                values,
                sd,
            }))
        }
    }
}

// What is said of an object of this class below a live one.
fn judged_of_class(
    alloc: Global,
    dir: &Dir,
    token: &Token,
    added: &Adding<'_>,
    rdn: Rdn,
) -> Result<Verdict, AllocError>
    requires parent { is_live dir.now.objects added.now.parent ≡ true }
    requires class { added.now.class.0 < length (classes_of dir.now.schema) }
    ensures { IfOk result (λ verdict. verdict
        ≡ class_judged dir.now token.now added.now.parent rdn added.now.class.0 added.now.add.now
        added.now.flags) }
{
    if is_schema_class(dir.schema(), added.class) {
        return Ok(Verdict::Refused(result_code::UNWILLING_TO_PERFORM));
    }
    if !is_typed(dir.schema(), added.class, &rdn) {
        return Ok(Verdict::Refused(result_code::NAMING_VIOLATION));
    }
    match sd_sent(alloc, added.add)? {
        Some(sd) => judged_with(alloc, dir, token, added, rdn, sd),
        None => Ok(Verdict::Refused(result_code::CONSTRAINT_VIOLATION)),
    }
}

// What is said of an object below a live one.
fn judged_below(
    alloc: Global,
    dir: &Dir,
    token: &Token,
    parent: u32,
    rdn: Rdn,
    add: &Add,
    flags: u8,
) -> Result<Verdict, AllocError>
    requires { is_live dir.now.objects parent ≡ true }
    ensures { IfOk result (λ verdict. verdict ≡ below_judged dir.now token.now parent rdn add.now
        flags) }
{
    let named = unless_named_once(alloc, dir.schema(), add.attrs.as_slice())?;
    if let Some(refusal) = named {
        return Ok(refusal);
    }
    let Some(class) = new_class(alloc, dir, add)? else {
        return Ok(Verdict::Refused(result_code::OBJECT_CLASS_VIOLATION));
    };
    let added = Adding {
        parent,
        class,
        add,
        flags,
    };
    judged_of_class(alloc, dir, token, &added, rdn)
}

// ---- the name

// The first part of a name, where it has one.
fn first_part(alloc: Global, dn: &Dn) -> Result<Option<Rdn>, AllocError>
    ensures { IfOk result (λ rdn. MatchOption rdn (dn.now.rdns ≡ [])
        (λ rdn. (rdn ≡ first_part dn.now.rdns) × (1 ≤ length dn.now.rdns))) }
{
    match dn.rdns.as_slice() {
        [first, ..] => Ok(Some(first.copy(alloc)?)),
        [] => Ok(None),
    }
}

// Whether the name is the root's.
fn is_root_named(alloc: Global, dir: &Dir, dn: &Dn) -> Result<bool, AllocError>
    ensures { IfOk result (λ is. is ≡ option_map_or (λ number. number == root)
        (found dir.now dn.now.rdns) false) }
{
    match dir.find(alloc, dn)? {
        Some(number) => Ok(number == ROOT),
        None => Ok(false),
    }
}

/// The visible object above a name. It is live.
///
/// # Errors
///
/// Memory ran out.
pub(crate) fn parent_named(
    alloc: Global,
    dir: &Dir,
    token: &Token,
    dn: &Dn,
) -> Result<Option<u32>, AllocError>
    requires { 1 ≤ length dn.now.rdns }
    ensures found { IfOk result (λ parent. parent ≡ visible_of dir.now token.now
        (drop 1 dn.now.rdns)) }
    ensures live { IfOk result (λ parent.
        IfSome parent (λ number. is_live dir.now.objects number ≡ true)) }
{
    let above = dn.ancestor(alloc, 1)?;
    visible(alloc, dir, token, &above)
}

/// The first check that fails of an Add, up to what it needs; or what it asks for.
///
/// # Errors
///
/// Memory ran out.
pub(crate) fn add_verdict(
    alloc: Global,
    dir: &Dir,
    token: &Token,
    add: &Add,
    settings: &Settings,
) -> Result<Verdict, AllocError>
    ensures { IfOk result (λ verdict. verdict ≡ verdict_of dir.now token.now (AddOf add.now)
        settings.now) }
{
    let Some(dn) = read_name(alloc, add.dn.as_slice())? else {
        return Ok(Verdict::Refused(result_code::INVALID_DN_SYNTAX));
    };
    let Some(rdn) = first_part(alloc, &dn)? else {
        return Ok(Verdict::Refused(result_code::INVALID_DN_SYNTAX));
    };
    if is_root_named(alloc, dir, &dn)? {
        return Ok(Verdict::Refused(result_code::ENTRY_ALREADY_EXISTS));
    }
    let Some(parent) = parent_named(alloc, dir, token, &dn)? else {
        let near = matched(alloc, dir, token, &dn)?;
        return Ok(Verdict::Hidden(near));
    };
    judged_below(alloc, dir, token, parent, rdn, add, settings.sd_flags)
}
