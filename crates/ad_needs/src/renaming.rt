//! Rename and move: their checks up to the required rights.

ghost use Rattle.std.specs.Prelude.{◌≡◌, ◌≢◌, ◌<◌, ◌∷◌, [], true, length, codes, IfOk, IfSome};
ghost use Rattle.std.specs.Option.{option_and_then};
ghost use Rattle.ad_ldap.specs.MessageValue.{RenameOf};
ghost use Rattle.ad_ldap.specs.declared.controls.Settings.{Settings};
ghost use Rattle.ad_schema.specs.Attributes.{attrs_of};
ghost use Rattle.ad_schema.specs.Classes.{classes_of, naming_of};
ghost use Rattle.ad_dir_model.specs.Objects.{is_live};
ghost use Rattle.ad_dir_model.specs.Tree.{root};
ghost use Rattle.ad_dir_model.specs.Attributes.{attr_place};
ghost use Rattle.ad_dir_model.specs.Changes.{goes_with};
ghost use Rattle.ad_needs_rules.specs.Checks.{all_met};
ghost use Rattle.ad_needs_rules.specs.Requests.{class_at, name_in};
ghost use Rattle.ad_needs_rules.specs.Renaming.{one_part, is_typed, move_needs, to_write, name_needs, rename_needs};
ghost use Rattle.ad_needs.specs.Moves.{parent_by, is_outside, rename_rest, rename_judged, in_place_judged};
ghost use Rattle.ad_needs.specs.Moves.{moved_judged};
ghost use Rattle.ad_needs_rules.specs.Judged.{refusal_of};
ghost use Rattle.ad_needs.specs.Steps.{Steps};
ghost use Rattle.ad_needs_rules.specs.Verdicts.{verdict_of};

use crate::deleting::unless_leaves;
use crate::trying::{Trace, no_trace, require};
use ad_dir::{Act, Dir, ROOT, class_of, goes_with, live_object, naming_name, naming_of, parent_of};
use ad_dn::{Dn, Rdn};
use ad_ids::Token;
use ad_ldap::{Rename, result_code};
use ad_needs_rules::{Right, Verdict, matched, on_children, read_name, to_write, visible};
use ad_schema::{AttrId, ClassId, Schema};
use ad_schema_classes::same_name;
use std::alloc::{AllocError, Global};

// ---- what is asked for

// The only part of a name.
fn only_part(alloc: Global, dn: &Dn) -> Result<Option<Rdn>, AllocError>
    ensures { IfOk result (λ rdn. rdn ≡ one_part dn.now.rdns) }
{
    match dn.rdns.as_slice() {
        [rdn] => Ok(Some(rdn.copy(alloc)?)),
        _ => Ok(None),
    }
}

// The first part that a text encodes, where it encodes exactly one.
fn read_rdn(alloc: Global, text: &[u8]) -> Result<Option<Rdn>, AllocError>
    ensures { IfOk result (λ rdn. rdn ≡ option_and_then one_part (name_in text.now)) }
{
    match read_name(alloc, text)? {
        Some(dn) => only_part(alloc, &dn),
        None => Ok(None),
    }
}

/// Whether the type of a part is the naming attribute of the class.
pub(crate) fn is_typed(schema: &Schema, class: ClassId, rdn: &Rdn) -> bool
    requires { class.0 < length (classes_of schema.now) }
    ensures { result ≡ is_typed schema.now class.0 rdn.now }
{
    same_name(rdn.kind.as_slice(), naming_name(schema, class))
}

// ---- where the object is to go

// Whether the superior, where one is named, is neither the object nor below it.
fn is_outside(dir: &Dir, number: u32, superior: Option<u32>) -> bool
    requires { IfSome superior (λ above. is_live dir.now.objects above ≡ true) }
    ensures { result ≡ is_outside dir.now number superior }
{
    match superior {
        Some(above) => !goes_with(dir, number, above),
        None => true,
    }
}

// The superior, or else the parent of a live object. It is live where the object isn't the root.
fn new_parent(dir: &Dir, number: u32, superior: Option<u32>) -> u32
    requires live { is_live dir.now.objects number ≡ true }
    requires superior { IfSome superior (λ above. is_live dir.now.objects above ≡ true) }
    ensures parent { result ≡ parent_by dir.now number superior }
    ensures live { number ≢ root → is_live dir.now.objects result ≡ true }
{
    dir.invariants();
    match superior {
        Some(above) => above,
        None => live_object(dir, number).parent,
    }
}

// ---- needs

// The refusal where what a move of a live object needs is missing.
fn unless_moves(
    alloc: Global,
    dir: &Dir,
    token: &Token,
    number: u32,
    parent: u32,
    trace: &mut Trace,
) -> Result<Option<Verdict>, AllocError>
    requires live { is_live dir.now.objects number ≡ true }
    requires below { number ≢ root }
    requires parent { is_live dir.now.objects parent ≡ true }
    ensures refusal { IfOk result (λ refusal. refusal
        ≡ refusal_of (all_met dir.now token.now (move_needs dir.now number parent))) }
    ensures steps { IfOk result (λ refusal. Steps dir.now token.now trace.old
        (move_needs dir.now number parent) trace.new refusal) }
{
    if parent_of(dir, number) == parent {
        return Ok(None);
    }
    if let Some(refusal) = unless_leaves(alloc, dir, token, number, trace)? {
        return Ok(Some(refusal));
    }
    let create = on_children(dir, parent, Right::CreateChild, class_of(dir, number));
    require(alloc, dir, token, &create, trace)
}

// The refusal where the attribute of a live object may not be written.
fn unless_writes(
    alloc: Global,
    dir: &Dir,
    token: &Token,
    number: u32,
    attr: AttrId,
    trace: &mut Trace,
) -> Result<Option<Verdict>, AllocError>
    requires live { is_live dir.now.objects number ≡ true }
    requires attr { attr.0 < length (attrs_of dir.now.schema) }
    ensures refusal { IfOk result (λ refusal. refusal
        ≡ refusal_of (all_met dir.now token.now (to_write dir.now number attr.0 ∷ []))) }
    ensures steps { IfOk result (λ refusal. Steps dir.now token.now trace.old
        (to_write dir.now number attr.0 ∷ []) trace.new refusal) }
{
    require(alloc, dir, token, &to_write(dir, number, attr), trace)
}

// The same of `name`, where the schema has it.
fn unless_names(
    alloc: Global,
    dir: &Dir,
    token: &Token,
    number: u32,
    trace: &mut Trace,
) -> Result<Option<Verdict>, AllocError>
    requires { is_live dir.now.objects number ≡ true }
    ensures refusal { IfOk result (λ refusal. refusal
        ≡ refusal_of (all_met dir.now token.now
        (name_needs dir.now number (attr_place dir.now.schema (codes "name"))))) }
    ensures steps { IfOk result (λ refusal. Steps dir.now token.now trace.old
        (name_needs dir.now number (attr_place dir.now.schema (codes "name"))) trace.new refusal) }
{
    match dir.schema().attr(b"name") {
        Some(attr) => unless_writes(alloc, dir, token, number, attr, trace),
        None => Ok(None),
    }
}

// The refusal where what another name needs is missing.
fn unless_named(
    alloc: Global,
    dir: &Dir,
    token: &Token,
    number: u32,
    trace: &mut Trace,
) -> Result<Option<Verdict>, AllocError>
    requires { is_live dir.now.objects number ≡ true }
    ensures refusal { IfOk result (λ refusal. refusal ≡ refusal_of (all_met dir.now token.now
        (to_write dir.now number (naming_of dir.now.schema (class_at dir.now number))
        ∷ name_needs dir.now number (attr_place dir.now.schema (codes "name"))))) }
    ensures steps { IfOk result (λ refusal. Steps dir.now token.now trace.old
        (to_write dir.now number (naming_of dir.now.schema (class_at dir.now number))
        ∷ name_needs dir.now number (attr_place dir.now.schema (codes "name"))) trace.new refusal) }
{
    let naming = naming_of(dir, number);
    if let Some(refusal) = unless_writes(alloc, dir, token, number, naming, trace)? {
        return Ok(Some(refusal));
    }
    unless_names(alloc, dir, token, number, trace)
}

/// The refusal where what a rename needs is missing.
///
/// # Errors
///
/// Memory ran out.
pub(crate) fn unless_renames(
    alloc: Global,
    dir: &Dir,
    token: &Token,
    number: u32,
    parent: u32,
    trace: &mut Trace,
) -> Result<Option<Verdict>, AllocError>
    requires live { is_live dir.now.objects number ≡ true }
    requires below { number ≢ root }
    requires parent { is_live dir.now.objects parent ≡ true }
    ensures refusal { IfOk result (λ refusal. refusal
        ≡ refusal_of (all_met dir.now token.now (rename_needs dir.now number parent))) }
    ensures steps { IfOk result (λ refusal. Steps dir.now token.now trace.old
        (rename_needs dir.now number parent) trace.new refusal) }
{
    if let Some(refusal) = unless_moves(alloc, dir, token, number, parent, trace)? {
        return Ok(Some(refusal));
    }
    unless_named(alloc, dir, token, number, trace)
}

// ---- the checks

// The refusal after the names.
fn unless_lawful(
    alloc: Global,
    dir: &Dir,
    token: &Token,
    number: u32,
    rdn: &Rdn,
    superior: Option<u32>,
) -> Result<Option<Verdict>, AllocError>
    requires live { is_live dir.now.objects number ≡ true }
    requires superior { IfSome superior (λ above. is_live dir.now.objects above ≡ true) }
    ensures { IfOk result (λ refusal. refusal
        ≡ refusal_of (rename_rest dir.now token.now number rdn.now superior)) }
{
    if number == ROOT {
        return Ok(Some(Verdict::Refused(result_code::UNWILLING_TO_PERFORM)));
    }
    if !is_typed(dir.schema(), class_of(dir, number), rdn) {
        return Ok(Some(Verdict::Refused(result_code::NAMING_VIOLATION)));
    }
    if !is_outside(dir, number, superior) {
        return Ok(Some(Verdict::Refused(result_code::UNWILLING_TO_PERFORM)));
    }
    let parent = new_parent(dir, number, superior);
    let mut trace = no_trace(alloc);
    unless_renames(alloc, dir, token, number, parent, &mut trace)
}

// What is said after the names.
fn verdict_there(
    alloc: Global,
    dir: &Dir,
    token: &Token,
    number: u32,
    rdn: Rdn,
    superior: Option<u32>,
) -> Result<Verdict, AllocError>
    requires live { is_live dir.now.objects number ≡ true }
    requires superior { IfSome superior (λ above. is_live dir.now.objects above ≡ true) }
    ensures { IfOk result (λ verdict. verdict ≡ rename_judged dir.now token.now number rdn
        superior) }
{
    match unless_lawful(alloc, dir, token, number, &rdn, superior)? {
        Some(refusal) => Ok(refusal),
        None => Ok(Verdict::Granted(Act::Rename {
            target: number,
            parent: new_parent(dir, number, superior),
            name: rdn.value,
        })),
    }
}

// What is said of a rename without a superior, whose names were read.
fn judged_in_place(
    alloc: Global,
    dir: &Dir,
    token: &Token,
    dn: &Dn,
    rdn: Rdn,
) -> Result<Verdict, AllocError>
    ensures { IfOk result (λ verdict. verdict ≡ in_place_judged dir.now token.now dn.now.rdns rdn) }
{
    match visible(alloc, dir, token, dn)? {
        Some(number) => verdict_there(alloc, dir, token, number, rdn, None),
        None => Ok(Verdict::Hidden(matched(alloc, dir, token, dn)?)),
    }
}

// What is said of one with a superior, which this text names.
fn judged_moved(
    alloc: Global,
    dir: &Dir,
    token: &Token,
    dn: &Dn,
    rdn: Rdn,
    superior: &[u8],
) -> Result<Verdict, AllocError>
    ensures { IfOk result (λ verdict. verdict ≡ moved_judged dir.now token.now dn.now.rdns rdn
        superior.now) }
{
    let Some(above) = read_name(alloc, superior)? else {
        return Ok(Verdict::Refused(result_code::INVALID_DN_SYNTAX));
    };
    let Some(number) = visible(alloc, dir, token, dn)? else {
        let near = matched(alloc, dir, token, dn)?;
        return Ok(Verdict::Hidden(near));
    };
    let Some(parent) = visible(alloc, dir, token, &above)? else {
        let next = matched(alloc, dir, token, &above)?;
        return Ok(Verdict::Hidden(next));
    };
    verdict_there(alloc, dir, token, number, rdn, Some(parent))
}

/// The first check that fails of a Rename, up to what it needs; or what it asks for. No control is for it.
///
/// # Errors
///
/// Memory ran out.
pub(crate) fn rename_verdict(
    alloc: Global,
    dir: &Dir,
    token: &Token,
    rename: &Rename,
) -> Result<Verdict, AllocError>
    ensures { (settings : Settings) → IfOk result (λ verdict. verdict
        ≡ verdict_of dir.now token.now (RenameOf rename.now) settings) }
{
    let Some(dn) = read_name(alloc, rename.dn.as_slice())? else {
        return Ok(Verdict::Refused(result_code::INVALID_DN_SYNTAX));
    };
    let Some(rdn) = read_rdn(alloc, rename.rdn.as_slice())? else {
        return Ok(Verdict::Refused(result_code::INVALID_DN_SYNTAX));
    };
    match &rename.superior {
        Some(superior) => judged_moved(alloc, dir, token, &dn, rdn, superior.as_slice()),
        None => judged_in_place(alloc, dir, token, &dn, rdn),
    }
}
