//! Sets that were judged, each for a descriptor, a path and a right.

ghost use Rattle.std.specs.Prelude.{◌≡◌, ◌<◌, ◌++◌, ◌∷◌, [], List, Bool, Some, None, true, if◌then◌else◌, All, slice_get, IfOk, IfSome, OnOk};
ghost use Rattle.ad_ids.specs.declared.token.Token.{Token as TokenValue};
ghost use Rattle.ad_types.specs.Path.{guids_of};
ghost use Rattle.ad_dir_model.specs.Objects.{is_live, sd_at};
ghost use Rattle.ad_sets.specs.Sets.{sets_of, Keeps};
ghost use Rattle.ad_rights_judged.specs.declared.bases.Base.{Base as BaseValue};
ghost use Rattle.ad_rights_judged.specs.Judged.{set_apart, AreIndexed, IsBase};

use crate::tokens::Tokens;
use ad_dir::{Dir, live_sd};
use ad_ids::Guid;
use ad_rights::granted_set;
use ad_sets::Sets;
use ad_types::Path;
use indexmap::IndexMap;
use std::alloc::{AllocError, Global};

/// The place of the set of an object's descriptor, for a path and a right.
#[derive(Clone, Copy, Debug, PartialEq, Eq)]
pub struct Base {
    pub object: u32,
    pub bit: u32,
    pub path: Path,
    pub place: usize,
}

/// Those that are known, and of a hash which of them to look at.
#[derive(Drop)]
pub struct Bases {
    pub known: Vec<Base>,
    pub hints: IndexMap<u64, usize>,
}

// ---- where to look

// A hash of one more number.
pub(crate) fn mixed(hash: u64, value: u64) -> u64 {
    (hash ^ value)
        .wrapping_mul(0x0000_0100_0000_01b3)
        .rotate_left(23)
}

fn mixed_guid(hash: u64, guid: &Guid) -> u64 {
    let mut hash = hash;
    for byte in &guid.bytes {
        hash = mixed(hash, u64::from(*byte));
    }
    hash
}

// By the id of the descriptor, the right and the last GUID of the path.
fn hash_of(dir: &Dir, object: u32, bit: u32, path: &Path) -> u64 {
    let id = match dir.kept().sd_id(object) {
        Some(id) => u64::from(id.0),
        None => 0,
    };
    let hash = mixed(mixed(0, id), u64::from(bit));
    match path.guids().last() {
        Some(guid) => mixed_guid(hash, guid),
        None => hash,
    }
}

// ---- what is known

fn same_path(a: &Path, b: &Path) -> bool
    ensures { result ≡ true → guids_of a.now ≡ guids_of b.now }
{
    a.guids() == b.guids()
}

// Whether what is known is of this descriptor, right and path.
fn fits(dir: &Dir, base: Base, object: u32, bit: u32, path: &Path) -> bool
    requires live { is_live dir.now.objects object ≡ true }
    requires known { is_live dir.now.objects base.object ≡ true }
    ensures { result ≡ true → (sd_at dir.now.objects base.object ≡ sd_at dir.now.objects object)
        × ((base.bit ≡ bit) × (guids_of base.path ≡ guids_of path.now)) }
{
    if base.bit != bit {
        return false;
    }
    if !same_path(&base.path, path) {
        return false;
    }
    dir.same_descriptor(base.object, object)
}

fn base_at(known: &[Base], at: usize) -> Option<Base>
    ensures { result ≡ slice_get known.now at }
{
    match known.get(at) {
        Some(base) => Some(*base),
        None => None,
    }
}

/// A place, where it counts.
pub(crate) fn place_if(counts: bool, place: usize) -> Option<usize>
    ensures { result ≡ (if counts then Some place else None) }
{
    if counts { Some(place) } else { None }
}

// The place of the set, where what is at a place is of this descriptor, right and path.
fn place_at(
    dir: &Dir,
    known: &[Base],
    at: usize,
    object: u32,
    bit: u32,
    path: &Path,
) -> Option<usize>
    requires live { is_live dir.now.objects object ≡ true }
    requires known { (base : BaseValue) → slice_get known.now at ≡ Some base → is_live dir.now.objects
        base.object ≡ true }
    ensures { (tokens : List TokenValue) (sets : List (List Bool)) → All (IsBase dir.now tokens sets)
        known.now → IfSome result (λ place. slice_get sets place
        ≡ Some (set_apart dir.now tokens object (guids_of path.now) bit)) }
{
    match base_at(known, at) {
        Some(base) => place_if(fits(dir, base, object, bit, path), base.place),
        None => None,
    }
}

// Judges the tokens, and puts the set.
#[tactic(auto, unfolding(ad_rights::specs::Set::granted_set, crate::specs::Judged::is_granted_apart))]
fn judge(
    alloc: Global,
    dir: &Dir,
    tokens: &Tokens,
    sets: &mut Sets,
    object: u32,
    bit: u32,
    path: &Path,
) -> Result<usize, AllocError>
    requires live { is_live dir.now.objects object ≡ true }
    requires bit { bit < 32 }
    requires indexed { AreIndexed tokens.now }
    ensures kept { OnOk result (Keeps (sets_of sets.old) (sets_of sets.new)) }
    ensures place { IfOk result (λ place. slice_get (sets_of sets.new) place
        ≡ Some (set_apart dir.now tokens.now.all.items object (guids_of path.now) bit)) }
{
    let view = live_sd(dir, object);
    let set = granted_set(alloc, &view, tokens.holding(), None, path.guids(), bit)?;
    sets.put(set)
}

// Notes the place of a set that was judged.
fn note(bases: &mut Bases, hash: u64, base: Base) -> Result<(), AllocError>
    ensures { OnOk result (bases.new.known.items ≡ bases.old.known.items ++ base ∷ []) }
{
    let at = bases.known.len();
    bases.known.push(base)?;
    bases.hints.insert(hash, at)?;
    Ok(())
}

/// The place of the set of the tokens that are granted a right on a live object and a path, if the object had no
/// identifier. It is judged where it isn't known.
///
/// # Errors
///
/// Out of memory.
pub(crate) fn base_of(
    alloc: Global,
    dir: &Dir,
    tokens: &Tokens,
    sets: &mut Sets,
    bases: &mut Bases,
    object: u32,
    bit: u32,
    path: &Path,
) -> Result<usize, AllocError>
    requires live { is_live dir.now.objects object ≡ true }
    requires bit { bit < 32 }
    requires indexed { AreIndexed tokens.now }
    requires known { All (IsBase dir.now tokens.now.all.items (sets_of sets.now)) bases.now.known.items }
    ensures known { OnOk result (All (IsBase dir.now tokens.now.all.items (sets_of sets.new))
        bases.new.known.items) }
    ensures kept { OnOk result (Keeps (sets_of sets.old) (sets_of sets.new)) }
    ensures place { IfOk result (λ place. slice_get (sets_of sets.new) place
        ≡ Some (set_apart dir.now tokens.now.all.items object (guids_of path.now) bit)) }
{
    let hash = hash_of(dir, object, bit, path);
    if let Some(at) = bases.hints.get(&hash).copied() {
        if let Some(place) = place_at(dir, bases.known.as_slice(), at, object, bit, path) {
            return Ok(place);
        }
    }
    let place = judge(alloc, dir, tokens, sets, object, bit, path)?;
    note(
        bases,
        hash,
        Base {
            object,
            bit,
            path: *path,
            place,
        },
    )?;
    Ok(place)
}
