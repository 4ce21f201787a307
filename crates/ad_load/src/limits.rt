//! Phase 4: the limits of a directory, and the default descriptors of its classes.

ghost use Rattle.std.specs.Prelude.{◌≡◌, ◌≤◌, ◌+◌, nat_le, map, length, IfOk};
ghost use Rattle.std.specs.List.{list_all};
ghost use Rattle.std.specs.Option.{option_copied};
ghost use Rattle.ad_bytes.specs.Reading.{GivesUnless};
ghost use Rattle.ad_dn.specs.Text.{rdns_text};
ghost use Rattle.ad_dir_model.specs.Limits.{max_depth, max_text};
ghost use Rattle.ad_load_records.specs.Faults.{is_memory};
ghost use Rattle.ad_load.specs.Links.{root_rdns, is_shallow, with_default, all_defaults};
ghost use Rattle.ad_load_objects.specs.Seen.{draft_seen};

use ad_dn::Dn;
use ad_ids::Sid;
use ad_load_objects::Draft;
use ad_load_records::{LoadCause, LoadFault, bad};
use ad_schema::{ClassInfo, Schema};
use ad_sddl::{SddlFault, read};
use std::alloc::{AllocError, Global};

/// The largest number of parents above an object.
const MAX_DEPTH: usize = 64;

/// The largest number of bytes of the text of the name above the root.
const MAX_TEXT: usize = 1_048_576;

// The number of parts of the root's name.
fn root_parts(drafts: &[Draft]) -> usize
    ensures { result ≡ length (root_rdns (map draft_seen drafts.now)) }
{
    match drafts {
        [] => 0,
        [root, ..] => root.dn.rdns.len(),
    }
}

#[tactic(auto, unfolding(ad_dir_model::specs::Limits::max_depth))]
fn is_shallow(draft: &Draft, root: usize) -> bool
    ensures { result ≡ nat_le (length draft.now.dn.rdns) (root + max_depth) }
{
    draft.dn.rdns.len().saturating_sub(root) <= MAX_DEPTH
}

fn all_shallow(drafts: &[Draft], root: usize) -> bool
    ensures { result ≡ list_all (λ draft. nat_le (length draft.dn.rdns) (root + max_depth))
        drafts.now }
{
    drafts.iter().all(|draft| is_shallow(draft, root))
}

/// Whether no object is too deep.
pub(crate) fn are_shallow(drafts: &[Draft]) -> bool
    ensures { result ≡ list_all (is_shallow (map draft_seen drafts.now))
        (map draft_seen drafts.now) }
{
    all_shallow(drafts, root_parts(drafts))
}

/// Whether the text of a name isn't too long for a suffix.
#[tactic(auto, unfolding(ad_dir_model::specs::Limits::max_text))]
pub(crate) fn is_short(alloc: Global, suffix: &Dn) -> Result<bool, AllocError>
    ensures { IfOk result (λ short. short ≡ nat_le (length (rdns_text suffix.now.rdns)) max_text) }
{
    let text = suffix.text(alloc)?;
    Ok(text.len() <= MAX_TEXT)
}

// The default descriptor of a class can be read.
#[tactic(auto, unfolding(crate::specs::Links::with_default))]
fn check_default(alloc: Global, domain: Option<&Sid>, info: &ClassInfo) -> Result<(), LoadFault>
    ensures { GivesUnless is_memory (λ _. tt) result
        (with_default (option_copied domain.entry) tt info.now) }
{
    let Some(text) = &info.default_sd else {
        return Ok(());
    };
    match read(alloc, text.as_slice(), domain) {
        Ok(_) => Ok(()),
        Err(SddlFault::Bad { .. }) => Err(bad(0, LoadCause::SchemaDefault(info.name.copy(alloc)?))),
        Err(SddlFault::Memory) => Err(LoadFault::Memory),
    }
}

/// The default descriptors of all classes can be read.
#[tactic(auto, unfolding(crate::specs::Links::all_defaults))]
pub(crate) fn check_defaults(
    alloc: Global,
    schema: &Schema,
    domain: Option<&Sid>,
) -> Result<(), LoadFault>
    ensures { GivesUnless is_memory (λ _. tt) result
        (all_defaults schema.now (option_copied domain.entry)) }
{
    for info in schema.classes() {
        check_default(alloc, domain, info)?;
    }
    Ok(())
}
