//! Searches.

ghost use Rattle.std.specs.Prelude.{◌≡◌, ◌&&◌, ◌==◌, ◌∷◌, if◌then◌else◌, [], true, false, Some, is_some, IfOk};
ghost use Rattle.std.specs.Prelude.{find, IfSome, OnOk};
ghost use Rattle.std.specs.List.{AllByRecursion};
ghost use Rattle.ad_dir_model.specs.Objects.{is_live, numbers};
ghost use Rattle.ad_dir_model.specs.Tree.{root};
ghost use Rattle.ad_dir_model.specs.Names.{rdns_of};
ghost use Rattle.ad_dir_model.specs.Directory.{Directory};
ghost use Rattle.ad_types.specs.Tried.{tried_values};
ghost use Rattle.ad_access_dir.specs.Sight.{is_visible};
ghost use Rattle.ad_ldap.specs.MessageValue.{search_seen};
ghost use Rattle.ad_filter.specs.ThreeValues.{is_true};
ghost use Rattle.ad_filter.specs.Filtering.{truth};
ghost use Rattle.ad_entries.specs.Seen.{seen_of, reads, view};
ghost use Rattle.ad_search.specs.Scope.{is_named};
ghost use Rattle.ad_search.specs.Search.{is_found, entries_from, answer_at, search_answer};
ghost use Rattle.ad_search.specs.Reads.{found_among, reads_at, reads_of};
ghost use Rattle.ad_entries.specs.Judged.{AreKinds};
ghost use Rattle.ad_search.specs.Parents.{IsKept};
ghost use Rattle.ad_search.specs.Subtree.{subtree};
ghost use Rattle.ad_search.specs.Steps.{entries_among, Steps, objects_asked};
ghost use Rattle.ad_search.specs.ReadSteps.{kept, and_then, reads_behind, ReadsOne};

use crate::candidates::{indexed_of, left_of};
use crate::finding::{matched, seen_named};
use crate::joining::{Joined, done, end_code, ended, join};
use crate::naming::in_scope;
use crate::observing::{Trace, keep_reads, new_trace, no_trace};
use crate::parents::{Parent, is_seen, no_parent};
use crate::subtree::subtree;
use ad_dir::{Dir, ROOT};
use ad_dn::Dn;
use ad_entries::{Asking, Kinds, Sight, entry_judged, no_kinds};
use ad_filter::{Truth, truth};
use ad_ids::Token;
use ad_ldap::result_code::{INVALID_DN_SYNTAX, NO_SUCH_OBJECT};
use ad_ldap::{BASE_OBJECT, SINGLE_LEVEL, Search};
use ad_needs_rules::read_name;
use ad_types::Tried;
use std::alloc::{AllocError, Global};

// Whether the filter is true of an object.
#[tactic(auto, unfolding(ad_entries::specs::Seen::reads))]
fn is_true_of(alloc: Global, asking: &Asking<'_>, number: u32) -> Result<bool, AllocError>
    ensures { IfOk result (λ is. is ≡ is_true (truth (reads asking.now.dir.now.schema
        (seen_of asking.now.dir.now asking.now.token.now number))
        (search_seen asking.now.search.now).filter)) }
{
    let sight = Sight {
        dir: asking.dir,
        token: asking.token,
        number,
    };
    match truth(alloc, &asking.search.filter, &sight)? {
        Truth::True => Ok(true),
        Truth::False => Ok(false),
        Truth::Undefined => Ok(false),
    }
}

// The name of an object that is seen, in scope, and of which the filter is true.
#[tactic(auto, unfolding(crate::specs::Search::is_found, ad_entries::specs::Seen::seen_of))]
fn found_name(
    alloc: Global,
    asking: &Asking<'_>,
    number: u32,
    base: &Dn,
    last: &mut Parent,
) -> Result<Option<Dn>, AllocError>
    requires live { is_live asking.now.dir.now.objects number ≡ true }
    requires kept { IsKept asking.now.dir.now asking.now.token.now last.old }
    ensures found { IfOk result (λ name. is_some name
        ≡ (is_visible asking.now.dir.now asking.now.token.now number
        && is_found asking.now.dir.now.schema (search_seen asking.now.search.now) base.now
        (seen_of asking.now.dir.now asking.now.token.now number))) }
    ensures name { IfOk result (λ name. IfSome name (λ dn. dn.rdns
        ≡ rdns_of asking.now.dir.now number)) }
    ensures kept { IsKept asking.now.dir.now asking.now.token.now last.new }
{
    if !is_seen(asking.dir, asking.token, number, last) {
        return Ok(None);
    }
    let name = asking.dir.dn(alloc, number)?;
    if !in_scope(
        asking.search.scope,
        base.rdns.as_slice(),
        name.rdns.as_slice(),
    ) {
        return Ok(None);
    }
    if is_true_of(alloc, asking, number)? {
        return Ok(Some(name));
    }
    Ok(None)
}

// Joins the entry of one more object, where it has one, and keeps what it tried; or gives the code with which the
// search ends before it.
fn step(
    alloc: Global,
    asking: &Asking<'_>,
    number: u32,
    base: &Dn,
    last: &mut Parent,
    kinds: &mut Kinds,
    joined: &mut Joined,
    trace: &mut Trace,
) -> Result<Option<u8>, AllocError>
    requires live { is_live asking.now.dir.now.objects number ≡ true }
    requires kept { IsKept asking.now.dir.now asking.now.token.now last.old }
    requires kinds { AreKinds asking.now.dir.now asking.now.token.now
        (search_seen asking.now.search.now) kinds.old }
    ensures kept { IsKept asking.now.dir.now asking.now.token.now last.new }
    ensures kinds { OnOk result (AreKinds asking.now.dir.now asking.now.token.now
        (search_seen asking.now.search.now) kinds.new) }
    ensures steps { IfOk result (λ code. Steps asking.now.id asking.now.search.now.size joined.old
        (entries_among asking.now.dir.now asking.now.token.now asking.now.id
        (search_seen asking.now.search.now) asking.now.flags base.now (number ∷ []))
        joined.new code) }
    ensures reads { IfOk result (λ code. ReadsOne asking.now.dir.now asking.now.token.now
        asking.now.id (search_seen asking.now.search.now) asking.now.flags base.now number
        joined.old trace.old joined.new trace.new code) }
{
    let Some(name) = found_name(alloc, asking, number, base, last)? else {
        return Ok(None);
    };
    let made = entry_judged(alloc, asking, number, &name, kinds)?;
    if let Some(code) = join(joined, asking.search.size, &made)? {
        return Ok(Some(code));
    }
    keep_reads(alloc, asking, number, kinds, trace)?;
    Ok(None)
}

// The entries of these objects, and the message at the end.
fn entries(
    alloc: Global,
    asking: &Asking<'_>,
    numbers: &[u32],
    base: &Dn,
    trace: &mut Trace,
) -> Result<Vec<u8>, AllocError>
    requires { AllByRecursion (λ number. is_live asking.now.dir.now.objects number ≡ true)
        numbers.now }
    ensures bytes { IfOk result (λ bytes. bytes.items
        ≡ entries_from asking.now.id asking.now.search.now.size 0 0 false
        (entries_among asking.now.dir.now asking.now.token.now asking.now.id
        (search_seen asking.now.search.now) asking.now.flags base.now numbers.now)) }
    ensures reads { OnOk result (kept trace.new ≡ and_then (kept trace.old)
        (reads_behind asking.now.dir.now asking.now.token.now asking.now.id
        (search_seen asking.now.search.now) asking.now.flags 0 0
        (found_among asking.now.dir.now asking.now.token.now (search_seen asking.now.search.now)
        base.now numbers.now))) }
{
    let mut last = no_parent(asking.dir);
    let mut kinds = no_kinds(alloc, asking)?;
    let mut joined = Joined::new(alloc);
    'each: for number in numbers {
        let stop = step(
            alloc,
            asking,
            *number,
            base,
            &mut last,
            &mut kinds,
            &mut joined,
            trace,
        )?;
        if let Some(code) = stop {
            return ended(alloc, joined, asking.id, code);
        }
    }
    let code = end_code(joined.is_short);
    ended(alloc, joined, asking.id, code)
}

fn copied(alloc: Global, numbers: &[u32]) -> Result<Vec<u32>, AllocError>
    ensures { IfOk result (λ copy. copy.items ≡ numbers.now) }
{
    numbers.to_vec(alloc)
}

// The objects of a subtree, which are all where its base is the root.
fn whole_asked(alloc: Global, dir: &Dir, base: u32) -> Result<Vec<u32>, AllocError>
    requires { is_live dir.now.objects base ≡ true }
    ensures { IfOk result (λ asked. asked.items
        ≡ (if base == root then numbers dir.now.objects else subtree dir.now base)) }
{
    if base == ROOT {
        return dir.numbers(alloc);
    }
    subtree(alloc, dir, base)
}

// The objects that may have an entry: where the base alone is asked for that one, where those right below it its
// children, and else those of its subtree.
#[tactic(auto, unfolding(crate::specs::Steps::objects_asked))]
fn objects_asked(alloc: Global, dir: &Dir, scope: u8, base: u32) -> Result<Vec<u32>, AllocError>
    requires { is_live dir.now.objects base ≡ true }
    ensures asked { IfOk result (λ numbers. numbers.items ≡ objects_asked dir.now scope base) }
    ensures live { IfOk result (λ numbers.
        AllByRecursion (λ number. is_live dir.now.objects number ≡ true) numbers.items) }
{
    if scope == BASE_OBJECT {
        let mut numbers = Vec::new(alloc);
        numbers.push(base)?;
        return Ok(numbers);
    }
    if scope == SINGLE_LEVEL {
        return copied(alloc, dir.children(base));
    }
    whole_asked(alloc, dir, base)
}

// The objects that may have an entry below a base that is seen, by the indexes where those give them. Of these the same
// are found as of all.
fn candidates(
    alloc: Global,
    asking: &Asking<'_>,
    number: u32,
    base: &Dn,
) -> Result<Vec<u32>, AllocError>
    requires live { is_live asking.now.dir.now.objects number ≡ true }
    requires base { Some (seen_of asking.now.dir.now asking.now.token.now number)
        ≡ find (is_named base.now.rdns) (view asking.now.dir.now asking.now.token.now) }
    ensures same { IfOk result (λ left. found_among asking.now.dir.now asking.now.token.now
        (search_seen asking.now.search.now) base.now left.items
        ≡ found_among asking.now.dir.now asking.now.token.now (search_seen asking.now.search.now)
        base.now (numbers asking.now.dir.now.objects)) }
    ensures live { IfOk result (λ left.
        AllByRecursion (λ number. is_live asking.now.dir.now.objects number ≡ true) left.items) }
{
    let dir = asking.dir;
    let search = asking.search;
    dir.invariants();
    if let Some(found) = indexed_of(alloc, dir, search, number)? {
        return Ok(found);
    }
    let asked = objects_asked(alloc, dir, search.scope, number)?;
    let left = left_of(alloc, dir, search, asked)?;
    Ok(left)
}

// The answer where the base could be read.
fn answer_at(
    alloc: Global,
    asking: &Asking<'_>,
    base: &Dn,
    trace: &mut Trace,
) -> Result<Vec<u8>, AllocError>
    ensures bytes { IfOk result (λ bytes. bytes.items ≡ answer_at asking.now.dir.now.schema
        (view asking.now.dir.now asking.now.token.now) asking.now.id
        (search_seen asking.now.search.now) asking.now.flags (Some base.now)) }
    ensures reads { OnOk result (kept trace.new ≡ and_then (kept trace.old)
        (reads_at asking.now.dir.now asking.now.token.now asking.now.id
        (search_seen asking.now.search.now) asking.now.flags (Some base.now))) }
{
    match seen_named(alloc, asking.dir, asking.token, base)? {
        Some(number) => {
            let numbers = candidates(alloc, asking, number, base)?;
            entries(alloc, asking, numbers.as_slice(), base, trace)
        }
        None => {
            let name = matched(alloc, asking.dir, asking.token, base)?;
            done(alloc, asking.id, NO_SUCH_OBJECT, name)
        }
    }
}

// The answer, and what was tried for it.
#[tactic(auto, unfolding(crate::specs::Search::search_answer, crate::specs::Search::answer_seen, crate::specs::Reads::reads_of))]
fn answer_read(
    alloc: Global,
    dir: &Dir,
    token: &Token,
    id: u32,
    search: &Search,
    flags: u8,
    trace: &mut Trace,
) -> Result<Vec<u8>, AllocError>
    ensures bytes { IfOk result (λ bytes. bytes.items ≡ search_answer dir.now token.now id
        (search_seen search.now) flags) }
    ensures reads { OnOk result (kept trace.new ≡ and_then (kept trace.old)
        (reads_of dir.now token.now id (search_seen search.now) flags)) }
{
    let asking = Asking {
        dir,
        token,
        search,
        id,
        flags,
    };
    match read_name(alloc, search.base.as_slice())? {
        Some(base) => answer_at(alloc, &asking, &base, trace),
        None => done(alloc, id, INVALID_DN_SYNTAX, Vec::new(alloc)),
    }
}

/// The answer to a search: the messages of the entries by rising number of their objects, and the message at the end,
/// joined (RFC 4511 4.5.2). `id` is the request's message number, and the four low bits of `flags` are the parts of a
/// descriptor that are asked for: 1 the owner, 2 the group, 4 the discretionary list, 8 the system list. A scope
/// above 1 is the base and all below it.
///
/// The code at the end is 34 where the base can't be read, 32 where no object of its name is visible, 4 where the
/// size limit ends the search, 11 where an entry would bring the joined entries above 16,777,216 bytes or a
/// descriptor with a list above 65,535 bytes was left out, and else 0.
///
/// # Errors
///
/// Out of memory.
pub fn answer(
    alloc: Global,
    dir: &Dir,
    token: &Token,
    id: u32,
    search: &Search,
    flags: u8,
) -> Result<Vec<u8>, AllocError>
    // The answer is that of the rules.
    ensures answer { IfOk result (λ bytes. bytes.items ≡ search_answer dir.now token.now id
        (search_seen search.now) flags) }
    // It is the answer in every directory of this schema of which the token sees the same.
    ensures two_worlds { IfOk result (λ bytes. (other : Directory) → other.schema ≡ dir.now.schema
        → view other token.now ≡ view dir.now token.now
        → bytes.items ≡ search_answer other token.now id (search_seen search.now) flags) }
{
    let mut trace = no_trace(alloc);
    answer_read(alloc, dir, token, id, search, flags, &mut trace)
}

/// What a search tried, entry by entry in the order of its answer: the right to read each attribute that the entry
/// has, and where it has the descriptor the rights for the parts that were asked for. All of it was granted. `id` and
/// `flags` are as in `answer`. It is kept while the answer is made, which is dropped.
///
/// # Errors
///
/// Out of memory.
pub fn reads(
    alloc: Global,
    dir: &Dir,
    token: &Token,
    id: u32,
    search: &Search,
    flags: u8,
) -> Result<Vec<Tried>, AllocError>
    ensures { IfOk result (λ tried. tried_values tried.items ≡ reads_of dir.now token.now id
        (search_seen search.now) flags) }
{
    let mut trace = new_trace(alloc);
    answer_read(alloc, dir, token, id, search, flags, &mut trace)?;
    Ok(trace.tried)
}
