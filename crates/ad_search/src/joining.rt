//! The messages of entries, joined one after the other.

ghost use Rattle.std.specs.Prelude.{◌≡◌, ◌++◌, ◌+◌, ◌||◌, ℕ, nat_lt, false, [], ◌∷◌, length, IfOk};
ghost use Rattle.ad_search.specs.Search.{most_joined, stop_code, end_code, done};
ghost use Rattle.ad_entries.specs.Given.{made_seen};
ghost use Rattle.ad_search.specs.Steps.{Steps};
ghost use Rattle.ad_search.specs.ReadSteps.{Counts};

use ad_bytes::Bytes;
use ad_entries::Made;
use ad_ldap::result_code::{ADMIN_LIMIT_EXCEEDED, SIZE_LIMIT_EXCEEDED, SUCCESS};
use ad_ldap::tags::SEARCH_DONE;
use ad_ldap::{Reply, write_reply};
use std::alloc::{AllocError, Global};

/// The most bytes of all entries of a search together.
const MAX_JOINED: usize = 16_777_216;

/// The entries so far: their messages, how many they are, and whether a descriptor of them was left out.
#[derive(Drop)]
pub(crate) struct Joined {
    pub bytes: Vec<u8>,
    pub given: usize,
    pub is_short: bool,
}

impl Joined {
    pub fn new(alloc: Global) -> Joined
        ensures bytes { result.bytes.items ≡ [] }
        ensures given { result.given ≡ 0 }
        ensures short { result.is_short ≡ false }
    {
        Joined {
            bytes: Vec::new(alloc),
            given: 0,
            is_short: false,
        }
    }
}

// One more, where memory could hold so many.
fn one_more(count: usize) -> Result<usize, AllocError>
    ensures { IfOk result (λ n. n ≡ count + 1) }
{
    match count.checked_add(1) {
        Some(n) => Ok(n),
        None => Err(AllocError),
    }
}

fn either(a: bool, b: bool) -> bool
    ensures { result ≡ (a || b) }
{
    a || b
}

// Whether so many bytes more are more than all entries may have.
#[tactic(auto, unfolding(crate::specs::Search::most_joined))]
fn is_too_long(joined: usize, next: usize) -> bool
    ensures { result ≡ nat_lt most_joined (joined + next) }
{
    match joined.checked_add(next) {
        Some(sum) => MAX_JOINED < sum,
        None => true,
    }
}

// The code with which a search ends before its next entry.
#[tactic(auto, unfolding(crate::specs::Search::stop_code))]
fn stop_code(size: u32, given: usize, joined: usize, next: usize) -> Option<u8>
    ensures { result ≡ stop_code size given joined next }
{
    if size != 0 && size as usize <= given {
        return Some(SIZE_LIMIT_EXCEEDED);
    }
    if is_too_long(joined, next) {
        return Some(ADMIN_LIMIT_EXCEEDED);
    }
    None
}

/// Joins one more entry, or gives the code with which the search ends before it.
pub(crate) fn join(joined: &mut Joined, size: u32, made: &Made) -> Result<Option<u8>, AllocError>
    ensures steps { IfOk result (λ code. (id : ℕ) → Steps id size joined.old
        (made_seen made.now ∷ []) joined.new code) }
    ensures counts { IfOk result (λ code. Counts size joined.old joined.new
        (length (made_seen made.now).message) code) }
{
    if let Some(code) = stop_code(
        size,
        joined.given,
        joined.bytes.as_slice().len(),
        made.message.as_slice().len(),
    ) {
        return Ok(Some(code));
    }
    let given = one_more(joined.given)?;
    joined.bytes.extend_from_slice(made.message.as_slice())?;
    joined.given = given;
    joined.is_short = either(joined.is_short, made.is_short);
    Ok(None)
}

/// The message at the end of a search.
pub(crate) fn done(
    alloc: Global,
    id: u32,
    code: u8,
    matched: Vec<u8>,
) -> Result<Vec<u8>, AllocError>
    ensures { IfOk result (λ bytes. bytes.items ≡ done id code matched.items) }
{
    let reply = Reply::Done {
        id,
        tag: SEARCH_DONE,
        code,
        matched: Bytes::from_vec(matched),
        text: Bytes::new(alloc),
    };
    write_reply(alloc, &reply)
}

/// All entries, and the message at the end.
pub(crate) fn ended(alloc: Global, joined: Joined, id: u32, code: u8) -> Result<Vec<u8>, AllocError>
    ensures { IfOk result (λ bytes. bytes.items ≡ joined.bytes.items ++ done id code []) }
{
    let last = done(alloc, id, code, Vec::new(alloc))?;
    let mut bytes = joined.bytes;
    bytes.extend_from_slice(last.as_slice())?;
    Ok(bytes)
}

/// The code at the end of a search that came to its end.
pub(crate) fn end_code(is_short: bool) -> u8
    ensures { result ≡ end_code is_short }
{
    if is_short {
        ADMIN_LIMIT_EXCEEDED
    } else {
        SUCCESS
    }
}
