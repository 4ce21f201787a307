//! What messages try.

ghost use Rattle.std.specs.Prelude.{◌≡◌, [], false, IfOk};
ghost use Rattle.ad_ldap.specs.MessageValue.{op_seen, search_seen, message_seen};
ghost use Rattle.ad_ldap.specs.Settings.{settings_of};
ghost use Rattle.ad_search.specs.Reads.{reads_of};
ghost use Rattle.ad_search.specs.Compared.{compared_of};
ghost use Rattle.ad_types.specs.Tried.{tried_values};
ghost use Rattle.cmd_audit.specs.Tries.{with_settings, change_tries, op_tries, message_tries, looks, message_looks};

use ad_dir::Dir;
use ad_ids::Token;
use ad_ldap::{Compare, LdapFault, Message, Op, Search, read_message, settings};
use ad_needs::trace;
use ad_search::{compared, reads};
use ad_types::Tried;
use std::alloc::{AllocError, Global};

/// What a message tries, and whether it is one that only looks.
#[derive(Drop)]
pub(crate) struct Accesses {
    pub tried: Vec<Tried>,
    pub looks: bool,
}

fn of_search(
    alloc: Global,
    dir: &Dir,
    token: &Token,
    message: &Message,
    request: &Search,
) -> Result<Vec<Tried>, AllocError>
    ensures { IfOk result (λ tried. tried_values tried.items
        ≡ with_settings (λ s. reads_of dir.now token.now message.now.id (search_seen request.now)
        s.sd_flags) (settings_of (message_seen message.now))) }
{
    match settings(message) {
        Ok(settings) => reads(alloc, dir, token, message.id, request, settings.sd_flags),
        Err(_) => Ok(Vec::new(alloc)),
    }
}

fn of_compare(
    alloc: Global,
    dir: &Dir,
    token: &Token,
    message: &Message,
    request: &Compare,
) -> Result<Vec<Tried>, AllocError>
    ensures { IfOk result (λ tried. tried_values tried.items
        ≡ with_settings (λ s. compared_of dir.now token.now request.now)
        (settings_of (message_seen message.now))) }
{
    match settings(message) {
        Ok(_) => compared(alloc, dir, token, request),
        Err(_) => Ok(Vec::new(alloc)),
    }
}

fn of_change(
    alloc: Global,
    dir: &Dir,
    token: &Token,
    message: &Message,
) -> Result<Vec<Tried>, AllocError>
    ensures { IfOk result (λ tried. tried_values tried.items ≡ change_tries dir.now token.now
        (message_seen message.now)) }
{
    match settings(message) {
        Ok(settings) => trace(alloc, dir, token, &message.op, &settings),
        Err(_) => Ok(Vec::new(alloc)),
    }
}

// By its operation.
fn of_operation(
    alloc: Global,
    dir: &Dir,
    token: &Token,
    message: &Message,
) -> Result<Vec<Tried>, AllocError>
    ensures { IfOk result (λ tried. tried_values tried.items ≡ op_tries dir.now token.now
        (message_seen message.now) (op_seen message.now.op)) }
{
    match &message.op {
        Op::Search(request) => of_search(alloc, dir, token, message, request),
        Op::Compare(request) => of_compare(alloc, dir, token, message, request),
        Op::Modify(_) => of_change(alloc, dir, token, message),
        Op::Add(_) => of_change(alloc, dir, token, message),
        Op::Delete(_) => of_change(alloc, dir, token, message),
        Op::Rename(_) => of_change(alloc, dir, token, message),
        Op::Bind => Ok(Vec::new(alloc)),
        Op::Unbind => Ok(Vec::new(alloc)),
        Op::Abandon => Ok(Vec::new(alloc)),
        Op::Extended => Ok(Vec::new(alloc)),
    }
}

// Whether the operation only looks.
fn looks(op: &Op) -> bool
    ensures { result ≡ looks (op_seen op.now) }
{
    match op {
        Op::Search(_) => true,
        Op::Compare(_) => true,
        Op::Modify(_) => false,
        Op::Add(_) => false,
        Op::Delete(_) => false,
        Op::Rename(_) => false,
        Op::Bind => false,
        Op::Unbind => false,
        Op::Abandon => false,
        Op::Extended => false,
    }
}

// What a message that was read tries.
fn of_message(
    alloc: Global,
    dir: &Dir,
    token: &Token,
    message: &Message,
) -> Result<Accesses, AllocError>
    ensures tried { IfOk result (λ accesses. tried_values accesses.tried.items
        ≡ op_tries dir.now token.now (message_seen message.now) (op_seen message.now.op)) }
    ensures looks { IfOk result (λ accesses. accesses.looks ≡ looks (op_seen message.now.op)) }
{
    let tried = of_operation(alloc, dir, token, message)?;
    Ok(Accesses {
        tried,
        looks: looks(&message.op),
    })
}

// What bytes that encode no message try.
fn of_none(alloc: Global) -> Accesses
    ensures tried { tried_values result.tried.items ≡ [] }
    ensures looks { result.looks ≡ false }
{
    Accesses {
        tried: Vec::new(alloc),
        looks: false,
    }
}

/// What the bytes of a message try, by the token of their connection.
///
/// # Errors
///
/// Out of memory.
#[tactic(auto, unfolding(crate::specs::Tries::message_tries, crate::specs::Tries::message_looks))]
pub(crate) fn accesses_of(
    alloc: Global,
    dir: &Dir,
    token: &Token,
    bytes: &[u8],
) -> Result<Accesses, AllocError>
    ensures tried { IfOk result (λ accesses. tried_values accesses.tried.items
        ≡ message_tries dir.now token.now bytes.now) }
    ensures looks { IfOk result (λ accesses. accesses.looks ≡ message_looks bytes.now) }
{
    match read_message(alloc, bytes) {
        Ok(message) => of_message(alloc, dir, token, &message),
        Err(LdapFault::Memory) => Err(AllocError),
        Err(LdapFault::Ber(_)) => Ok(of_none(alloc)),
        Err(LdapFault::Form(_)) => Ok(of_none(alloc)),
        Err(LdapFault::Deep) => Ok(of_none(alloc)),
    }
}
