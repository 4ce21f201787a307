//! Messages: what each is answered.

ghost use Rattle.std.specs.Prelude.{◌≡◌, IfOk};
ghost use Rattle.ad_dir_model.specs.Soundness.{IsSound};
ghost use Rattle.ad_ldap.specs.MessageValue.{op_seen, search_seen, message_seen};
ghost use Rattle.ad_ldap.specs.Settings.{settings_of};
ghost use Rattle.ad_ldap.specs.Ranges.{HasOpRanges};
ghost use Rattle.ad_search.specs.Search.{search_answer};
ghost use Rattle.ad_search.specs.Compare.{compare_answer};
ghost use Rattle.ad_engine_answer.specs.Decided.{IsDecided};
ghost use Rattle.ad_engine_answer.specs.Messages.{replies, searched, compared, op_decided, message_decided};

use crate::changing::change;
use crate::decided::Decided;
use crate::replies::{dropping, notice, refused, replying};
use ad_dir::Dir;
use ad_ids::Token;
use ad_ldap::{
    Compare, LdapFault, Message, Op, Search, read_message, result_code, settings, tags,
    what_a_message_has,
};
use ad_search::{answer, compare};
use std::alloc::{AllocError, Global};

fn search(
    alloc: Global,
    dir: &Dir,
    token: &Token,
    message: &Message,
    request: &Search,
) -> Result<Decided, AllocError>
    ensures { IfOk result (IsDecided dir.now
        (replies (searched message.now.id
        (search_answer dir.now token.now message.now.id (search_seen request.now))
        (settings_of (message_seen message.now))))) }
{
    match settings(message) {
        Ok(settings) => {
            let bytes = answer(alloc, dir, token, message.id, request, settings.sd_flags)?;
            Ok(replying(alloc, bytes))
        }
        Err(code) => refused(alloc, message.id, tags::SEARCH_DONE, code),
    }
}

fn comparison(
    alloc: Global,
    dir: &Dir,
    token: &Token,
    message: &Message,
    request: &Compare,
) -> Result<Decided, AllocError>
    ensures { IfOk result (IsDecided dir.now
        (replies (compared message.now.id
        (compare_answer dir.now token.now message.now.id request.now)
        (settings_of (message_seen message.now))))) }
{
    match settings(message) {
        Ok(_) => {
            let bytes = compare(alloc, dir, token, message.id, request)?;
            Ok(replying(alloc, bytes))
        }
        Err(code) => refused(alloc, message.id, tags::COMPARE_RESPONSE, code),
    }
}

// What a message is answered, by its operation.
fn operation(
    alloc: Global,
    dir: &Dir,
    token: &Token,
    message: &Message,
) -> Result<Decided, AllocError>
    requires sound { IsSound dir.now }
    requires ranges { HasOpRanges (op_seen message.now.op) }
    ensures { IfOk result (IsDecided dir.now
        (op_decided dir.now token.now (message_seen message.now) (op_seen message.now.op))) }
{
    match &message.op {
        Op::Bind => refused(
            alloc,
            message.id,
            tags::BIND_RESPONSE,
            result_code::AUTH_METHOD_NOT_SUPPORTED,
        ),
        Op::Unbind => Ok(dropping(alloc)),
        Op::Search(request) => search(alloc, dir, token, message, request),
        Op::Compare(request) => comparison(alloc, dir, token, message, request),
        Op::Modify(_) => change(alloc, dir, token, message, tags::MODIFY_RESPONSE),
        Op::Add(_) => change(alloc, dir, token, message, tags::ADD_RESPONSE),
        Op::Delete(_) => change(alloc, dir, token, message, tags::DELETE_RESPONSE),
        Op::Rename(_) => change(alloc, dir, token, message, tags::RENAME_RESPONSE),
        Op::Abandon => Ok(replying(alloc, Vec::new(alloc))),
        Op::Extended => refused(
            alloc,
            message.id,
            tags::EXTENDED_RESPONSE,
            result_code::PROTOCOL_ERROR,
        ),
    }
}

/// What the bytes of a message are answered, by the token of their connection, on a sound directory: the messages of
/// the reply, joined, and the edits that make the change. A change that is refused has no edits, and so has one that
/// leaves the directory as it was, and every other request. Bytes that encode no message are answered by the Notice
/// of Disconnection (RFC 4511 4.4.1), a bind by 7 and an extended request by 2, an unbind and an abandon by nothing.
/// An unbind drops the connection's token.
///
/// # Errors
///
/// Out of memory.
#[tactic(auto, unfolding(crate::specs::Messages::message_decided))]
pub fn message_answer(
    alloc: Global,
    dir: &Dir,
    token: &Token,
    bytes: &[u8],
) -> Result<Decided, AllocError>
    requires { IsSound dir.now }
    ensures { IfOk result (IsDecided dir.now (message_decided dir.now token.now bytes.now)) }
{
    what_a_message_has();
    match read_message(alloc, bytes) {
        Ok(message) => operation(alloc, dir, token, &message),
        Err(LdapFault::Memory) => Err(AllocError),
        Err(LdapFault::Ber(_)) => notice(alloc),
        Err(LdapFault::Form(_)) => notice(alloc),
        Err(LdapFault::Deep) => notice(alloc),
    }
}
