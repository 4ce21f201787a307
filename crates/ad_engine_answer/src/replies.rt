//! Replies that change nothing but, at most, the connection.

ghost use Rattle.std.specs.Prelude.{◌≡◌, [], true, false, None, IfOk};
ghost use Rattle.ad_dir_model.specs.Directory.{Directory};
ghost use Rattle.ad_ldap.specs.declared.reply.Reply.TheVariants.{Notice as NoticeReply};
ghost use Rattle.ad_ldap.specs.Reply.{reply_bytes};
ghost use Rattle.ad_engine_answer.specs.Decided.{IsDecided};
ghost use Rattle.ad_engine_answer.specs.Messages.{replies, done};

use crate::decided::Decided;
use ad_bytes::{Bytes, List};
use ad_ldap::{Reply, write_reply};
use std::alloc::{AllocError, Global};

/// Nothing but a reply.
pub(crate) fn replying(alloc: Global, bytes: Vec<u8>) -> Decided
    ensures { (dir : Directory) → IsDecided dir (replies bytes.items) result }
{
    Decided {
        reply: Bytes::from_vec(bytes),
        edits: List::new(alloc),
        drops: false,
    }
}

/// No reply, and the connection's token is dropped.
pub(crate) fn dropping(alloc: Global) -> Decided
    ensures { (dir : Directory) → IsDecided dir (record { reply = []; change = None; drops = true })
        result }
{
    Decided {
        reply: Bytes::new(alloc),
        edits: List::new(alloc),
        drops: true,
    }
}

/// The message of a result.
pub(crate) fn done(
    alloc: Global,
    id: u32,
    tag: u8,
    code: u8,
    matched: Vec<u8>,
    text: Vec<u8>,
) -> Result<Vec<u8>, AllocError>
    ensures { IfOk result (λ bytes. bytes.items ≡ done id tag code matched.items text.items) }
{
    let reply = Reply::Done {
        id,
        tag,
        code,
        matched: Bytes::from_vec(matched),
        text: Bytes::from_vec(text),
    };
    write_reply(alloc, &reply)
}

/// A result without a name and without a text, and nothing else.
pub(crate) fn refused(alloc: Global, id: u32, tag: u8, code: u8) -> Result<Decided, AllocError>
    ensures { IfOk result (λ decided. (dir : Directory)
        → IsDecided dir (replies (done id tag code [] [])) decided) }
{
    let bytes = done(alloc, id, tag, code, Vec::new(alloc), Vec::new(alloc))?;
    Ok(replying(alloc, bytes))
}

/// The Notice of Disconnection, and nothing else.
pub(crate) fn notice(alloc: Global) -> Result<Decided, AllocError>
    ensures { IfOk result (λ decided. (dir : Directory)
        → IsDecided dir (replies (reply_bytes NoticeReply)) decided) }
{
    let bytes = write_reply(alloc, &Reply::Notice)?;
    Ok(replying(alloc, bytes))
}
