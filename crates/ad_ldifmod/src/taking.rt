//! The lines of a whole text.

ghost use Rattle.std.specs.Prelude.{◌≡◌, ◌≤◌, [], false, Ok, Err, length, IfOk, IfErr, OnOk};
ghost use Rattle.ad_bytes.specs.Reading.{GivesUnless};
ghost use Rattle.ad_ldifmod.specs.Lines.{most_bytes};
ghost use Rattle.ad_ldifmod.specs.Grants.{is_memory, messages_of, AreFrames};
ghost use Rattle.ad_ldifmod.specs.Taken.{with_next, GivesSome};

use crate::fault::GrantFault;
use crate::next::{Taken, next_message};
use ad_dir::Dir;
use ad_ldap::Message;
use std::alloc::{AllocError, Global};

fn no_messages(alloc: Global) -> Vec<Message>
    ensures { result.items ≡ [] }
{
    Vec::new(alloc)
}

fn put(messages: &mut Vec<Message>, message: Option<Message>) -> Result<(), AllocError>
    ensures { OnOk result (messages.new.items ≡ with_next messages.old.items message) }
{
    if let Some(message) = message {
        messages.push(message)?;
    }
    Ok(())
}

/// The messages of lines after dsacls, with the numbers from 1 on. A line is `grant <entry> <name>`, `deny <entry>
/// <name>` or `revoke <identifier> <name>`, with one blank between its parts; the name goes on to the line's end.
/// Empty lines and lines that begin with `#` say nothing. A grant puts its entry after the list of its object, a
/// denial before it, and a revocation takes out all entries of the identifier. The list of an object begins as its
/// own entries are stored, and goes on from line to line. Entries and identifiers are those of SDDL, with the
/// root's identifier as the domain's.
///
/// # Errors
///
/// `Bad` with the first line that gives no message, counted from 1, and the first of these kinds: `Form` where the
/// line has another form; `Entry` where the entry isn't one that allows, or for `deny` one that denies, or says
/// that it was inherited, or the identifier isn't one; `Name` where the name isn't one or no object has it;
/// `TooLong` where the new list takes more than 65,535 bytes, or the message more than 1,048,576. `Memory` may come
/// instead of any answer.
pub fn grants(alloc: Global, dir: &Dir, text: &[u8]) -> Result<Vec<Message>, GrantFault>
    requires { length text.now ≤ most_bytes }
    // What the lines give, and which fault it is.
    ensures given { GivesUnless is_memory (λ messages. messages.items) result
        (messages_of dir.now text.now) }
    // Each message can be written, and a frame has room for it.
    ensures frames { IfOk result (λ messages. AreFrames messages.items) }
{
    let mut taken = Taken::none(alloc);
    let mut messages = no_messages(alloc);
    let mut rest = text;
    'lines: while !rest.is_empty() {
        let (message, behind) = next_message(alloc, &mut taken, dir, rest)?;
        put(&mut messages, message)?;
        rest = behind;
    }
    Ok(messages)
}

/// Whether each line of a text gives its message, as `grants` has it. Of the messages none is kept.
///
/// # Errors
///
/// Those of `grants`.
pub fn judge(alloc: Global, dir: &Dir, text: &[u8]) -> Result<(), GrantFault>
    requires { length text.now ≤ most_bytes }
    ensures some { OnOk result (GivesSome dir.now text.now) }
    ensures faulty { IfErr result (λ fault. is_memory fault ≡ false → messages_of dir.now text.now
        ≡ Err fault) }
{
    let mut taken = Taken::none(alloc);
    let mut rest = text;
    'lines: while !rest.is_empty() {
        match next_message(alloc, &mut taken, dir, rest) {
            Ok((_, behind)) => rest = behind,
            Err(fault) => return Err(fault),
        }
    }
    Ok(())
}
