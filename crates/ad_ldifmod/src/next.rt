//! One line after the other: each message as it comes, and nothing of it is kept but the list of its object.

ghost use Rattle.std.specs.Prelude.{◌≡◌, ◌<◌, ◌≤◌, false, length, Err, IfOk, IfErr};
ghost use Rattle.ad_ldifmod.specs.Lines.{most_bytes};
ghost use Rattle.ad_ldifmod.specs.Grants.{is_memory};
ghost use Rattle.ad_ldifmod.specs.Taken.{Begins, left, HasRoom, IsNext, IsTaken, IsFaulty};

use crate::fault::{GrantFault, Refusal};
use crate::lines::{first_line, says_nothing};
use crate::list_cache::ListCache;
use crate::steps::message_by;
use ad_dir::Dir;
use ad_ldap::Message;
use std::alloc::Global;
use std::collections::HashMap;

/// How far the lines of a text were taken: the lists of the objects that they named, and how many lines and messages
/// these were.
#[derive(Drop)]
pub struct Taken {
    pub(crate) cache: ListCache,
    pub(crate) lines: u32,
    pub(crate) messages: u32,
}

impl Taken {
    /// Before the first line.
    pub fn none(alloc: Global) -> Taken
        ensures { Begins result }
    {
        Taken {
            cache: HashMap::new(alloc),
            lines: 0,
            messages: 0,
        }
    }
}

// Takes a line.
fn take_line(
    alloc: Global,
    taken: &mut Taken,
    dir: &Dir,
    line: &[u8],
) -> Result<Option<Message>, GrantFault>
    requires room { taken.old.lines < most_bytes }
    requires fewer { taken.old.messages ≤ taken.old.lines }
    ensures taken { IfOk result (λ message. IsTaken dir.now taken.old taken.new line.now message) }
    ensures faulty { IfErr result (IsFaulty dir.now taken.old line.now) }
{
    taken.lines += 1;
    if says_nothing(line) {
        return Ok(None);
    }
    let id = taken.messages + 1;
    match message_by(alloc, &mut taken.cache, dir, id, line) {
        Ok(message) => {
            taken.messages = id;
            Ok(Some(message))
        }
        Err(Refusal::Bad(kind)) => Err(GrantFault::Bad {
            line: taken.lines,
            kind,
        }),
        Err(Refusal::Memory) => Err(GrantFault::Memory),
    }
}

/// Takes the first line of a text, and gives its message, which is none where the line says nothing, and the text
/// after it. The messages that come so are those of [`grants`](crate::grants).
///
/// # Errors
///
/// `Bad` where the line gives no message, with its number from 1, as `grants` has it. `Memory` may come instead of any
/// answer, and then nothing is known of what was taken.
pub fn next_message<'a>(
    alloc: Global,
    taken: &mut Taken,
    dir: &Dir,
    text: &'a [u8],
) -> Result<(Option<Message>, &'a [u8]), GrantFault>
    requires some { 0 < length text.now }
    requires room { HasRoom taken.old text.now }
    ensures next { IfOk result (λ given. IsNext dir.now taken.old taken.new text.now given.0
        given.1.now) }
    ensures faulty { IfErr result (λ fault. is_memory fault ≡ false → left dir.now taken.old text.now
        ≡ Err fault) }
{
    let (line, behind) = first_line(text);
    match take_line(alloc, taken, dir, line) {
        Ok(message) => Ok((message, behind)),
        Err(fault) => Err(fault),
    }
}
