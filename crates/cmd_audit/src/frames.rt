//! What a frame leaves in the security log.

ghost use Rattle.std.specs.Prelude.{◌≡◌, [], false, IfOk, OnOk};
ghost use Rattle.cmd_audit.specs.Log.{lines_of, body_lines, frame_lines};
ghost use Rattle.cmd_audit.specs.State.{behind};
ghost use Rattle.cmd_audit.specs.Steps.{body_looks};
ghost use Rattle.cmd_audit.specs.Tries.{message_tries, message_looks};

use crate::events::{Stamp, lines_of};
use crate::messages::accesses_of;
use crate::replay::Replay;
use ad_dir::Dir;
use ad_frames::{Frame, FrameBody};
use ad_ids::Token;
use std::alloc::{AllocError, Global};

// The lines of a frame, and whether it only looks.
#[derive(Drop)]
struct Judged {
    text: Vec<u8>,
    looks: bool,
}

// A message.
fn judge_message(
    alloc: Global,
    dir: &Dir,
    token: &Token,
    stamp: Stamp,
    bytes: &[u8],
) -> Result<Judged, AllocError>
    ensures text { IfOk result (λ judged. judged.text.items ≡ lines_of dir.now token.now stamp
        (message_tries dir.now token.now bytes.now)) }
    ensures looks { IfOk result (λ judged. judged.looks ≡ message_looks bytes.now) }
{
    let accesses = accesses_of(alloc, dir, token, bytes)?;
    let text = lines_of(alloc, dir, token, stamp, accesses.tried.as_slice())?;
    Ok(Judged {
        text,
        looks: accesses.looks,
    })
}

// A frame that tries nothing.
fn quiet(alloc: Global) -> Judged
    ensures text { result.text.items ≡ [] }
    ensures looks { result.looks ≡ false }
{
    Judged {
        text: Vec::new(alloc),
        looks: false,
    }
}

// Any frame, by its kind.
fn judge(
    alloc: Global,
    dir: &Dir,
    token: &Token,
    stamp: Stamp,
    body: &FrameBody,
) -> Result<Judged, AllocError>
    ensures text { IfOk result (λ judged. judged.text.items ≡ body_lines dir.now token.now stamp
        body.now) }
    ensures looks { IfOk result (λ judged. judged.looks ≡ body_looks body.now) }
{
    match body {
        FrameBody::Message(bytes) => { judge_message(alloc, dir, token, stamp, bytes.as_slice()) }
        FrameBody::Token(_) => Ok(quiet(alloc)),
        FrameBody::Steps(_) => Ok(quiet(alloc)),
        FrameBody::Run => Ok(quiet(alloc)),
    }
}

// By the directory and the tokens from before it.
#[tactic(auto, unfolding(crate::specs::Log::frame_lines))]
fn judge_frame(
    alloc: Global,
    replay: &Replay,
    number: u32,
    frame: &Frame,
) -> Result<Judged, AllocError>
    ensures text { IfOk result (λ judged. judged.text.items ≡ frame_lines replay.now.directory
        replay.now.tokens number frame.now) }
    ensures looks { IfOk result (λ judged. judged.looks ≡ body_looks frame.now.body) }
{
    let stamp = Stamp {
        frame: number,
        connection: frame.connection,
    };
    judge(
        alloc,
        replay.dir(),
        replay.token(frame.connection),
        stamp,
        &frame.body,
    )
}

// Serves the frame, unless it only looks: such a one leaves the directory and the tokens as they are.
fn serve_unless(replay: &mut Replay, looks: bool, frame: &Frame) -> Result<(), AllocError>
    requires { looks ≡ body_looks frame.now.body }
    ensures { OnOk result (replay.new ≡ behind replay.old frame.now) }
{
    if looks {
        return Ok(());
    }
    replay.serve(frame)
}

/// The lines of the next frame, which has this number. It is judged before it is served.
///
/// # Errors
///
/// Out of memory. Then nothing is said of the directory and of the tokens.
pub(crate) fn next_lines(
    alloc: Global,
    replay: &mut Replay,
    number: u32,
    frame: &Frame,
) -> Result<Vec<u8>, AllocError>
    ensures lines { IfOk result (λ text. text.items ≡ frame_lines replay.old.directory
        replay.old.tokens number frame.now) }
    ensures served { OnOk result (replay.new ≡ behind replay.old frame.now) }
{
    let judged = judge_frame(alloc, replay, number, frame)?;
    serve_unless(replay, judged.looks, frame)?;
    Ok(judged.text)
}
