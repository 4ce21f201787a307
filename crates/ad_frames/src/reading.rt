//! The next frame of a source: its header is judged, and then its body is taken.

ghost use Rattle.std.specs.Prelude.{◌≡◌, ◌≤◌, [], false, IfErr, IsErrOf};
ghost use Rattle.site_io.specs.Counts.{HasRisen};
ghost use Rattle.site_io.specs.Told.{BothTold};
ghost use Rattle.site_io.specs.Whole.{LeavesAnEnd};
ghost use Rattle.ad_frames.specs.Fault.{is_outside};
ghost use Rattle.ad_frames.specs.Limits.{max_body, max_connections, max_steps};
ghost use Rattle.ad_frames.specs.Reading.{kind_by_byte, has_length, header_of, header_at, option_header_at, content_at};
ghost use Rattle.ad_frames.specs.Reading.{token_at, message_at, steps_of, steps_at, body_by, frame_at, next_of};
ghost use Rattle.ad_frames.specs.Source.{ReadsSource, IsCutShort};
ghost use Rattle.ad_frames.specs.declared.fault.FrameFault.TheVariants.{Source as SourceFault, Memory as MemoryFault};

use crate::fault::FrameFault;
use crate::filling::fill_within;
use crate::frame::{Frame, FrameBody};
use crate::kind_byte;
use ad_bytes::{Bytes, Input};
use ad_ids::Token;
use site_io::Source;
use std::alloc::Global;

const MAX_BODY: u32 = 1_048_576;

const MAX_CONNECTIONS: u16 = 1024;

/// The most steps that a frame asks for.
pub const MAX_STEPS: u32 = 1_000_000;

const HEADER: usize = 7;

// The bytes of a number of steps.
const STEPS_BYTES: usize = 4;

#[derive(Clone, Copy)]
pub(crate) enum FrameKind {
    Token,
    Message,
    Steps,
    Run,
}

/// What stands before a body.
#[derive(Clone, Copy)]
pub(crate) struct Header {
    pub kind: FrameKind,
    pub connection: u16,
    pub len: u32,
}

fn kind_of(byte: u8) -> Option<FrameKind>
    ensures { result ≡ kind_by_byte byte }
{
    if byte == kind_byte::TOKEN {
        Some(FrameKind::Token)
    } else if byte == kind_byte::MESSAGE {
        Some(FrameKind::Message)
    } else if byte == kind_byte::STEPS {
        Some(FrameKind::Steps)
    } else if byte == kind_byte::RUN {
        Some(FrameKind::Run)
    } else {
        None
    }
}

// Whether a body of this kind may have so many bytes.
#[tactic(auto, unfolding(crate::specs::Limits::max_body))]
fn may_have(kind: FrameKind, len: u32) -> bool
    ensures { result ≡ has_length kind len }
{
    match kind {
        FrameKind::Token => len <= MAX_BODY,
        FrameKind::Message => len <= MAX_BODY,
        FrameKind::Steps => len == STEPS_BYTES as u32,
        FrameKind::Run => len == 0,
    }
}

// The header that seven bytes are.
#[tactic(auto, unfolding(crate::specs::Reading::header_of, crate::specs::Limits::max_connections))]
fn header_in(bytes: &[u8]) -> Result<Header, FrameFault>
    ensures read { result ≡ header_of bytes.now }
    ensures inside { IfErr result (λ e. is_outside e ≡ false) }
{
    let mut input = Input::new(bytes);
    let byte = input.byte()?;
    let kind = match kind_of(byte) {
        Some(kind) => kind,
        None => return Err(FrameFault::Kind(byte)),
    };
    let connection = input.be16()?;
    if connection >= MAX_CONNECTIONS {
        return Err(FrameFault::Connection(connection));
    }
    let len = input.be32()?;
    if !may_have(kind, len) {
        return Err(FrameFault::Length(len));
    }
    Ok(Header {
        kind,
        connection,
        len,
    })
}

// The number of steps that four bytes are.
#[tactic(auto, unfolding(crate::specs::Reading::steps_of, crate::specs::Limits::max_steps))]
fn steps(bytes: &[u8]) -> Result<FrameBody, FrameFault>
    ensures read { result ≡ steps_of bytes.now }
    ensures inside { IfErr result (λ e. is_outside e ≡ false) }
{
    let steps = Input::new(bytes).be32()?;
    if steps < 1 || steps > MAX_STEPS {
        return Err(FrameFault::Steps(steps));
    }
    Ok(FrameBody::Steps(steps))
}

// The next bytes, so many.
fn content<I: Source>(alloc: Global, source: &mut I, len: u32) -> Result<Bytes, FrameFault>
    ensures read { ReadsSource (I.rest source.old) (I.rest source.new) result (content_at len) }
    ensures cut { IsErrOf result SourceFault → IsCutShort (I.rest source.old) (I.rest source.new)
        (content_at len) }
    ensures told { LeavesAnEnd (I.rest source.old) (I.rest source.new) }
    ensures never_falls { I.faults source.old ≤ I.faults source.new }
    ensures cause { IsErrOf result SourceFault → HasRisen (I.faults source.old)
        (I.faults source.new) }
{
    let mut bytes = vec![in alloc; 0u8; len as usize]?;
    let n = fill_within(source, &mut bytes)?;
    if n < bytes.len() {
        return Err(FrameFault::Truncated);
    }
    Ok(Bytes::from_vec(bytes))
}

// Four bytes of a number of steps.
fn next_steps<I: Source>(source: &mut I) -> Result<FrameBody, FrameFault>
    ensures read { ReadsSource (I.rest source.old) (I.rest source.new) result steps_at }
    ensures cut { IsErrOf result SourceFault → IsCutShort (I.rest source.old) (I.rest source.new)
        steps_at }
    ensures told { LeavesAnEnd (I.rest source.old) (I.rest source.new) }
    ensures never_falls { I.faults source.old ≤ I.faults source.new }
    ensures cause { IsErrOf result SourceFault → HasRisen (I.faults source.old)
        (I.faults source.new) }
    ensures memory { IsErrOf result MemoryFault → ⊥ }
{
    let mut bytes = [0u8; STEPS_BYTES];
    let n = fill_within(source, &mut bytes[..])?;
    if n < STEPS_BYTES {
        return Err(FrameFault::Truncated);
    }
    steps(&bytes)
}

// The next header, or none at the end of the input.
fn next_header<I: Source>(source: &mut I) -> Result<Option<Header>, FrameFault>
    ensures read { ReadsSource (I.rest source.old) (I.rest source.new) result option_header_at }
    ensures cut { IsErrOf result SourceFault → IsCutShort (I.rest source.old) (I.rest source.new)
        header_at }
    ensures told { LeavesAnEnd (I.rest source.old) (I.rest source.new) }
    ensures never_falls { I.faults source.old ≤ I.faults source.new }
    ensures cause { IsErrOf result SourceFault → HasRisen (I.faults source.old)
        (I.faults source.new) }
    ensures memory { IsErrOf result MemoryFault → ⊥ }
{
    let mut head = [0u8; HEADER];
    let n = fill_within(source, &mut head[..])?;
    if n == 0 {
        return Ok(None);
    }
    if n < HEADER {
        return Err(FrameFault::Truncated);
    }
    let header = header_in(&head)?;
    Ok(Some(header))
}

fn next_token<I: Source>(alloc: Global, source: &mut I, len: u32) -> Result<FrameBody, FrameFault>
    ensures read { ReadsSource (I.rest source.old) (I.rest source.new) result (token_at len) }
    ensures cut { IsErrOf result SourceFault → IsCutShort (I.rest source.old) (I.rest source.new)
        (token_at len) }
    ensures told { LeavesAnEnd (I.rest source.old) (I.rest source.new) }
    ensures never_falls { I.faults source.old ≤ I.faults source.new }
    ensures cause { IsErrOf result SourceFault → HasRisen (I.faults source.old)
        (I.faults source.new) }
{
    let content = content(alloc, source, len)?;
    let token = Token::from_bytes(alloc, content.as_slice())?;
    Ok(FrameBody::Token(token))
}

fn next_message<I: Source>(alloc: Global, source: &mut I, len: u32) -> Result<FrameBody, FrameFault>
    ensures read { ReadsSource (I.rest source.old) (I.rest source.new) result (message_at len) }
    ensures cut { IsErrOf result SourceFault → IsCutShort (I.rest source.old) (I.rest source.new)
        (message_at len) }
    ensures told { LeavesAnEnd (I.rest source.old) (I.rest source.new) }
    ensures never_falls { I.faults source.old ≤ I.faults source.new }
    ensures cause { IsErrOf result SourceFault → HasRisen (I.faults source.old)
        (I.faults source.new) }
{
    let content = content(alloc, source, len)?;
    Ok(FrameBody::Message(content))
}

// The body after a header.
fn next_body<I: Source>(
    alloc: Global,
    source: &mut I,
    kind: FrameKind,
    len: u32,
) -> Result<FrameBody, FrameFault>
    ensures read { ReadsSource (I.rest source.old) (I.rest source.new) result (body_by kind len) }
    ensures cut { IsErrOf result SourceFault → IsCutShort (I.rest source.old) (I.rest source.new)
        (body_by kind len) }
    ensures told { LeavesAnEnd (I.rest source.old) (I.rest source.new) }
    ensures never_falls { I.faults source.old ≤ I.faults source.new }
    ensures cause { IsErrOf result SourceFault → HasRisen (I.faults source.old)
        (I.faults source.new) }
{
    match kind {
        FrameKind::Token => next_token(alloc, source, len),
        FrameKind::Message => next_message(alloc, source, len),
        FrameKind::Steps => next_steps(source),
        FrameKind::Run => Ok(FrameBody::Run),
    }
}

/// The next frame of an input, or None exactly at its end. What is taken from the source are exactly the bytes of
/// the frame; at a fault some of them may have been taken. At the end of the input, and for a body above 1,048,576
/// bytes, no memory is taken.
///
/// A frame is a kind of one byte, a connection of two, the length of the body in four, the most significant first,
/// and the body. Kind 1 brings a token, 2 an LDAP message, 3 a number of steps in four bytes, and 4 nothing.
///
/// # Errors
///
/// The fault that stands first: `Truncated` where the input ends within the header; then `Kind` where it isn't 1 to
/// 4, `Connection` from 1,024 on, `Length` above 1,048,576 or not 4 for steps or not 0 for a run; then `Truncated`
/// where the input ends within the body; then `Token` where the body is no token, and `Steps` for 0 or above
/// 1,000,000. `Source` where the source failed, which its count tells, and `Memory` where memory ran out.
pub fn next_frame<I: Source>(alloc: Global, source: &mut I) -> Result<Option<Frame>, FrameFault>
    // Which frame, or which fault.
    ensures next { ReadsSource (I.rest source.old) (I.rest source.new) result next_of }
    // Where the source failed less than one whole frame was taken.
    ensures cut { IsErrOf result SourceFault → IsCutShort (I.rest source.old) (I.rest source.new)
        frame_at }
    // Only of the frame were bytes taken, also at a fault.
    ensures told { LeavesAnEnd (I.rest source.old) (I.rest source.new) }
    ensures never_falls { I.faults source.old ≤ I.faults source.new }
    ensures cause { IsErrOf result SourceFault → HasRisen (I.faults source.old)
        (I.faults source.new) }
    // At the end of the input memory never runs out.
    ensures memory { IsErrOf result MemoryFault → BothTold (I.rest source.old) (I.rest source.new)
        (λ before after. before ≡ [] → ⊥) }
{
    match next_header(source)? {
        None => Ok(None),
        Some(header) => {
            let body = next_body(alloc, source, header.kind, header.len)?;
            Ok(Some(Frame {
                connection: header.connection,
                body,
            }))
        }
    }
}
