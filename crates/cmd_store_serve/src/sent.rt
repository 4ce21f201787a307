//! The frames of the sample, read from its bytes.

ghost use Rattle.std.specs.Prelude.{◌≡◌, ◌<◌, ◌≤◌, ◌++◌, [], length, take, drop, vec_len, Some, None, IfOk};
ghost use Rattle.ad_frames.specs.Frames.{frames_of};
ghost use Rattle.ad_gen.specs.Frames.{frames};
ghost use Rattle.cmd_store_serve.specs.SampleServing.{is_memory};

use crate::laws::the_frames_of_the_sample;
use ad_frames::{Frame, FrameFault, next_frame};
use ad_gen::frames;
use site_io::{Failed, Source};
use std::alloc::{AllocError, Global};

/// One more than the number of frames.
const MORE_THAN_ALL: u32 = 8;

/// Bytes as a source that never fails.
#[derive(Drop)]
struct Whole {
    bytes: Vec<u8>,
    at: usize,
    ghost at_within: { at ≤ vec_len bytes },
}

// Copies the next bytes of what is left into a buffer.
fn give(rest: &[u8], into: &mut [u8]) -> usize
    ensures within { result ≤ length into.new }
    ensures left { result ≤ length rest.now }
    ensures next { rest.now ≡ take result into.new ++ drop result rest.now }
    ensures end { result ≡ 0 → 0 < length into.new → rest.now ≡ [] }
{
    let n = rest.len().min(into.len());
    into[..n].copy_from_slice(&rest[..n]);
    n
}

impl Source for Whole {
    ghost rest = { λ s. Some (drop s.at s.bytes.items) };

    ghost faults = { λ _. 0 };

    ghost takes = { λ _. 0 };

    ghost fails = { λ _. None };

    fn take(&mut self, into: &mut [u8]) -> Result<usize, Failed> {
        let n = give(&self.bytes[self.at..], into);
        self.at += n;
        Ok(n)
    }
}

// Whether memory ran out.
fn is_memory(fault: FrameFault) -> bool
    ensures { result ≡ is_memory fault }
{
    match fault {
        FrameFault::Memory => true,
        FrameFault::Kind(_) => false,
        FrameFault::Connection(_) => false,
        FrameFault::Length(_) => false,
        FrameFault::Steps(_) => false,
        FrameFault::Token(_) => false,
        FrameFault::Truncated => false,
        FrameFault::Source => false,
    }
}

/// The frames of the sample of a size.
///
/// # Errors
///
/// Memory ran out.
pub(crate) fn sent_frames(alloc: Global, n: u32) -> Result<Vec<Frame>, AllocError>
    ensures { IfOk result (λ sent. (frames_of (frames n)).frames ≡ sent.items) }
{
    the_frames_of_the_sample();
    let mut source = Whole {
        bytes: frames(alloc, n)?,
        at: 0,
    };
    let mut sent = Vec::new(alloc);
    for _ in 0..MORE_THAN_ALL {
        match next_frame(alloc, &mut source) {
            Ok(Some(frame)) => sent.push(frame)?,
            Ok(None) => return Ok(sent),
            Err(fault) => {
                if is_memory(fault) {
                    return Err(AllocError);
                }
                unreachable!()
            }
        }
    }
    unreachable!()
}
