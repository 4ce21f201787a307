//! The standard streams, which whoever calls the program may have closed.

use std::fs::File;
use std::os::fd::AsFd;

/// The folder that represents a stream that was closed, opened to be read: no read there gives a byte, and no write
/// succeeds.
const STAND_IN: &str = "/";

/// What the system answers about a descriptor that isn't open.
const NOT_OPEN: i32 = 9;

/// The standard streams that were closed as the program began, each with what represents it as long as this lives.
#[derive(Drop)]
pub struct Streams {
    /// Whether standard input was closed.
    pub lacks_input: bool,
    /// Whether standard output was closed.
    pub lacks_output: bool,
    _stand_ins: (Option<File>, Option<File>, Option<File>),
}

// Whether a descriptor is closed: it can't be doubled then.
fn is_closed<F: AsFd>(stream: &F) -> bool {
    match stream.as_fd().try_clone_to_owned() {
        Ok(_) => false,
        Err(e) => e.raw_os_error() == Some(NOT_OPEN),
    }
}

// What represents a stream that is closed. It gets the stream's number, where those below are taken.
fn stand_in(rt: &HostRuntime, is_closed: bool) -> Option<File> {
    if is_closed {
        File::open(rt, STAND_IN).ok()
    } else {
        None
    }
}

/// Takes the numbers of the standard streams that are closed, lowest first, so that no file that is opened later
/// gets one. Where the system refuses that, a slot's file that gets one isn't taken.
pub fn held(rt: &HostRuntime) -> Streams {
    let lacks_input = is_closed(&rt.stdin());
    let input = stand_in(rt, lacks_input);
    let lacks_output = is_closed(&rt.stdout());
    let output = stand_in(rt, lacks_output);
    let errors = stand_in(rt, is_closed(&rt.stderr()));
    Streams {
        lacks_input,
        lacks_output,
        _stand_ins: (input, output, errors),
    }
}
