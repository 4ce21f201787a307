//! `site_io`: objects in memory, and std's readers and writers.

use site_io::{
    Failed, MemSite, MemSource, OutSite, Site, Slot, Source, StdSource, WholeFault, fill,
    read_whole,
};
use std::io;
use std::io::{ErrorKind, Read, Write};
use std::process::Abort;

const TEXT: [u8; 5] = [1, 2, 3, 4, 5];

// What a source answers, where one that fails answers none.
fn take(rt: &impl Abort, source: &mut MemSource, into: &mut [u8; 4], wanted: Option<usize>) {
    assert!(rt; source.take(into).ok() == wanted);
}

fn comes_in_pieces(rt: &impl Abort, source: &mut MemSource) {
    let mut into = [0u8; 4];
    take(rt, source, &mut into, Some(2));
    take(rt, source, &mut into, None);
    take(rt, source, &mut into, Some(2));
    assert!(rt; into == [3, 4, 0, 0]);
    take(rt, source, &mut into, Some(1));
    take(rt, source, &mut into, Some(0));
}

#[test]
fn a_source_gives_its_bytes_in_pieces(rt: HostRuntime) {
    let mut source = MemSource::pieces(rt.alloc(), &TEXT, 2, &[1]).expect(&rt, "memory");
    comes_in_pieces(&rt, &mut source);
}

fn is_filled(rt: &impl Abort, source: &mut MemSource) {
    let mut into = [0u8; 3];
    assert!(rt; fill(source, &mut into) == Ok(3));
    assert!(rt; into == [1, 2, 3]);
    assert!(rt; fill(source, &mut into) == Ok(2));
    assert!(rt; fill(source, &mut into) == Ok(0));
}

#[test]
fn a_buffer_is_filled_over_pieces(rt: HostRuntime) {
    let mut source = MemSource::pieces(rt.alloc(), &TEXT, 2, &[]).expect(&rt, "memory");
    is_filled(&rt, &mut source);
}

#[test]
fn a_whole_input_is_read_up_to_its_limit(rt: HostRuntime) {
    let mut source = MemSource::new(rt.alloc(), &TEXT, &[]).expect(&rt, "memory");
    let read = read_whole(rt.alloc(), &mut source, 5).expect(&rt, "an input");
    assert!(rt; read.is_some());
    let mut failing = MemSource::pieces(rt.alloc(), &TEXT, 3, &[1]).expect(&rt, "memory");
    let fault = read_whole(rt.alloc(), &mut failing, 9).err();
    assert!(rt; fault == Some(WholeFault::Source));
}

// Bytes kept of two later writes count together.
#[test]
fn a_crash_keeps_bytes_over_all_later_writes(rt: HostRuntime) {
    let mut site = MemSite::new(rt.alloc(), &TEXT, &[], &[]).expect(&rt, "memory");
    assert!(rt; site.sync(Slot::A).is_ok());
    assert!(rt; site.write_at(Slot::A, 0, &[6, 7]).is_ok());
    assert!(rt; site.write_at(Slot::A, 2, &[8, 9]).is_ok());
    assert!(rt; site.emit(b"ab").is_ok());
    let calls = site.calls();
    assert!(rt; calls == 4);
    let crash = site.crash(rt.alloc(), calls, 3).expect(&rt, "memory");
    assert!(rt; crash.a.as_slice() == [6, 7, 8, 4, 5].as_slice());
    assert!(rt; crash.out.as_slice() == b"ab".as_slice());
}

// A reader that is interrupted first, and fails at its third call.
#[derive(Drop)]
struct Moody {
    calls: u8,
}

impl Read for Moody {
    fn read(&mut self, buf: &mut [u8]) -> io::Result<usize> {
        self.calls = self.calls.saturating_add(1);
        match self.calls {
            1 => Err(io::Error::from(ErrorKind::Interrupted)),
            2 if !buf.is_empty() => {
                buf[0] = 7;
                Ok(1)
            }
            _ => Err(io::Error::from(ErrorKind::BrokenPipe)),
        }
    }
}

#[test]
fn an_interrupted_read_is_tried_again(rt: HostRuntime) {
    let mut source = StdSource::new(Moody { calls: 0 });
    let mut into = [0u8; 3];
    assert!(rt; source.take(&mut into) == Ok(1));
    assert!(rt; into[0] == 7);
    assert!(rt; source.take(&mut into) == Err(Failed));
}

// A writer that takes one byte at a time, and is full after some.
#[derive(Drop)]
struct Slow {
    room: u8,
}

impl Write for Slow {
    fn write(&mut self, buf: &[u8]) -> io::Result<usize> {
        if buf.is_empty() || self.room == 0 {
            return Ok(0);
        }
        self.room -= 1;
        Ok(1)
    }

    fn flush(&mut self) -> io::Result<()> {
        Ok(())
    }
}

#[test]
fn partial_writes_go_on(rt: HostRuntime) {
    let mut site = OutSite::new(Slow { room: 4 });
    assert!(rt; site.emit(b"abc").is_ok());
    assert!(rt; site.emit(b"de") == Err(Failed));
    assert!(rt; site.length(Slot::A) == Err(Failed));
    assert!(rt; site.sync(Slot::B) == Err(Failed));
}
