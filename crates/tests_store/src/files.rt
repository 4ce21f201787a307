//! `site_io`: the site over real files.

use site_io::{Failed, FileSite, Site, Slot};
use std::io::{ErrorKind, Write};
use std::os::unix::fs::PermissionsExt;
use std::process::Abort;
use std::{fs, io};

const A: &str = "tests_store_a.tmp";

const B: &str = "tests_store_b.tmp";

// A writer that takes all.
#[derive(Drop)]
struct Sink;

impl Write for Sink {
    fn write(&mut self, buf: &[u8]) -> io::Result<usize> {
        Ok(buf.len())
    }

    fn flush(&mut self) -> io::Result<()> {
        Ok(())
    }
}

type Files = FileSite<HostRuntime, Sink>;

// A site over two files of a test.
fn site(rt: &impl Abort, files: &HostRuntime, a: &str, b: &str) -> Files {
    let a = String::from_str(files.alloc(), a).expect(rt, "memory");
    let b = String::from_str(files.alloc(), b).expect(rt, "memory");
    let files = files.clone().expect(rt, "another handle");
    FileSite::new(files, a, b, Sink)
}

fn are_written(rt: &impl Abort, both: &mut Files) {
    assert!(rt; both.length(Slot::A) == Ok(0));
    assert!(rt; both.sync(Slot::A).is_ok());
    assert!(rt; both.write_at(Slot::A, 0, &[1, 2, 3]).is_ok());
    assert!(rt; both.write_at(Slot::B, 0, &[7, 8]).is_ok());
    assert!(rt; both.sync(Slot::A).is_ok());
    assert!(rt; both.sync(Slot::B).is_ok());
}

fn mode(rt: &impl Abort, files: &HostRuntime, path: &str) -> u32 {
    let file = fs::metadata(files, path).expect(rt, "a file");
    file.permissions().mode() & 0o777
}

// Writes both files, and lets go of them.
fn write_both(rt: &impl Abort, files: &HostRuntime) {
    let mut both = site(rt, files, A, B);
    are_written(rt, &mut both);
    assert!(rt; mode(rt, files, A) == 0o600);
}

fn has_bytes(rt: &impl Abort, files: &HostRuntime, path: &str, bytes: &[u8]) {
    let read = fs::read(files, path).expect(rt, "a file");
    assert!(rt; read.as_slice() == bytes);
}

#[test]
fn files_are_made_and_kept_apart(rt: HostRuntime) {
    let _ = fs::remove_file(&rt, A);
    let _ = fs::remove_file(&rt, B);
    write_both(&rt, &rt);
    has_bytes(&rt, &rt, A, &[1, 2, 3]);
    has_bytes(&rt, &rt, B, &[7, 8]);
    fs::remove_file(&rt, A).expect(&rt, "a file");
    fs::remove_file(&rt, B).expect(&rt, "a file");
}

fn is_whole(rt: &impl Abort, first: &mut Files) {
    let mut into = [0u8; 6];
    assert!(rt; first.read_at(Slot::A, 0, &mut into) == Ok(4));
    assert!(rt; into == [1, 9, 3, 4, 0, 0]);
    assert!(rt; first.length(Slot::A) == Ok(4));
}

// A second site over the files of a first one, which lets go of them at the end.
fn left(rt: &impl Abort, files: &HostRuntime, a: &str, b: &str) -> Files {
    let mut first = site(rt, files, a, b);
    assert!(rt; first.write_at(Slot::A, 1, &[9]).is_ok());
    let mut second = site(rt, files, a, b);
    assert!(rt; second.length(Slot::A) == Err(Failed));
    is_whole(rt, &mut first);
    second
}

// A first write to a file that is there leaves its other bytes, and a second site over it fails.
#[test]
fn a_file_is_kept_whole_and_alone(rt: HostRuntime) {
    let (a, b) = ("tests_store_c.tmp", "tests_store_d.tmp");
    fs::write(&rt, a, [1, 2, 3, 4]).expect(&rt, "a file");
    let _ = fs::remove_file(&rt, b);
    let mut left = left(&rt, &rt, a, b);
    assert!(rt; left.length(Slot::A) == Ok(4));
    fs::remove_file(&rt, a).expect(&rt, "a file");
}

// One that only looks.
fn looking(rt: &impl Abort, files: &HostRuntime, a: &str, b: &str) -> Files {
    let a = String::from_str(files.alloc(), a).expect(rt, "memory");
    let b = String::from_str(files.alloc(), b).expect(rt, "memory");
    let files = files.clone().expect(rt, "another handle");
    FileSite::reading(files, a, b, Sink)
}

// Whether the first call that failed was on this slot, for this reason.
fn failed_by(site: &Files, slot: Slot, kind: ErrorKind) -> bool {
    match site.fault() {
        Some(fault) => fault.slot == Some(slot) && fault.cause.kind() == kind,
        None => false,
    }
}

// It sees the first file and misses the second, and writes neither.
fn only_looks(rt: &impl Abort, site: &mut Files) {
    assert!(rt; site.length(Slot::A) == Ok(3));
    assert!(rt; site.length(Slot::B) == Ok(0));
    assert!(rt; site.is_missing(Slot::B) && !site.is_missing(Slot::A));
}

fn writes_nothing(rt: &impl Abort, site: &mut Files) {
    assert!(rt; site.write_at(Slot::A, 0, &[9]).is_err());
    assert!(rt; site.write_at(Slot::B, 0, &[9]).is_err());
}

// One that may write is kept out.
fn is_kept_out(rt: &impl Abort, files: &HostRuntime, a: &str, b: &str) {
    let mut third = site(rt, files, a, b);
    assert!(rt; third.length(Slot::A).is_err());
    assert!(rt; failed_by(&third, Slot::A, ErrorKind::WouldBlock));
}

// Two share the files, and a third is kept out.
fn share(rt: &impl Abort, files: &HostRuntime, a: &str, b: &str) {
    let mut first = looking(rt, files, a, b);
    only_looks(rt, &mut first);
    let mut second = looking(rt, files, a, b);
    only_looks(rt, &mut second);
    writes_nothing(rt, &mut first);
    is_kept_out(rt, files, a, b);
}

// Those that only look share a file, make none, and keep out one that may write.
#[test]
fn those_that_look_share_a_file(rt: HostRuntime) {
    let (a, b) = ("tests_store_e.tmp", "tests_store_f.tmp");
    fs::write(&rt, a, [1, 2, 3]).expect(&rt, "a file");
    let _ = fs::remove_file(&rt, b);
    share(&rt, &rt, a, b);
    has_bytes(&rt, &rt, a, &[1, 2, 3]);
    assert!(&rt; !fs::exists(&rt, b).expect(&rt, "a folder"));
    fs::remove_file(&rt, a).expect(&rt, "a file");
}

// Writes to both files, and removes what it made.
fn make_and_remove(rt: &impl Abort, files: &HostRuntime, a: &str, b: &str) {
    let mut both = site(rt, files, a, b);
    assert!(rt; both.write_at(Slot::A, 1, &[2]).is_ok());
    assert!(rt; both.write_at(Slot::B, 0, &[3]).is_ok());
    assert!(rt; both.remove_made().is_ok());
}

// The files that a site made are removed, and one that stood there stays.
#[test]
fn what_was_made_is_removed(rt: HostRuntime) {
    let (a, b) = ("tests_store_g.tmp", "tests_store_h.tmp");
    fs::write(&rt, a, [1]).expect(&rt, "a file");
    let _ = fs::remove_file(&rt, b);
    make_and_remove(&rt, &rt, a, b);
    has_bytes(&rt, &rt, a, &[1, 2]);
    assert!(&rt; !fs::exists(&rt, b).expect(&rt, "a folder"));
    fs::remove_file(&rt, a).expect(&rt, "a file");
}

// Neither is a regular file.
fn is_no_slot(rt: &impl Abort, site: &mut Files) {
    assert!(rt; site.length(Slot::A).is_err());
    assert!(rt; site.length(Slot::B).is_err());
    assert!(rt; failed_by(site, Slot::A, ErrorKind::IsADirectory));
}

// What is no regular file isn't opened, and the first reason stays.
#[test]
fn a_folder_is_no_slot(rt: HostRuntime) {
    let mut site = looking(&rt, &rt, "/", "/dev/null");
    is_no_slot(&rt, &mut site);
}
