//! A site of two files and an output.

ghost use Rattle.std.specs.Prelude.{◌≡◌, None};

use crate::emitting::write_out;
use crate::file_slot::{Access, FileSlot, Hold};
use crate::{Failed, Site, Slot};
use std::fs::Files;
use std::io;
use std::io::Write;

/// Why a call on a site of files failed.
#[derive(Clone, Copy)]
pub struct SiteFault {
    /// The slot that the call was on, which is none where it was an emit.
    pub slot: Option<Slot>,
    /// What the system answered.
    pub cause: io::Error,
}

/// A site of two files and a writer. It tells no content, and remembers why a call failed first.
///
/// A file that is missing has length 0, and a sync of it does nothing; the first write makes it, readable and
/// writable by its owner alone. What is no regular file isn't opened. Each file is opened once, and locked as long
/// as the site lives: a second site over the same file, of this process or another, fails, but for two that only
/// look. No file is one of the three standard streams. A file's first sync is one of its folder too. After a sync
/// that failed, each later sync of the same slot fails, since what was written before it may be lost.
#[derive(Drop)]
pub struct FileSite<R: Files, W> {
    files: R,
    a: FileSlot<R>,
    b: FileSlot<R>,
    writer: W,
    slot_faults: u64,
    out_faults: u64,
    fault: Option<SiteFault>,
}

impl<R: Files, W> FileSite<R, W>
where
    R::File: Hold,
{
    /// The site whose slots are the files at these paths, and whose output is the writer. Nothing is opened yet.
    /// Its counts of faults begin at 0.
    pub fn new(files: R, path_a: String, path_b: String, writer: W) -> Self
        ensures slot_faults { result.slot_faults ≡ 0 }
        ensures out_faults { result.out_faults ≡ 0 }
        ensures fault { result.fault ≡ None }
    {
        FileSite::with_access(files, path_a, path_b, writer, Access::Whole)
    }

    /// The site of `new`, which only looks at the files: it needs no right to write them, each write fails and
    /// makes no file, and others that only look may have the same files open.
    pub fn reading(files: R, path_a: String, path_b: String, writer: W) -> Self
        ensures slot_faults { result.slot_faults ≡ 0 }
        ensures out_faults { result.out_faults ≡ 0 }
        ensures fault { result.fault ≡ None }
    {
        FileSite::with_access(files, path_a, path_b, writer, Access::Looking)
    }

    fn with_access(files: R, path_a: String, path_b: String, writer: W, access: Access) -> Self
        ensures slot_faults { result.slot_faults ≡ 0 }
        ensures out_faults { result.out_faults ≡ 0 }
        ensures fault { result.fault ≡ None }
    {
        FileSite {
            files,
            a: FileSlot::new(path_a, access),
            b: FileSlot::new(path_b, access),
            writer,
            slot_faults: 0,
            out_faults: 0,
            fault: None,
        }
    }

    /// Why the first call that failed did.
    pub fn fault(&self) -> Option<SiteFault>
        ensures { result ≡ self.now.fault }
    {
        self.fault
    }

    /// Whether a call looked for the file of a slot, and found none there.
    pub fn is_missing(&self, slot: Slot) -> bool {
        match slot {
            Slot::A => self.a.is_missing(),
            Slot::B => self.b.is_missing(),
        }
    }

    /// Removes the files that calls on this site made, where their paths still lead to them. One that was there
    /// before stays. The counts of faults stay as they are.
    ///
    /// # Errors
    ///
    /// Where the system can't tell or remove a file. The other one is removed all the same.
    pub fn remove_made(&mut self) -> io::Result<()>
        ensures slot_faults { self.new.slot_faults ≡ self.old.slot_faults }
        ensures out_faults { self.new.out_faults ≡ self.old.out_faults }
        ensures fault { self.new.fault ≡ self.old.fault }
    {
        let a = self.a.remove_made(&self.files);
        let b = self.b.remove_made(&self.files);
        a?;
        b
    }
}

// Keeps why a call failed, where none failed before.
fn keep_first(fault: &mut Option<SiteFault>, slot: Option<Slot>, cause: io::Error) {
    if fault.is_none() {
        *fault = Some(SiteFault { slot, cause });
    }
}

impl<R: Files, W: Write> Site for FileSite<R, W>
where
    R::File: Hold,
{
    ghost reads = { λ _. None };

    ghost emitted = { λ _. None };

    ghost slot_faults = { λ s. s.slot_faults };

    ghost out_faults = { λ s. s.out_faults };

    ghost now = { λ _. 0 };

    ghost left = { λ _ _ _ _. ⊥ };

    ghost fails = { λ _. None };

    ghost left_now = { λ _ _ _ untold _. Prim.cc untold };

    ghost left_output = { λ _ _ _ _ untold _. Prim.cc untold };

    ghost left_until = { λ _ _ _ _ left. absurd left };

    fn length(&mut self, slot: Slot) -> Result<u64, Failed> {
        let done = match slot {
            Slot::A => self.a.length(&self.files),
            Slot::B => self.b.length(&self.files),
        };
        match done {
            Ok(length) => Ok(length),
            Err(e) => {
                self.slot_faults = self.slot_faults.saturating_add(1);
                keep_first(&mut self.fault, Some(slot), e);
                Err(Failed)
            }
        }
    }

    fn read_at(&mut self, slot: Slot, at: u64, into: &mut [u8]) -> Result<usize, Failed> {
        let done = match slot {
            Slot::A => self.a.read_at(&self.files, at, into),
            Slot::B => self.b.read_at(&self.files, at, into),
        };
        match done {
            Ok(n) => Ok(n),
            Err(e) => {
                self.slot_faults = self.slot_faults.saturating_add(1);
                keep_first(&mut self.fault, Some(slot), e);
                Err(Failed)
            }
        }
    }

    fn write_at(&mut self, slot: Slot, at: u64, bytes: &[u8]) -> Result<(), Failed> {
        let done = match slot {
            Slot::A => self.a.write_at(&self.files, at, bytes),
            Slot::B => self.b.write_at(&self.files, at, bytes),
        };
        match done {
            Ok(()) => Ok(()),
            Err(e) => {
                self.slot_faults = self.slot_faults.saturating_add(1);
                keep_first(&mut self.fault, Some(slot), e);
                Err(Failed)
            }
        }
    }

    fn sync(&mut self, slot: Slot) -> Result<(), Failed> {
        let done = match slot {
            Slot::A => self.a.sync(&self.files),
            Slot::B => self.b.sync(&self.files),
        };
        match done {
            Ok(()) => Ok(()),
            Err(e) => {
                self.slot_faults = self.slot_faults.saturating_add(1);
                keep_first(&mut self.fault, Some(slot), e);
                Err(Failed)
            }
        }
    }

    fn emit(&mut self, bytes: &[u8]) -> Result<(), Failed> {
        match write_out(&mut self.writer, bytes) {
            Ok(()) => Ok(()),
            Err(e) => {
                self.out_faults = self.out_faults.saturating_add(1);
                keep_first(&mut self.fault, None, e);
                Err(Failed)
            }
        }
    }
}
