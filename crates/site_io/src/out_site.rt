//! A site of standard output alone.

ghost use Rattle.std.specs.Prelude.{◌≡◌, None};

use crate::emitting::write_out;
use crate::{Failed, Site, Slot};
use std::io;
use std::io::Write;

/// A site of an output alone, over a writer. It tells no content, and remembers why an emit failed first. Each call
/// on a slot fails.
#[derive(Drop)]
pub struct OutSite<W> {
    writer: W,
    slot_faults: u64,
    out_faults: u64,
    cause: Option<io::Error>,
}

impl<W> OutSite<W> {
    /// The site whose output is the writer. Its counts of faults begin at 0.
    pub fn new(writer: W) -> Self
        ensures slot_faults { result.slot_faults ≡ 0 }
        ensures out_faults { result.out_faults ≡ 0 }
        ensures cause { result.cause ≡ None }
    {
        OutSite {
            writer,
            slot_faults: 0,
            out_faults: 0,
            cause: None,
        }
    }

    /// Why the first emit that failed did.
    pub fn cause(&self) -> Option<io::Error>
        ensures { result ≡ self.now.cause }
    {
        self.cause
    }
}

impl<W: Write> Site for OutSite<W> {
    ghost reads = { λ _. None };

    ghost emitted = { λ _. None };

    ghost slot_faults = { λ s. s.slot_faults };

    ghost out_faults = { λ s. s.out_faults };

    ghost now = { λ _. 0 };

    ghost left = { λ _ _ _ _. ⊥ };

    ghost fails = { λ _. None };

    ghost left_now = { λ _ _ _ untold _. Prim.cc untold };

    ghost left_output = { λ _ _ _ _ untold _. Prim.cc untold };

    ghost left_until = { λ _ _ _ _ left. absurd left };

    fn length(&mut self, _slot: Slot) -> Result<u64, Failed> {
        self.slot_faults = self.slot_faults.saturating_add(1);
        Err(Failed)
    }

    fn read_at(&mut self, _slot: Slot, _at: u64, _into: &mut [u8]) -> Result<usize, Failed> {
        self.slot_faults = self.slot_faults.saturating_add(1);
        Err(Failed)
    }

    fn write_at(&mut self, _slot: Slot, _at: u64, _bytes: &[u8]) -> Result<(), Failed> {
        self.slot_faults = self.slot_faults.saturating_add(1);
        Err(Failed)
    }

    fn sync(&mut self, _slot: Slot) -> Result<(), Failed> {
        self.slot_faults = self.slot_faults.saturating_add(1);
        Err(Failed)
    }

    fn emit(&mut self, bytes: &[u8]) -> Result<(), Failed> {
        match write_out(&mut self.writer, bytes) {
            Ok(()) => Ok(()),
            Err(e) => {
                self.out_faults = self.out_faults.saturating_add(1);
                self.cause = self.cause.or(Some(e));
                Err(Failed)
            }
        }
    }
}
