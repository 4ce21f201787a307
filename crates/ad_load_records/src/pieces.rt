//! The records of a text that comes in pieces. Each is read as soon as it is whole, so that the text is never held
//! as a whole.

ghost use Rattle.std.specs.Prelude.{◌≡◌, ◌+◌, ◌<◌, ◌≤◌, ◌++◌, ℕ, List, [], true, false, map, take, drop, length, Ok};
ghost use Rattle.std.specs.Prelude.{Err};
ghost use Rattle.std.specs.Prelude.{IfOk, IfErr};
ghost use Rattle.ad_bytes.specs.Reading.{GivesUnless};
ghost use Rattle.ad_ldif.specs.Pieces.{EndsRecord};
ghost use Rattle.ad_load_records.specs.Faults.{is_memory};
ghost use Rattle.ad_load_records.specs.Pieces.{read_on};
ghost use Rattle.ad_load_records.specs.Seen.{seen};
ghost use Rattle.ad_load_records.specs.Records.{most_lines};

use crate::fault::{LoadCause, LoadFault};
use crate::records::{MAX_TEXT, Record, read_all};
use ad_ldif::{LineCache, end_of_records, line_ends};
use std::alloc::{AllocError, Global};
use std::marker::Model;
use std::mem;

// The end of the last record that is whole in a text, where none ends before `from`; 0 where there is none.
fn last_end(text: &[u8], from: usize) -> usize
    requires { from ≤ length text.now }
    ensures within { result ≤ length text.now }
    ensures ends { 0 < result → EndsRecord (take result text.now) }
{
    let end = end_of_records(&text[from..]);
    if end == 0 {
        return 0;
    }
    from + end
}

// Removes the first bytes.
fn remove_front(bytes: &mut Vec<u8>, count: usize)
    requires { count ≤ length bytes.old.items }
    ensures { bytes.new.items ≡ drop count bytes.old.items }
{
    let left = bytes.len() - count;
    bytes.copy_within(count.., 0);
    bytes.truncate(left);
}

// Records that were read, and bytes that are in none of them, from the line of this number on.
#[derive(Drop)]
struct Front {
    line: u32,
    held: Vec<u8>,
    records: Vec<Record>,
    kept: LineCache,
}

impl Front {
    // Of no text yet.
    fn new(alloc: Global) -> Front
        ensures line { result.line ≡ 1 }
        ensures held { result.held.items ≡ [] }
        ensures records { result.records.items ≡ [] }
    {
        Front {
            line: 1,
            held: Vec::new(alloc),
            records: Vec::new(alloc),
            kept: LineCache::nothing(),
        }
    }

    // Reads the records of the first bytes, and removes these.
    fn read(&mut self, alloc: Global, end: usize) -> Result<(), LoadFault>
        requires ends { EndsRecord (take end self.old.held.items) }
        requires within { end ≤ length self.old.held.items }
        requires range { self.old.line + length self.old.held.items ≤ most_lines + 1 }
        ensures next { IfOk result (λ _. (rest : List ℕ)
            → read_on (map seen self.old.records.items) self.old.line (self.old.held.items ++ rest)
            ≡ read_on (map seen self.new.records.items) self.new.line
            (self.new.held.items ++ rest)) }
        ensures range { IfOk result (λ _. self.new.line + length self.new.held.items ≤ self.old.line
            + length self.old.held.items) }
        ensures few { IfOk result (λ _. length self.new.records.items + length self.new.held.items
            ≤ length self.old.records.items + length self.old.held.items) }
        ensures fault { IfErr result (λ f. is_memory f ≡ false → (rest : List ℕ)
            → read_on (map seen self.old.records.items) self.old.line (self.old.held.items ++ rest)
            ≡ Err f) }
    {
        let kept = mem::replace(&mut self.kept, LineCache::nothing());
        let text = &self.held[..end];
        let lines = line_ends(text);
        self.kept = read_all(alloc, text, self.line, kept, &mut self.records)?;
        self.line += lines;
        remove_front(&mut self.held, end);
        Ok(())
    }

    // Takes the next bytes, and reads the records that are whole with them.
    fn push(&mut self, alloc: Global, piece: &[u8]) -> Result<(), LoadFault>
        requires { self.old.line + length self.old.held.items + length piece.now ≤ most_lines + 1 }
        ensures next { IfOk result (λ _. (rest : List ℕ)
            → read_on (map seen self.old.records.items) self.old.line
            (self.old.held.items ++ (piece.now ++ rest))
            ≡ read_on (map seen self.new.records.items) self.new.line
            (self.new.held.items ++ rest)) }
        ensures range { IfOk result (λ _. self.new.line + length self.new.held.items
            ≤ self.old.line + length self.old.held.items + length piece.now) }
        ensures few { IfOk result (λ _. length self.new.records.items + length self.new.held.items
            ≤ length self.old.records.items + length self.old.held.items + length piece.now) }
        ensures fault { IfErr result (λ f. is_memory f ≡ false → (rest : List ℕ)
            → read_on (map seen self.old.records.items) self.old.line
            (self.old.held.items ++ (piece.now ++ rest)) ≡ Err f) }
    {
        // The two bytes before the piece may begin the end of a record.
        let from = self.held.len().saturating_sub(2);
        self.held.extend_from_slice(piece)?;
        let end = last_end(self.held.as_slice(), from);
        if end == 0 {
            return Ok(());
        }
        self.read(alloc, end)
    }
}

/// The records of a text that comes in pieces. What a contract sees is what came of it; `gives` of that is what the
/// whole text gives with its rest.
pub struct Pieces {
    count: usize,
    front: Front,
    stop: Option<(u32, LoadCause)>,
    ghost few: { count ≤ most_lines },
    ghost range: { front.line + length front.held.items ≤ count + 1 },
    ghost records: { length front.records.items + length front.held.items ≤ count },
}

// Written out, so that where they are dropped a proof has a single step.
impl Drop for Pieces {
    fn drop(self) {
        let Pieces {
            count: _,
            front,
            stop,
        } = self;
        drop(front);
        drop(stop);
    }
}

impl Model for Pieces {
    ghost use Rattle.std.specs.Prelude.{map, option_map};
    ghost use Rattle.ad_load_records.specs.Faults.{at};
    ghost use Rattle.ad_load_records.specs.Pieces.{Came};
    ghost use Rattle.ad_load_records.specs.Seen.{seen};

    ghost Value = { Came };

    ghost view = { λ p. record {
      count = p.count;
      line = p.front.line;
      held = p.front.held.items;
      records = map seen p.front.records.items;
      stop = option_map (λ s. at s.0 s.1) p.stop;
    } };
}

impl Pieces {
    ghost use Rattle.std.specs.Prelude.{[], nat_le};
    ghost use Rattle.ad_load_records.specs.declared.fault.LoadCause.TheVariants.{TooLong};
    ghost use Rattle.ad_load_records.specs.Faults.{of_all};
    ghost use Rattle.ad_load_records.specs.Pieces.{Came, gives};
    ghost use Rattle.ad_load_records.specs.Records.{max_text, records_in};

    /// Before the first piece.
    pub fn new(alloc: Global) -> Pieces
        ensures count { result.count ≡ 0 }
        ensures gives { (rest : List ℕ) → gives result rest ≡ records_in rest }
    {
        Pieces {
            count: 0,
            front: Front::new(alloc),
            stop: None,
        }
    }

    /// Takes the next piece; false where the text is too long, with more than 67,108,864 bytes, whatever comes.
    pub fn push(&mut self, alloc: Global, piece: &[u8]) -> Result<bool, AllocError>
        ensures more { IfOk result (λ more. more ≡ nat_le (self.old.count + length piece.now)
            max_text) }
        ensures count { IfOk result (λ more. more ≡ true → self.new.count ≡ self.old.count
            + length piece.now) }
        ensures next { IfOk result (λ more. more ≡ true → (rest : List ℕ)
            → gives self.old (piece.now ++ rest) ≡ gives self.new rest) }
        ensures long { IfOk result (λ more. more ≡ false → (rest : List ℕ)
            → gives self.old (piece.now ++ rest) ≡ Err (of_all TooLong)) }
    {
        if piece.len() > MAX_TEXT - self.count {
            return Ok(false);
        }
        if self.stop.is_some() {
            self.count += piece.len();
            return Ok(true);
        }
        match self.front.push(alloc, piece) {
            Ok(()) => {
                self.count += piece.len();
                Ok(true)
            }
            Err(LoadFault::Bad { line, cause }) => {
                self.front = Front::new(alloc);
                self.stop = Some((line, cause));
                self.count += piece.len();
                Ok(true)
            }
            Err(LoadFault::Memory) => {
                self.front = Front::new(alloc);
                Err(AllocError)
            }
        }
    }

    /// The records of the text, which ends here.
    ///
    /// # Errors
    ///
    /// The first fault of the whole text as LDIF, and of the names of its records. `Memory` may come instead of any
    /// answer.
    pub fn finish(self, alloc: Global) -> Result<Vec<Record>, LoadFault>
        ensures records { GivesUnless is_memory (λ records. map seen records.items) result
            (gives self []) }
        ensures few { IfOk result (λ records. length records.items ≤ most_lines) }
    {
        let Pieces {
            count: _,
            front,
            stop,
        } = self;
        if let Some((line, cause)) = stop {
            return Err(LoadFault::Bad { line, cause });
        }
        let Front {
            line,
            held,
            records,
            kept,
        } = front;
        let mut records = records;
        read_all(alloc, held.as_slice(), line, kept, &mut records)?;
        Ok(records)
    }
}
