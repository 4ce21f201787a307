//! Records, one after the other.

use crate::change::LdifChange;
use crate::changing::read_next_change;
use crate::cursor::Cursor;
use crate::fault::{LdifFault, LdifKind};
use crate::reading::read_next;
use crate::record::LdifRecord;
use crate::repeated::LineCache;
use std::alloc::Global;
use std::marker::Model;

/// A text that is read record by record. A contract sees the logical lines that are left, and the
/// fault that was answered, if there was one; `untold` of these is what is still to come.
#[derive(Drop)]
pub struct Reader<'a> {
    at: Cursor<'a>,
    stop: Option<(u32, LdifKind)>,
    // The last long value, folded and decoded.
    last: LineCache,
}

impl<'a> Model for Reader<'a> {
    ghost use Rattle.std.specs.Prelude.{option_map};
    ghost use Rattle.ad_ldif.specs.Left.{lines_left};
    ghost use Rattle.ad_ldif.specs.Records.{fault};
    ghost use Rattle.ad_ldif.specs.Story.{State};

    ghost Value = { State };

    ghost view = { λ r.
        record { lines = lines_left r.at; stop = option_map (λ s. fault s.0 s.1) r.stop } };
}

impl<'a> Reader<'a> {
    ghost use Rattle.std.specs.Prelude.{◌≡◌, ◌≤◌, ◌+◌, ◌↔◌, ℕ, length, Ok, Err, None, Some};
    ghost use Rattle.ad_ldif.specs.Lines.{lines_from};
    ghost use Rattle.ad_ldif.specs.Records.{Fault, fault};
    ghost use Rattle.ad_ldif.specs.Story.{IsLineOf, Tells, untold, story, story_from, nothing};
    ghost use Rattle.ad_ldif.specs.Changes.{TellsChange, untold_changes, changes, no_changes};
    ghost use Rattle.ad_ldif.specs.declared.fault.LdifKind.{LdifKind};

    /// A reader of a text of at most 67,108,864 bytes, before its first record.
    #[tactic(auto, unfolding(crate::specs::Story::story, crate::specs::Changes::changes))]
    pub fn over(bytes: &'a [u8]) -> Reader<'a>
        requires { length bytes.now ≤ 67108864 }
        ensures start { result ≡ record { lines = lines_from 1 bytes.now; stop = None } }
        ensures whole { untold result ≡ story bytes.now }
        ensures changes { untold_changes result ≡ changes bytes.now }
        ensures within { (f : Fault) → (story bytes.now).stop ≡ Some f → IsLineOf bytes.now f }
    {
        Reader {
            at: Cursor::new(bytes, 1),
            stop: None,
            last: LineCache::nothing(),
        }
    }

    /// A reader of a part of a text whose first physical line has this number, with what the reader before it kept.
    pub fn behind(bytes: &'a [u8], line: u32, last: LineCache) -> Reader<'a>
        requires { line + length bytes.now ≤ 67108865 }
        ensures { untold result ≡ story_from line bytes.now }
    {
        Reader {
            at: Cursor::new(bytes, line),
            stop: None,
            last,
        }
    }

    /// What it keeps, for the reader of what follows.
    pub fn into_kept(self) -> LineCache {
        let Reader {
            at: _,
            stop: _,
            last,
        } = self;
        last
    }

    /// The next record; None exactly at the end of the text. [`LdifFault::Bad`] is the first fault
    /// of the text, and comes at each later call. [`LdifFault::Memory`] leaves the reader as it was.
    pub fn next(&mut self, alloc: Global) -> Result<Option<LdifRecord>, LdifFault>
        ensures told { Tells (untold self.old) result (untold self.new) }

        // The end is told at the end, whatever memory is left, and stays the end.
        ensures end { (result ≡ Ok None) ↔ (untold self.old ≡ nothing) }
        ensures ended { result ≡ Ok None → self.new ≡ self.old }

        // A fault that was told is told again, whatever memory is left.
        ensures stopped { (n : ℕ) (k : LdifKind) →
            result ≡ Err (LdifFault.Bad n k) → self.new.stop ≡ Some (fault n k) }
        ensures again { (f : Fault) →
            self.old.stop ≡ Some f → result ≡ Err (LdifFault.Bad f.line f.kind) }

        ensures memory { result ≡ Err LdifFault.Memory → self.new ≡ self.old }
    {
        if let Some((line, kind)) = self.stop {
            return Err(LdifFault::Bad { line, kind });
        }
        let mut at = self.at;
        match read_next(alloc, &mut at, &mut self.last) {
            Ok(Some(record)) => {
                self.at = at;
                Ok(Some(record))
            }
            Ok(None) => Ok(None),
            Err(LdifFault::Bad { line, kind }) => {
                self.stop = Some((line, kind));
                Err(LdifFault::Bad { line, kind })
            }
            Err(LdifFault::Memory) => Err(LdifFault::Memory),
        }
    }

    /// The next change record; None exactly at the end of the text. What [`Reader::next`] says of faults and of
    /// memory holds here too. A record is `version: 1` perhaps, `dn`, lines `control: <oid>` with ` true` or `
    /// false` after it or nothing, and `changetype` with a body: `add` and one attribute's line at least; `delete`;
    /// `modrdn` or `moddn`, `newrdn`, `deleteoldrdn` and perhaps `newsuperior`; or `modify` and items, each `add`,
    /// `delete` or `replace` with an attribute's name, lines of that name, and a line `-`.
    pub fn next_change(&mut self, alloc: Global) -> Result<Option<LdifChange>, LdifFault>
        ensures told { TellsChange (untold_changes self.old) result (untold_changes self.new) }

        // The end is told at the end, whatever memory is left, and stays the end.
        ensures end { (result ≡ Ok None) ↔ (untold_changes self.old ≡ no_changes) }
        ensures ended { result ≡ Ok None → self.new ≡ self.old }

        // A fault that was told is told again, whatever memory is left.
        ensures stopped { (n : ℕ) (k : LdifKind) →
            result ≡ Err (LdifFault.Bad n k) → self.new.stop ≡ Some (fault n k) }
        ensures again { (f : Fault) →
            self.old.stop ≡ Some f → result ≡ Err (LdifFault.Bad f.line f.kind) }

        ensures memory { result ≡ Err LdifFault.Memory → self.new ≡ self.old }
    {
        if let Some((line, kind)) = self.stop {
            return Err(LdifFault::Bad { line, kind });
        }
        let mut at = self.at;
        match read_next_change(alloc, &mut at, &mut self.last) {
            Ok(Some(change)) => {
                self.at = at;
                Ok(Some(change))
            }
            Ok(None) => Ok(None),
            Err(LdifFault::Bad { line, kind }) => {
                self.stop = Some((line, kind));
                Err(LdifFault::Bad { line, kind })
            }
            Err(LdifFault::Memory) => Err(LdifFault::Memory),
        }
    }
}
