//! Logical lines: physical lines with their continuations, and without comments.

ghost use Rattle.std.specs.Prelude.{◌≡◌, ℕ, ◌+◌, ◌<◌, ◌≤◌, true, false, [], ◌∷◌, ◌++◌, length};

use crate::folded::{Folded, LastFolded, note};
use crate::logical::{Logical, Text};
use crate::physical::{begins_with, cut};
use crate::repeated::LineCache;
use std::alloc::{AllocError, Global};

/// What is left of a text, from the beginning of a physical line on, and the number of that line.
#[derive(Clone, Copy)]
pub struct Cursor<'a> {
    rest: &'a [u8],
    number: u32,
    ghost in_range: { number + length rest.now ≤ 67108865 },
}

impl<'a> Cursor<'a> {
    ghost use Rattle.std.specs.Prelude.{◌≢◌, OnOk, OnErr, IfOk, OnSome, MatchOption};
    ghost use Rattle.ad_ldif.specs.Lines.{physical, continuation, begins_with, lines_from, Block};
    ghost use Rattle.ad_ldif.specs.Logical.{text_of, line_of};
    ghost use Rattle.ad_ldif.specs.Left.{lines_left, lines_behind};
    ghost use Rattle.ad_ldif.specs.Left.{record_left, others_left, records_left};

    /// The start of a text whose first line has this number.
    pub fn new(text: &'a [u8], number: u32) -> Self
        requires { number + length text.now ≤ 67108865 }
        ensures { lines_left result ≡ lines_from number text.now }
    {
        Cursor { rest: text, number }
    }

    /// The next physical line.
    fn take_physical(&mut self) -> &'a [u8]
        requires { 0 < length self.old.rest.now }
        ensures line { physical self.old.rest.now ≡ result.now ∷ physical self.new.rest.now }
        ensures number { self.new.number ≡ self.old.number + 1 }
        ensures shorter { length self.new.rest.now < length self.old.rest.now }
    {
        let (line, rest) = cut(self.rest);
        self.rest = rest;
        self.number += 1;
        line
    }

    /// Whether the next physical line begins with this byte.
    fn begins_with(&self, byte: u8) -> bool
        ensures { result ≡ begins_with byte self.now.rest.now }
    {
        begins_with(self.rest, byte)
    }

    /// Passes over the continuations of a line.
    #[tactic(auto, using(crate::proofs::LineLemmas::continuations))]
    fn skip_continuations(&mut self)
        ensures lines { lines_behind self.old ≡ lines_left self.new }
        ensures shorter { length self.new.rest.now ≤ length self.old.rest.now }
    {
        while self.begins_with(b' ') {
            let _ = self.take_physical();
        }
    }

    /// Passes over comments, with their continuations.
    #[tactic(auto, using(crate::proofs::LineLemmas::comments))]
    fn skip_comments(&mut self)
        ensures lines { lines_left self.old ≡ lines_left self.new }
        ensures passed { begins_with 35 self.new.rest.now ≡ false }
        ensures shorter { length self.new.rest.now ≤ length self.old.rest.now }
    {
        while self.begins_with(b'#') {
            let _ = self.take_physical();
            self.skip_continuations();
        }
    }

    /// Passes over continuations that were kept, where they stand here. It tells whether they do.
    fn pass_known(&mut self, last: &Option<Folded>, text: &mut Vec<u8>) -> Result<bool, AllocError>
        ensures text { OnOk result (text.old.items ++ continuation (physical self.old.rest.now)
            ≡ text.new.items ++ continuation (physical self.new.rest.now)) }
        ensures lines { OnOk result (lines_behind self.old ≡ lines_behind self.new) }
        ensures shorter { OnOk result (length self.new.rest.now ≤ length self.old.rest.now) }
    {
        let Some(known) = last else {
            return Ok(false);
        };
        let Some(after) = known.behind(self.rest) else {
            return Ok(false);
        };
        text.extend_from_slice(known.tail.as_slice())?;
        self.rest = after;
        self.number += known.count;
        Ok(true)
    }

    /// Adds the continuations here to their line.
    #[tactic(auto, using(crate::proofs::LineLemmas::joins))]
    fn join(&mut self, text: &mut Vec<u8>) -> Result<(), AllocError>
        ensures text { OnOk result
            (text.new.items ≡ text.old.items ++ continuation (physical self.old.rest.now)) }
        ensures lines { OnOk result (lines_behind self.old ≡ lines_left self.new) }
        ensures shorter { OnOk result (length self.new.rest.now ≤ length self.old.rest.now) }
    {
        while self.begins_with(b' ') {
            let line = self.take_physical();
            text.extend_from_slice(&line[1..])?;
        }
        Ok(())
    }

    /// A line with the continuations after it. `last` has the long ones that were read before.
    #[tactic(auto, using(crate::proofs::LineLemmas::joins))]
    fn joined(
        &mut self,
        alloc: Global,
        last: &mut LineCache,
        first: &'a [u8],
    ) -> Result<Text<'a>, AllocError>
        ensures text { IfOk result (λ t.
            text_of t ≡ first.now ++ continuation (physical self.old.rest.now)) }
        ensures lines { OnOk result (lines_behind self.old ≡ lines_left self.new) }
        ensures shorter { OnOk result (length self.new.rest.now ≤ length self.old.rest.now) }
    {
        if !self.begins_with(b' ') {
            return Ok(Text::Whole(first));
        }
        let mut text = last.room(alloc)?;
        text.extend_from_slice(first)?;
        let known = self.pass_known(&last.folded.known, &mut text)?;
        let start = self.rest;
        self.join(&mut text)?;
        if !known {
            note(alloc, &mut last.folded, start, self.rest)?;
        }
        Ok(Text::Joined(text))
    }

    /// The next line that is no comment; None at the end of the text.
    fn next_line(
        &mut self,
        alloc: Global,
        last: &mut LineCache,
    ) -> Result<Option<Logical<'a>>, AllocError>
        ensures lines { IfOk result (λ o. MatchOption o
            ((lines_left self.old ≡ []) × (lines_left self.new ≡ []))
            (λ l. lines_left self.old ≡ line_of l ∷ lines_left self.new)) }
        ensures shorter { IfOk result (λ o.
            OnSome o (length self.new.rest.now < length self.old.rest.now)) }
        ensures err { OnErr result (records_left self.old ≢ []) }
    {
        self.skip_comments();
        if self.rest.is_empty() {
            return Ok(None);
        }
        let number = self.number;
        let first = self.take_physical();
        if first.is_empty() {
            return Ok(Some(Logical {
                number,
                text: Text::Whole(first),
            }));
        }
        let text = self.joined(alloc, last, first)?;
        Ok(Some(Logical { number, text }))
    }

    /// The next line of the record that is being read; None at its end, after the empty line.
    pub fn next_in_record(
        &mut self,
        alloc: Global,
        last: &mut LineCache,
    ) -> Result<Option<Logical<'a>>, AllocError>
        ensures lines { IfOk result (λ o. MatchOption o
            (record_left self.old ≡ [])
            (λ l. record_left self.old ≡ line_of l ∷ record_left self.new)) }
        ensures others { IfOk result (λ o. MatchOption o
            (others_left self.old ≡ records_left self.new)
            (λ _. others_left self.old ≡ others_left self.new)) }
        ensures shorter { IfOk result (λ o.
            OnSome o (length self.new.rest.now < length self.old.rest.now)) }
    {
        let Some(line) = self.next_line(alloc, last)? else {
            return Ok(None);
        };
        if line.bytes().is_empty() {
            return Ok(None);
        }
        Ok(Some(line))
    }

    /// The first line of the next record; None at the end of the text.
    pub fn next_record(
        &mut self,
        alloc: Global,
        last: &mut LineCache,
    ) -> Result<Option<Logical<'a>>, AllocError>
        ensures records { IfOk result (λ o. MatchOption o
            (records_left self.old ≡ [])
            (λ l. records_left self.old
            ≡ record { first = line_of l; others = record_left self.new } ∷ others_left self.new)) }
        ensures err { OnErr result (records_left self.old ≢ []) }
    {
        while let Some(line) = self.next_line(alloc, last)? {
            if !line.bytes().is_empty() {
                return Ok(Some(line));
            }
        }
        Ok(None)
    }
}
