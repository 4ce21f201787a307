//! Reading the text of a name, a byte a step.

ghost use Rattle.std.specs.Prelude.{◌≡◌, ◌++◌, ◌∷◌, [], ◌+◌, ◌*◌, ◌==◌, ◌||◌, ◌&&◌, ◌<◌, true, option_map, length};
ghost use Rattle.std.specs.Prelude.{take, if◌then◌else◌, IfOk, OnOk, Some, None};
ghost use Rattle.uuid.specs.Text.{is_hex_digit, value_of};
ghost use Rattle.ad_dn.specs.Grammar.{is_reserved, is_special};
ghost use Rattle.ad_dn.specs.Steps.{Moves, start, moved, with_letter, with_blank, with_rdn, with_part, with_next};
ghost use Rattle.ad_dn.specs.Steps.{may_stand, byte_step};
ghost use Rattle.ad_dn.specs.Steps.{plain_step, mark_step, mark_next, second_step, first_step, comma_step};
ghost use Rattle.ad_dn.specs.Steps.{kind_end_step, equals_step, kind_step, value_step, digit_step, step};
ghost use Rattle.ad_dn.specs.Parts.{begins_part};
ghost use Rattle.std.specs.Str.{str_to_ascii_uppercase};
ghost use Rattle.ad_dn.specs.Steps.{step_from, finished_value, finished};

use crate::attribute_type::{is_letter, is_type_byte};
use crate::making::upper;
use crate::rdn::Rdn;
use crate::utf8_state::{MAX_VALUE_BYTES, Utf8State};
use ad_bytes::{Bytes, hex_value};
use std::alloc::{AllocError, Global};
use std::marker::Model;
use std::mem;

// Room for eight parts at first, which most names don't outgrow; a list by itself begins with four.
fn room_for(parts: usize) -> usize {
    if parts == 0 { 8 } else { 1 }
}

// The parts of a name that were read.
#[derive(Drop)]
pub struct Done {
    items: Vec<Rdn>,
}

impl Model for Done {
    ghost use Rattle.std.specs.Prelude.{List};
    ghost use Rattle.ad_dn.specs.declared.rdn.Rdn.{Rdn};

    ghost Value = { List Rdn };

    ghost view = { λ done. done.items.items };
}

impl Done {
    fn new(alloc: Global) -> Done
        ensures { result ≡ [] }
    {
        Done {
            items: Vec::new(alloc),
        }
    }

    fn push(&mut self, rdn: Rdn) -> Result<(), AllocError>
        ensures { OnOk result (self.new ≡ self.old ++ rdn ∷ []) }
    {
        self.items.reserve(room_for(self.items.len()))?;
        self.items.push(rdn)?;
        Ok(())
    }
}

// What stands before the next byte.
#[derive(Clone, Copy)]
pub enum ParserPhase {
    Nothing,
    // A comma, and maybe blanks.
    Comma,
    // A type so far.
    Kind,
    // Blanks after a type.
    KindEnd,
    // `=`, and maybe blanks.
    Equals,
    // A value so far.
    Value,
    // `\`
    Mark,
    // `\` and this hexadecimal digit.
    Digit(u8),
}

// What was read of a text.
#[derive(Drop)]
pub struct State {
    phase: ParserPhase,
    // The parts before the one that is being read.
    rdns: Done,
    // Its type in upper case, and its value with the blanks after it.
    kind: Bytes,
    value: Bytes,
    // So many bytes of the value are no blanks after it.
    kept: usize,
    // What the last character of the value still needs.
    due: Utf8State,
}

// One of `"`, `+`, `,`, `;`, `<`, `>` and `\`.
pub fn is_reserved(byte: u8) -> bool
    ensures { result ≡ is_reserved byte }
{
    matches!(byte, b'"' | b'+' | b',' | b';' | b'<' | b'>' | b'\\')
}

fn is_special(byte: u8) -> bool
    ensures { result ≡ is_special byte }
{
    is_reserved(byte) || matches!(byte, b' ' | b'#' | b'=')
}

// The byte that two hexadecimal digits say.
fn hex_pair(high: u8, low: u8) -> Option<u8>
    ensures { result ≡ (if is_hex_digit high && is_hex_digit low
        then Some (16 * value_of high + value_of low) else None) }
{
    let high = hex_value(high)?;
    let low = hex_value(low)?;
    Some(16 * high + low)
}

impl State {
    pub fn start(alloc: Global) -> State
        ensures { result ≡ start }
    {
        State {
            phase: ParserPhase::Nothing,
            rdns: Done::new(alloc),
            kind: Bytes::new(alloc),
            value: Bytes::new(alloc),
            kept: 0,
            due: Utf8State::nothing(),
        }
    }

    // Whether a part may begin.
    pub fn begins_part(&self) -> bool
        ensures { result ≡ begins_part self.now.phase }
    {
        matches!(self.phase, ParserPhase::Nothing | ParserPhase::Comma)
    }

    // A whole part, up to the end of its value.
    pub fn take(&mut self, alloc: Global, kind: &[u8], value: &[u8]) -> Result<(), AllocError>
        ensures { OnOk result (self.new ≡ with_part self.old (str_to_ascii_uppercase kind.now)
            value.now) }
    {
        self.kind = upper(alloc, kind)?;
        self.value = Bytes::from_slice(alloc, value)?;
        self.phase = ParserPhase::Value;
        self.kept = value.len();
        self.due = Utf8State::nothing();
        Ok(())
    }

    // A whole part and the comma after it.
    pub fn put(&mut self, alloc: Global, kind: &[u8], value: &[u8]) -> Result<(), AllocError>
        ensures { OnOk result (self.new ≡ with_next self.old (str_to_ascii_uppercase kind.now)
            value.now) }
    {
        let kind = upper(alloc, kind)?;
        let value = Bytes::from_slice(alloc, value)?;
        self.rdns.push(Rdn { kind, value })?;
        self.phase = ParserPhase::Comma;
        Ok(())
    }

    // One more byte of a type.
    fn letter(&mut self, byte: u8) -> Result<bool, AllocError>
        ensures { IfOk result (λ moves. Moves moves (Some (with_letter self.old byte)) self.new) }
    {
        self.kind.push(byte.to_ascii_uppercase())?;
        self.phase = ParserPhase::Kind;
        Ok(true)
    }

    // One more byte of a value.
    fn byte(&mut self, byte: u8) -> Result<bool, AllocError>
        ensures { IfOk result (λ moves. Moves moves (byte_step self.old byte) self.new) }
    {
        let Some(due) = self.due.after(self.value.len(), byte) else {
            return Ok(false);
        };
        self.value.push(byte)?;
        self.phase = ParserPhase::Value;
        self.kept = self.value.len();
        self.due = due;
        Ok(true)
    }

    fn plain(&mut self, byte: u8) -> Result<bool, AllocError>
        ensures { IfOk result (λ moves. Moves moves (plain_step self.old byte) self.new) }
    {
        if is_reserved(byte) || byte == 0 {
            return Ok(false);
        }
        self.byte(byte)
    }

    // The comma after a value.
    fn comma(&mut self, alloc: Global) -> Result<bool, AllocError>
        ensures { IfOk result (λ moves. Moves moves (Some (with_rdn self.old)) self.new) }
    {
        let kind = mem::replace(&mut self.kind, Bytes::new(alloc));
        let mut value = mem::replace(&mut self.value, Bytes::new(alloc));
        value.truncate(self.kept);
        self.rdns.push(Rdn { kind, value })?;
        self.phase = ParserPhase::Comma;
        self.kept = 0;
        self.due = Utf8State::nothing();
        Ok(true)
    }

    fn mark(&mut self) -> bool
        ensures { Moves result (mark_step self.old) self.new }
    {
        if self.due.more == 0 && self.value.len() >= MAX_VALUE_BYTES {
            return false;
        }
        self.phase = ParserPhase::Mark;
        true
    }

    fn in_kind(&mut self, byte: u8) -> Result<bool, AllocError>
        ensures { IfOk result (λ moves. Moves moves (kind_step self.old byte) self.new) }
    {
        if is_type_byte(byte) {
            return self.letter(byte);
        }
        match byte {
            b' ' => self.phase = ParserPhase::KindEnd,
            b'=' => self.phase = ParserPhase::Equals,
            _ => return Ok(false),
        }
        Ok(true)
    }

    // A byte of a value or after it.
    fn in_value(&mut self, alloc: Global, byte: u8) -> Result<bool, AllocError>
        ensures { IfOk result (λ moves. Moves moves (value_step self.old byte) self.new) }
    {
        if byte == b'\\' {
            return Ok(self.mark());
        }
        if self.due.more != 0 {
            return self.plain(byte);
        }
        match byte {
            b' ' => {
                self.value.push(byte)?;
                Ok(true)
            }
            b',' => self.comma(alloc),
            _ => self.plain(byte),
        }
    }

    // Whether this byte may follow in the value.
    fn may_stand(&self, byte: u8) -> bool
        ensures { result ≡ may_stand self.now byte }
    {
        self.due.after(self.value.len(), byte).is_some()
    }

    // The first of two hexadecimal digits, which is worth so much.
    fn digit(&mut self, byte: u8, value: u8) -> bool
        requires digit { is_hex_digit byte ≡ true }
        requires value { value ≡ value_of byte }
        ensures { Moves result (digit_step self.old byte) self.new }
    {
        let least = 16 * value;
        if !self.may_stand(least) && !self.may_stand(least + 15) {
            return false;
        }
        self.phase = ParserPhase::Digit(byte);
        true
    }

    // After `\`.
    fn after_mark(&mut self, byte: u8) -> Result<bool, AllocError>
        ensures { IfOk result (λ moves. Moves moves (mark_next self.old byte) self.new) }
    {
        if is_special(byte) {
            return self.byte(byte);
        }
        match hex_value(byte) {
            Some(value) => Ok(self.digit(byte, value)),
            None => Ok(false),
        }
    }

    // The second of two hexadecimal digits.
    fn second_digit(&mut self, high: u8, byte: u8) -> Result<bool, AllocError>
        ensures { IfOk result (λ moves. Moves moves (second_step self.old high byte) self.new) }
    {
        match hex_pair(high, byte) {
            Some(value) => self.byte(value),
            None => Ok(false),
        }
    }

    // After a comma, after a type and after `=` blanks are passed over.
    fn after_comma(&mut self, byte: u8) -> Result<bool, AllocError>
        ensures { IfOk result (λ moves. Moves moves (comma_step self.old byte) self.new) }
    {
        if byte == b' ' {
            return Ok(true);
        }
        self.first_letter(byte)
    }

    fn first_letter(&mut self, byte: u8) -> Result<bool, AllocError>
        ensures { IfOk result (λ moves. Moves moves (first_step self.old byte) self.new) }
    {
        if is_letter(byte) {
            return self.letter(byte);
        }
        Ok(false)
    }

    fn after_kind(&mut self, byte: u8) -> bool
        ensures { Moves result (kind_end_step self.old byte) self.new }
    {
        match byte {
            b' ' => true,
            b'=' => {
                self.phase = ParserPhase::Equals;
                true
            }
            _ => false,
        }
    }

    fn after_equals(&mut self, byte: u8) -> Result<bool, AllocError>
        ensures { IfOk result (λ moves. Moves moves (equals_step self.old byte) self.new) }
    {
        match byte {
            b' ' => Ok(true),
            b'#' => Ok(false),
            b'\\' => Ok(self.mark()),
            _ => self.plain(byte),
        }
    }

    // Reads the next byte, and answers whether it may stand there.
    #[tactic(auto, unfolding(crate::specs::Steps::step_from))]
    pub fn step(&mut self, alloc: Global, byte: u8) -> Result<bool, AllocError>
        ensures { IfOk result (λ moves. Moves moves (step self.old byte) self.new) }
    {
        match self.phase {
            ParserPhase::Nothing => self.first_letter(byte),
            ParserPhase::Comma => self.after_comma(byte),
            ParserPhase::Kind => self.in_kind(byte),
            ParserPhase::KindEnd => Ok(self.after_kind(byte)),
            ParserPhase::Equals => self.after_equals(byte),
            ParserPhase::Value => self.in_value(alloc, byte),
            ParserPhase::Mark => self.after_mark(byte),
            ParserPhase::Digit(high) => self.second_digit(high, byte),
        }
    }

    // The parts of the name, where its text may end here.
    pub fn finish(self) -> Result<Option<Vec<Rdn>>, AllocError>
        ensures { IfOk result (λ rdns. option_map (λ v. v.items) rdns ≡ finished self) }
    {
        match self.phase {
            ParserPhase::Nothing => Ok(Some(self.rdns.items)),
            ParserPhase::Value => self.finish_value(),
            _ => Ok(None),
        }
    }

    fn finish_value(self) -> Result<Option<Vec<Rdn>>, AllocError>
        ensures { IfOk result (λ rdns. option_map (λ v. v.items) rdns ≡ finished_value self) }
    {
        if self.due.more != 0 || self.kept != self.value.len() {
            return Ok(None);
        }
        let mut rdns = self.rdns.items;
        rdns.push(Rdn {
            kind: self.kind,
            value: self.value,
        })?;
        Ok(Some(rdns))
    }
}
