//! Reading the text of an identifier, a byte a step.

ghost use Rattle.std.specs.Prelude.{◌≡◌, ◌<◌, ◌≤◌, ◌^◌, ◌++◌, [], ◌∷◌, length, take, if◌then◌else◌};
ghost use Rattle.std.specs.Prelude.{IfOk, IfErr, IfSome, OnSome, Some, None};
ghost use Rattle.std.specs.Prelude.{◌-◌};
ghost use Rattle.ad_ids.specs.SidSteps.{is_digit, state, more_digits, with_number, hex_step, decimal_step};
ghost use Rattle.ad_ids.specs.SidSteps.{number_step, step, from_there, start, finished, Stops};
ghost use Rattle.ad_ids.specs.SidGrammar.{SpellsSidText, IsPlace};
ghost use Rattle.ad_ids.specs.SidValue.{SidValue};
ghost use Rattle.std.specs.Prelude.{Ok};

use super::{MAX_SUB_AUTHORITIES, Sid};
use ad_bytes::hex_value;
use std::marker::Model;
use thiserror::Error;

// Up to 15 sub-authorities, which a contract sees as a list.
#[derive(Drop)]
struct Places {
    count: u8,
    // The sub-authorities, and 0 after them.
    places: [u32; MAX_SUB_AUTHORITIES],
}

impl Model for Places {
    ghost use Rattle.std.specs.Prelude.{List, ℕ, take};
    ghost use Rattle.ad_ids.specs.SidDone.{IsDone};

    ghost Value = { List ℕ };

    ghost view = { λ s. take s.count s.places };

    ghost invariant = { IsDone };
}

// What stands before the next byte.
#[derive(Clone, Copy)]
enum Before {
    Nothing,
    Letter,
    LetterHyphen,
    Revision,
    // `S-1-`
    Front,
    // The authority so far, in decimal.
    Decimal,
    // `0x` and so many digits.
    Hex(u8),
    // A hyphen before a sub-authority.
    Hyphen,
    // A sub-authority so far.
    Number,
}

#[derive(Drop)]
struct State {
    before: Before,
    authority: u64,
    // The decimal number that is being read.
    number: u32,
    // The sub-authorities before it.
    done: Places,
}

impl Places {
    fn new() -> Places
        ensures { result ≡ [] }
    {
        Places {
            count: 0,
            places: [0; MAX_SUB_AUTHORITIES],
        }
    }

    fn len(&self) -> u8
        ensures { result ≡ length self.now }
    {
        self.count
    }

    // The list with one more at its end.
    fn with(self, number: u32) -> Places
        requires { length self < 15 }
        ensures { result ≡ self ++ number ∷ [] }
    {
        let mut places = self.places;
        places[usize::from(self.count)] = number;
        Places {
            count: self.count + 1,
            places,
        }
    }
}

// The number with one more digit, unless it began with 0 or is too large.
fn more_digits(number: u32, byte: u8) -> Option<u32>
    ensures { result ≡ more_digits number byte }
{
    if !byte.is_ascii_digit() || number == 0 {
        return None;
    }
    let more = u64::from(number) * 10 + u64::from(byte - b'0');
    if more < 1 << 32 {
        Some(more as u32)
    } else {
        None
    }
}

impl State {
    fn start() -> State
        ensures { result ≡ start }
    {
        State {
            before: Before::Nothing,
            authority: 0,
            number: 0,
            done: Places::new(),
        }
    }

    // The state with this before the next byte, where the test passes.
    fn moved(self, test: bool, before: Before) -> Option<State>
        ensures { result ≡ (if test then Some (state before self.authority self.number self.done) else None) }
    {
        if test {
            Some(State {
                before,
                authority: self.authority,
                number: self.number,
                done: self.done,
            })
        } else {
            None
        }
    }

    fn with_digit(self, byte: u8) -> Option<State>
        ensures { result ≡ with_number self (more_digits self.number byte) }
    {
        match more_digits(self.number, byte) {
            Some(number) => Some(State {
                before: self.before,
                authority: self.authority,
                number,
                done: self.done,
            }),
            None => None,
        }
    }

    // The first digit of a decimal number.
    fn with_first(self, byte: u8, before: Before) -> Option<State>
        ensures { result ≡ (if is_digit byte then Some (state before self.authority (byte - 48) self.done) else None) }
    {
        if !byte.is_ascii_digit() {
            return None;
        }
        Some(State {
            before,
            authority: self.authority,
            number: u32::from(byte - b'0'),
            done: self.done,
        })
    }

    #[tactic(auto, unfolding(crate::specs::SidSteps::hex_step))]
    fn hex_step(self, count: u8, byte: u8) -> Option<State>
        ensures { result ≡ hex_step count self byte }
    {
        if count == 12 {
            return self.moved(byte == b'-', Before::Hyphen);
        }
        let value = hex_value(byte)?;
        if self.authority >= 1 << 44 || count > 12 {
            return None;
        }
        let authority = self.authority * 16 + u64::from(value);
        if count == 3 && authority == 0 {
            return None;
        }
        Some(State {
            before: Before::Hex(count + 1),
            authority,
            number: self.number,
            done: self.done,
        })
    }

    fn decimal_step(self, byte: u8) -> Option<State>
        ensures { result ≡ decimal_step self byte }
    {
        if byte == b'-' {
            return Some(State {
                before: Before::Hyphen,
                authority: u64::from(self.number),
                number: self.number,
                done: self.done,
            });
        }
        if byte == b'x' && self.number == 0 {
            return Some(State {
                before: Before::Hex(0),
                authority: 0,
                number: self.number,
                done: self.done,
            });
        }
        self.with_digit(byte)
    }

    fn number_step(self, byte: u8) -> Option<State>
        ensures { result ≡ number_step self byte }
    {
        if byte != b'-' {
            return self.with_digit(byte);
        }
        if self.done.len() >= 14 {
            return None;
        }
        Some(State {
            before: Before::Hyphen,
            authority: self.authority,
            number: self.number,
            done: self.done.with(self.number),
        })
    }

    #[tactic(auto, unfolding(crate::specs::SidSteps::step_from))]
    fn step(self, byte: u8) -> Option<State>
        ensures { result ≡ step self byte }
    {
        match self.before {
            Before::Nothing => self.moved(byte == b'S' || byte == b's', Before::Letter),
            Before::Letter => self.moved(byte == b'-', Before::LetterHyphen),
            Before::LetterHyphen => self.moved(byte == b'1', Before::Revision),
            Before::Revision => self.moved(byte == b'-', Before::Front),
            Before::Front => self.with_first(byte, Before::Decimal),
            Before::Decimal => self.decimal_step(byte),
            Before::Hex(count) => self.hex_step(count, byte),
            Before::Hyphen => self.with_first(byte, Before::Number),
            Before::Number => self.number_step(byte),
        }
    }
}

impl State {
    // The identifier, where its text may end here.
    fn finish(self) -> Option<Sid>
        ensures { result ≡ finished self }
    {
        match self.before {
            Before::Number => {}
            _ => return None,
        }
        if self.authority >= 1 << 48 || self.done.len() >= 15 {
            return None;
        }
        let all = self.done.with(self.number);
        let places = all.places;
        Some(Sid {
            authority: self.authority,
            count: all.count,
            places,
        })
    }
}

// Reads each byte, up to the first that may not stand at its place.
fn read(text: &[u8]) -> Result<State, SidTextFault>
    ensures ok { IfOk result (λ s. from_there (Some start) text.now ≡ Some s) }
    ensures err { IfErr result (λ fault. Stops fault.place text.now) }
{
    let mut state = State::start();
    for (place, byte) in text.iter().enumerate() {
        match state.step(*byte) {
            Some(next) => state = next,
            None => return Err(SidTextFault { place }),
        }
    }
    Ok(state)
}

/// Where a text is no security identifier's.
#[derive(Clone, Copy, Debug, PartialEq, Eq, Error)]
#[error("no security identifier's text has this at offset {place}")]
pub struct SidTextFault {
    /// The number of bytes before the first that no identifier's text has there, or of all bytes where
    /// the text only ends too soon.
    pub place: usize,
}

impl Sid {
    /// Reads an identifier's text ([MS-DTYP] 2.4.2.1): `S-1-` with `S` in either case, the authority in
    /// decimal below 2^32, else as `0x` and 12 hexadecimal digits in either case, and then for each of 1
    /// to 15 sub-authorities a hyphen and the number in decimal. No decimal number begins with a 0 that
    /// isn't all of it. It takes no memory.
    ///
    /// # Errors
    ///
    /// `SidTextFault` where the text is no identifier's, with the offset of the first byte that no
    /// identifier's text has there, or the length.
    pub fn from_text(text: &[u8]) -> Result<Sid, SidTextFault>
        // What is read is encoded by the text.
        ensures found { IfOk result (λ sid. SpellsSidText sid text.now) }
        // Whatever is encoded so is read.
        ensures only { (sid : SidValue) → SpellsSidText sid text.now → result ≡ Ok sid }
        // The offset is the length of the longest prefix with which some identifier's text begins.
        ensures fault { IfErr result (λ fault. IsPlace fault.place text.now) }
    {
        let state = match read(text) {
            Ok(state) => state,
            Err(fault) => return Err(fault),
        };
        match state.finish() {
            Some(sid) => Ok(sid),
            None => Err(SidTextFault { place: text.len() }),
        }
    }
}
