//! A text that comes in pieces: it may be cut after an empty line, where no record goes on.

ghost use Rattle.std.specs.Prelude.{◌≡◌, ◌+◌, ◌<◌, ◌≤◌, ◌↔◌, ◌||◌, ◌^◌, ℕ, true, take, length};
ghost use Rattle.ad_ldif.specs.Pieces.{EndsRecord, one_end, line_ends};

use memchr::memrchr;

fn either(a: bool, b: bool) -> bool
    ensures { result ≡ (a || b) }
{
    a || b
}

// Whether a text ends with an empty line that isn't its first.
fn ends_record(text: &[u8]) -> bool
    ensures { (result ≡ true) ↔ EndsRecord text.now }
{
    either(text.ends_with(b"\n\n"), text.ends_with(b"\n\r\n"))
}

/// The length of the prefix of a text up to the end of its last empty line that isn't its first; 0 where there is
/// none.
pub fn end_of_records(text: &[u8]) -> usize
    ensures within { result ≤ length text.now }
    ensures ends { 0 < result → EndsRecord (take result text.now) }
    ensures last { (n : ℕ) → result < n → n ≤ length text.now → EndsRecord (take n text.now) → ⊥ }
{
    let mut end = text.len();
    'lines: while let Some(at) = memrchr(b'\n', &text[..end]) {
        if ends_record(&text[..at + 1]) {
            return at + 1;
        }
        end = at;
    }
    0
}

fn one_end(byte: u8) -> u8
    ensures { result ≡ one_end byte }
{
    if byte == b'\n' { 1 } else { 0 }
}

// So many bytes are counted in one byte: then many are compared at once.
const BLOCK: usize = 128;

fn ends_in_block(block: &[u8]) -> u8
    requires { length block.now ≤ 128 }
    ensures count { result ≡ line_ends block.now }
    ensures few { result ≤ length block.now }
{
    let mut count = 0;
    for byte in block {
        count += one_end(*byte);
    }
    count
}

/// How many lines of a text end with LF.
pub fn line_ends(text: &[u8]) -> u32
    requires { length text.now < 2 ^ 32 }
    ensures count { result ≡ line_ends text.now }
    ensures few { result ≤ length text.now }
{
    let mut count = 0;
    let mut rest = text;
    'fronts: while rest.len() > BLOCK {
        let (block, behind) = rest.split_at(BLOCK);
        count += u32::from(ends_in_block(block));
        rest = behind;
    }
    count + u32::from(ends_in_block(rest))
}
