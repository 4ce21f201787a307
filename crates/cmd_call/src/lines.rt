//! The parts of the lines that commands emit.

ghost use Rattle.std.specs.Prelude.{◌≡◌, ◌++◌, decimal, IfOk, OnOk};
ghost use Rattle.cmd_call.specs.Lines.{counted, fault_line};

use std::alloc::{AllocError, Global};

/// A number in decimal.
///
/// # Errors
///
/// Memory ran out.
pub fn put_number(into: &mut Vec<u8>, n: u64) -> Result<(), AllocError>
    ensures { OnOk result (into.new.items ≡ into.old.items ++ decimal n) }
{
    into.extend_from_slice(itoa::Buffer::new().format(n).as_bytes())
}

/// A text.
///
/// # Errors
///
/// Memory ran out.
pub fn put(into: &mut Vec<u8>, text: &str) -> Result<(), AllocError>
    ensures { OnOk result (into.new.items ≡ into.old.items ++ text.now) }
{
    into.extend_from_slice(text.as_bytes())
}

/// A word, a number and a line end.
///
/// # Errors
///
/// Memory ran out.
pub fn put_counted(into: &mut Vec<u8>, word: &str, n: u64) -> Result<(), AllocError>
    ensures { OnOk result (into.new.items ≡ into.old.items ++ counted word.now n) }
{
    put(into, word)?;
    put(into, " ")?;
    put_number(into, n)?;
    put(into, "\n")
}

/// Which line of a text has a fault, and what is wrong with it, as a line.
///
/// # Errors
///
/// Memory ran out.
pub fn fault_line(alloc: Global, line: u32, words: &[u8]) -> Result<Vec<u8>, AllocError>
    ensures { IfOk result (λ text. text.items ≡ fault_line line words.now) }
{
    let mut text = Vec::new(alloc);
    put(&mut text, "line ")?;
    put_number(&mut text, u64::from(line))?;
    put(&mut text, " ")?;
    text.extend_from_slice(words)?;
    put(&mut text, "\n")?;
    Ok(text)
}
