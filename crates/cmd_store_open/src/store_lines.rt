//! The lines for slots that represent no directory.

ghost use Rattle.std.specs.Prelude.{◌≡◌, ◌++◌, IfOk, OnOk};
ghost use Rattle.ad_engine_store.specs.declared.fault.OpenFault.TheVariants as Fault;
ghost use Rattle.cmd_store_open.specs.Lines.{store_line};

use ad_engine_store::OpenFault;
use cmd_call::{put, put_number};
use std::alloc::{AllocError, Global};

/// The line of a store that is taken.
pub const TAKEN: &str = "store taken\n";

// A row that isn't of its form.
fn put_row(into: &mut Vec<u8>, kind: u8, number: u64) -> Result<(), AllocError>
    ensures { OnOk result (into.new.items ≡ into.old.items ++ store_line (Fault.Row kind number)) }
{
    put(into, "store row ")?;
    put_number(into, u64::from(kind))?;
    put(into, " ")?;
    put_number(into, number)?;
    put(into, "\n")
}

// Rows that make no sound directory.
fn put_unsound(into: &mut Vec<u8>, number: u32) -> Result<(), AllocError>
    ensures { OnOk result (into.new.items ≡ into.old.items ++ store_line (Fault.Unsound number)) }
{
    put(into, "store unsound ")?;
    put_number(into, u64::from(number))?;
    put(into, "\n")
}

// Why slots represent no directory; of a fault from outside nothing.
fn put_why(into: &mut Vec<u8>, fault: OpenFault) -> Result<(), AllocError>
    ensures { OnOk result (into.new.items ≡ into.old.items ++ store_line fault) }
{
    match fault {
        OpenFault::Taken => put(into, TAKEN),
        OpenFault::Empty => put(into, "store empty\n"),
        OpenFault::Broken => put(into, "store broken\n"),
        OpenFault::Row(kind, number) => put_row(into, kind, number),
        OpenFault::Unsound(number) => put_unsound(into, number),
        OpenFault::Site | OpenFault::Memory => put(into, ""),
    }
}

/// A word that says which store it is, and why its slots represent no directory.
///
/// # Errors
///
/// Memory ran out.
pub fn line_of(alloc: Global, which: &str, fault: OpenFault) -> Result<Vec<u8>, AllocError>
    ensures { IfOk result (λ text. text.items ≡ which.now ++ store_line fault) }
{
    let mut text = Vec::new(alloc);
    put(&mut text, which)?;
    put_why(&mut text, fault)?;
    Ok(text)
}
