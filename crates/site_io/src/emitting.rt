//! What an output does with the bytes of an emit.

use std::io;
use std::io::Write;

// Writes all the bytes, and has the writer pass them on.
pub(crate) fn write_out<W: Write>(writer: &mut W, bytes: &[u8]) -> io::Result<()> {
    writer.write_all(bytes)?;
    writer.flush()
}
