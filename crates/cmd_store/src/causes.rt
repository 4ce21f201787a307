//! The line for a text that is no directory.

ghost use Rattle.std.specs.Prelude.{◌≡◌, ◌<◌, ◌++◌, IfOk, OnOk};
ghost use Rattle.uuid.specs.Text.{hex_digit, upper};
ghost use Rattle.cmd_store.specs.Causes.{cause_text, load_line, is_plain, shown_byte, shown_name};

use ad_load::LoadCause;
use cmd_call::{fault_line, put};
use std::alloc::{AllocError, Global};

// The hexadecimal digit of a number below 16, in upper case.
fn upper_digit(number: u8) -> u8
    requires { number < 16 }
    ensures { result ≡ hex_digit upper number }
{
    if number < 10 {
        b'0' + number
    } else {
        b'A' + number - 10
    }
}

// A printable character of ASCII, but the blank and the backslash.
fn is_plain(byte: u8) -> bool
    ensures { result ≡ is_plain byte }
{
    32 < byte && byte < 127 && byte != b'\\'
}

// A byte of a name: itself, or in digits.
fn put_shown_byte(into: &mut Vec<u8>, byte: u8) -> Result<(), AllocError>
    ensures { OnOk result (into.new.items ≡ into.old.items ++ shown_byte byte) }
{
    if is_plain(byte) {
        return into.extend_from_slice(&[byte]);
    }
    into.extend_from_slice(&[b'\\', upper_digit(byte / 16), upper_digit(byte % 16)])
}

// A name of any bytes.
fn put_shown(into: &mut Vec<u8>, name: &[u8]) -> Result<(), AllocError>
    ensures { OnOk result (into.new.items ≡ into.old.items ++ shown_name name.now) }
{
    for byte in name {
        put_shown_byte(into, *byte)?;
    }
    Ok(())
}

// Words and a name of any bytes that they are about.
fn put_any(into: &mut Vec<u8>, words: &str, name: &[u8]) -> Result<(), AllocError>
    ensures { OnOk result (into.new.items ≡ into.old.items ++ (words.now ++ shown_name name.now)) }
{
    put(into, words)?;
    put_shown(into, name)
}

// Words and the name that they are about.
fn put_named(into: &mut Vec<u8>, words: &str, name: &[u8]) -> Result<(), AllocError>
    ensures { OnOk result (into.new.items ≡ into.old.items ++ (words.now ++ name.now)) }
{
    put(into, words)?;
    into.extend_from_slice(name)
}

fn put_cause(into: &mut Vec<u8>, cause: &LoadCause) -> Result<(), AllocError>
    ensures { OnOk result (into.new.items ≡ into.old.items ++ cause_text cause.now) }
{
    match cause {
        LoadCause::Line => put(into, "line"),
        LoadCause::Base64 => put(into, "base64"),
        LoadCause::NoDn => put(into, "no dn"),
        LoadCause::Version => put(into, "version"),
        LoadCause::Url => put(into, "url"),
        LoadCause::ChangeType => put(into, "changetype"),
        LoadCause::TooLong => put(into, "too long"),
        LoadCause::Dn => put(into, "dn"),
        LoadCause::Root => put(into, "root"),
        LoadCause::Parent => put(into, "parent"),
        LoadCause::NameTaken => put(into, "name taken"),
        LoadCause::Naming => put(into, "naming"),
        LoadCause::SchemaMissing(name) => put_named(into, "schema missing ", name.as_slice()),
        LoadCause::SchemaRepeated(name) => put_any(into, "schema repeated ", name.as_slice()),
        LoadCause::SchemaValue(name) => put_named(into, "schema value ", name.as_slice()),
        LoadCause::SchemaUnknown(name) => put_any(into, "schema unknown ", name.as_slice()),
        LoadCause::SchemaLoop(name) => put_named(into, "schema loop ", name.as_slice()),
        LoadCause::SchemaDefault(name) => put_named(into, "schema default ", name.as_slice()),
        LoadCause::Class => put(into, "class"),
        LoadCause::Attribute(name) => put_named(into, "attribute ", name.as_slice()),
        LoadCause::Value(name) => put_named(into, "value ", name.as_slice()),
        LoadCause::Link(name) => put_named(into, "link ", name.as_slice()),
        LoadCause::Descriptor => put(into, "descriptor"),
        LoadCause::Sid => put(into, "sid"),
        LoadCause::Limit => put(into, "limit"),
    }
}

/// The line for a text that is no directory.
pub fn line_of_cause(alloc: Global, line: u32, cause: &LoadCause) -> Result<Vec<u8>, AllocError>
    ensures { IfOk result (λ text. text.items ≡ load_line line cause.now) }
{
    let mut words = Vec::new(alloc);
    put_cause(&mut words, cause)?;
    fault_line(alloc, line, &words)
}
