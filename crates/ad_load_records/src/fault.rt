//! Why a text is no directory.

ghost use Rattle.std.specs.Prelude.{◌≡◌};
ghost use Rattle.ad_load_records.specs.Faults.{at};
ghost use Rattle.ad_load_records.specs.declared.fault.LoadFault.TheVariants.{Memory};

use ad_bytes::Bytes;
use std::alloc::{AllocError, AllocFailed};
use thiserror::Error;

/// What is wrong at a line, or with the whole. A name is spelled as in the line; that of a schema's line as in the
/// table of such lines, and of a second record of one name as that record has it.
#[derive(Debug, Drop, PartialEq, Eq)]
pub enum LoadCause {
    /// No line of LDIF.
    Line,
    /// A value that is no base64.
    Base64,
    /// A record that doesn't begin with `dn`.
    NoDn,
    /// A version that isn't 1.
    Version,
    /// A value given by a URL.
    Url,
    /// A change that isn't `add`.
    ChangeType,
    /// A value with more than 1,048,576 bytes, or a text with more than 67,108,864.
    TooLong,
    /// A `dn` that is no name, or the empty name in a record of an object.
    Dn,
    /// No object, or two objects of which none has fewer parts in its name.
    Root,
    /// No object of the name above this one.
    Parent,
    /// A sibling has the same naming value.
    NameTaken,
    /// The name begins with another type than the class's naming attribute.
    Naming,
    /// A required line of a record of the schema isn't there.
    SchemaMissing(Bytes),
    /// There is an attribute or a class of this name, or a right of the GUID of this one.
    SchemaRepeated(Bytes),
    /// A value of a record of the schema can't be read, or is one too many.
    SchemaValue(Bytes),
    /// A class names an attribute or a class that isn't there.
    SchemaUnknown(Bytes),
    /// The superclasses of this class never end.
    SchemaLoop(Bytes),
    /// The default descriptor of this class can't be read.
    SchemaDefault(Bytes),
    /// The values of objectClass name no class that an object may have.
    Class,
    /// There is no attribute of this name.
    Attribute(Bytes),
    /// A value of this attribute can't be read, or is one too many.
    Value(Bytes),
    /// A value of this attribute names no object.
    Link(Bytes),
    /// A descriptor that can't be read, or a second one.
    Descriptor,
    /// Another object has this identifier.
    Sid,
    /// A limit of a directory is exceeded.
    Limit,
}

/// Why a text is no directory: the first fault, phase by phase.
#[derive(Debug, Drop, PartialEq, Eq, Error)]
pub enum LoadFault {
    /// The line is that of the fault; that of the record's `dn` for a record of the schema, and for an object's
    /// parent, class and name; and 0 for a fault of the whole.
    #[error("line {line} {cause:?}")]
    Bad { line: u32, cause: LoadCause },
    /// Memory ran out.
    #[error("memory ran out")]
    Memory,
}

impl From<AllocError> for LoadFault {
    ghost from_gives = { λ _ e. e ≡ Memory };

    fn from(_: AllocError) -> LoadFault {
        LoadFault::Memory
    }
}

impl<T: Drop> From<AllocFailed<T>> for LoadFault {
    ghost from_gives = { λ _ e. e ≡ Memory };

    fn from(_: AllocFailed<T>) -> LoadFault {
        LoadFault::Memory
    }
}

/// A fault at a line.
pub fn bad(line: u32, cause: LoadCause) -> LoadFault
    ensures { result ≡ at line cause }
{
    LoadFault::Bad { line, cause }
}
