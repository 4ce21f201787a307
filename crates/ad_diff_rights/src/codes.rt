//! The codes of the rights that are asked for, of what they are asked.

ghost use Rattle.std.specs.Prelude.{◌≡◌};
ghost use Rattle.ad_diff_rights.specs.Rights.{object_codes, attribute_codes, extended_codes, validated_codes};
ghost use Rattle.ad_diff_rights.specs.Rights.{child_codes};

use ad_acl::Code;

static OBJECT: [Code; 13] = [
    Code {
        letters: *b"CC",
        bits: 0x1,
        place: 0,
    },
    Code {
        letters: *b"DC",
        bits: 0x2,
        place: 1,
    },
    Code {
        letters: *b"LC",
        bits: 0x4,
        place: 2,
    },
    Code {
        letters: *b"SW",
        bits: 0x8,
        place: 3,
    },
    Code {
        letters: *b"RP",
        bits: 0x10,
        place: 4,
    },
    Code {
        letters: *b"WP",
        bits: 0x20,
        place: 5,
    },
    Code {
        letters: *b"DT",
        bits: 0x40,
        place: 6,
    },
    Code {
        letters: *b"LO",
        bits: 0x80,
        place: 7,
    },
    Code {
        letters: *b"CR",
        bits: 0x100,
        place: 8,
    },
    Code {
        letters: *b"SD",
        bits: 0x1_0000,
        place: 16,
    },
    Code {
        letters: *b"RC",
        bits: 0x2_0000,
        place: 17,
    },
    Code {
        letters: *b"WD",
        bits: 0x4_0000,
        place: 18,
    },
    Code {
        letters: *b"WO",
        bits: 0x8_0000,
        place: 19,
    },
];

static ATTRIBUTE: [Code; 3] = [
    Code {
        letters: *b"RP",
        bits: 0x10,
        place: 4,
    },
    Code {
        letters: *b"WP",
        bits: 0x20,
        place: 5,
    },
    Code {
        letters: *b"CR",
        bits: 0x100,
        place: 8,
    },
];

static EXTENDED: [Code; 1] = [Code {
    letters: *b"CR",
    bits: 0x100,
    place: 8,
}];

static VALIDATED: [Code; 1] = [Code {
    letters: *b"SW",
    bits: 0x8,
    place: 3,
}];

static CHILD: [Code; 2] = [
    Code {
        letters: *b"CC",
        bits: 0x1,
        place: 0,
    },
    Code {
        letters: *b"DC",
        bits: 0x2,
        place: 1,
    },
];

/// Those of an object.
pub(crate) fn object_codes() -> &'static [Code]
    ensures { result.now ≡ object_codes }
{
    &OBJECT
}

/// Those of an attribute.
pub(crate) fn attribute_codes() -> &'static [Code]
    ensures { result.now ≡ attribute_codes }
{
    &ATTRIBUTE
}

/// That of an extended right.
pub(crate) fn extended_codes() -> &'static [Code]
    ensures { result.now ≡ extended_codes }
{
    &EXTENDED
}

/// That of a validated write.
pub(crate) fn validated_codes() -> &'static [Code]
    ensures { result.now ≡ validated_codes }
{
    &VALIDATED
}

/// Those of the children of a class.
pub(crate) fn child_codes() -> &'static [Code]
    ensures { result.now ≡ child_codes }
{
    &CHILD
}
