//! The letters of rights and of flags, as the texts of descriptors have them ([MS-DTYP] 2.5.1.1): the one table that
//! all texts are read and written by.

ghost use Rattle.std.specs.Prelude.{◌≡◌};
ghost use Rattle.ad_acl.specs.Codes.{flag_codes, right_codes, letters_in, letters_of};

use crate::mask::ACCESS_SYSTEM_SECURITY;

/// A code of two capital letters, and the one bit that it represents, as a mask and by its place.
#[derive(Clone, Copy)]
pub struct Code {
    pub letters: [u8; 2],
    pub bits: u32,
    pub place: u32,
}

static FLAGS: [Code; 7] = [
    Code {
        letters: *b"OI",
        bits: 0x01,
        place: 0,
    },
    Code {
        letters: *b"CI",
        bits: 0x02,
        place: 1,
    },
    Code {
        letters: *b"NP",
        bits: 0x04,
        place: 2,
    },
    Code {
        letters: *b"IO",
        bits: 0x08,
        place: 3,
    },
    Code {
        letters: *b"ID",
        bits: 0x10,
        place: 4,
    },
    Code {
        letters: *b"SA",
        bits: 0x40,
        place: 6,
    },
    Code {
        letters: *b"FA",
        bits: 0x80,
        place: 7,
    },
];

static RIGHTS: [Code; 17] = [
    Code {
        letters: *b"CC",
        bits: 0x1,
        place: 0,
    },
    Code {
        letters: *b"DC",
        bits: 0x2,
        place: 1,
    },
    Code {
        letters: *b"LC",
        bits: 0x4,
        place: 2,
    },
    Code {
        letters: *b"SW",
        bits: 0x8,
        place: 3,
    },
    Code {
        letters: *b"RP",
        bits: 0x10,
        place: 4,
    },
    Code {
        letters: *b"WP",
        bits: 0x20,
        place: 5,
    },
    Code {
        letters: *b"DT",
        bits: 0x40,
        place: 6,
    },
    Code {
        letters: *b"LO",
        bits: 0x80,
        place: 7,
    },
    Code {
        letters: *b"CR",
        bits: 0x100,
        place: 8,
    },
    Code {
        letters: *b"SD",
        bits: 0x1_0000,
        place: 16,
    },
    Code {
        letters: *b"RC",
        bits: 0x2_0000,
        place: 17,
    },
    Code {
        letters: *b"WD",
        bits: 0x4_0000,
        place: 18,
    },
    Code {
        letters: *b"WO",
        bits: 0x8_0000,
        place: 19,
    },
    Code {
        letters: *b"GA",
        bits: 0x1000_0000,
        place: 28,
    },
    Code {
        letters: *b"GX",
        bits: 0x2000_0000,
        place: 29,
    },
    Code {
        letters: *b"GW",
        bits: 0x4000_0000,
        place: 30,
    },
    Code {
        letters: *b"GR",
        bits: 0x8000_0000,
        place: 31,
    },
];

/// The flags of an entry, in the order in which they are written.
#[tactic(auto, unfolding(crate::specs::Codes::flag_codes))]
pub fn flag_codes() -> &'static [Code]
    ensures { result.now ≡ flag_codes }
{
    &FLAGS
}

/// The rights of an entry, in the order in which they are written: on objects, on their descriptors, and the generic
/// ones.
#[tactic(auto, unfolding(crate::specs::Codes::right_codes))]
pub fn right_codes() -> &'static [Code]
    ensures { result.now ≡ right_codes }
{
    &RIGHTS
}

// The letters of the first code of a table that has these bits.
fn letters_in(table: &'static [Code], bits: u32) -> &'static [u8]
    ensures { result.now ≡ letters_in table.now bits }
{
    for code in table {
        if code.bits == bits {
            return code.letters.as_slice();
        }
    }
    b""
}

/// The letters of one right, as a mask: those of its code, and `AS` for the right to the system access control list,
/// which no text of a descriptor has. Any other mask has none.
#[tactic(auto, unfolding(crate::specs::Codes::letters_of))]
pub fn letters_of(right: u32) -> &'static [u8]
    ensures { result.now ≡ letters_of right }
{
    if right == ACCESS_SYSTEM_SECURITY {
        return b"AS";
    }
    letters_in(right_codes(), right)
}
