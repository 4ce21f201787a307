//! How the codes of flags and rights are found by their letters, and the aliases of identifiers ([MS-DTYP] 2.5.1.1).

ghost use Rattle.std.specs.Prelude.{◌≡◌};
ghost use Rattle.ad_sddl.specs.Words.{alias_codes, are_letters, find, find_alias};

use ad_acl::Code;

/// What an alias stands below.
#[derive(Clone, Copy)]
pub(crate) enum Base {
    /// S-1-1
    World,
    /// S-1-3
    Creator,
    /// S-1-5
    Nt,
    /// S-1-5-32
    Builtin,
    /// The domain that is given.
    Domain,
}

/// An alias of two capital letters, and the identifier that it represents: the number below the base.
#[derive(Clone, Copy)]
pub(crate) struct Alias {
    pub(crate) letters: [u8; 2],
    pub(crate) base: Base,
    pub(crate) number: u32,
}

static ALIASES: [Alias; 39] = [
    Alias {
        letters: *b"WD",
        base: Base::World,
        number: 0,
    },
    Alias {
        letters: *b"CO",
        base: Base::Creator,
        number: 0,
    },
    Alias {
        letters: *b"CG",
        base: Base::Creator,
        number: 1,
    },
    Alias {
        letters: *b"OW",
        base: Base::Creator,
        number: 4,
    },
    Alias {
        letters: *b"NU",
        base: Base::Nt,
        number: 2,
    },
    Alias {
        letters: *b"IU",
        base: Base::Nt,
        number: 4,
    },
    Alias {
        letters: *b"SU",
        base: Base::Nt,
        number: 6,
    },
    Alias {
        letters: *b"AN",
        base: Base::Nt,
        number: 7,
    },
    Alias {
        letters: *b"ED",
        base: Base::Nt,
        number: 9,
    },
    Alias {
        letters: *b"PS",
        base: Base::Nt,
        number: 10,
    },
    Alias {
        letters: *b"AU",
        base: Base::Nt,
        number: 11,
    },
    Alias {
        letters: *b"RC",
        base: Base::Nt,
        number: 12,
    },
    Alias {
        letters: *b"SY",
        base: Base::Nt,
        number: 18,
    },
    Alias {
        letters: *b"LS",
        base: Base::Nt,
        number: 19,
    },
    Alias {
        letters: *b"NS",
        base: Base::Nt,
        number: 20,
    },
    Alias {
        letters: *b"BA",
        base: Base::Builtin,
        number: 544,
    },
    Alias {
        letters: *b"BU",
        base: Base::Builtin,
        number: 545,
    },
    Alias {
        letters: *b"BG",
        base: Base::Builtin,
        number: 546,
    },
    Alias {
        letters: *b"PU",
        base: Base::Builtin,
        number: 547,
    },
    Alias {
        letters: *b"AO",
        base: Base::Builtin,
        number: 548,
    },
    Alias {
        letters: *b"SO",
        base: Base::Builtin,
        number: 549,
    },
    Alias {
        letters: *b"PO",
        base: Base::Builtin,
        number: 550,
    },
    Alias {
        letters: *b"BO",
        base: Base::Builtin,
        number: 551,
    },
    Alias {
        letters: *b"RE",
        base: Base::Builtin,
        number: 552,
    },
    Alias {
        letters: *b"RU",
        base: Base::Builtin,
        number: 554,
    },
    Alias {
        letters: *b"RD",
        base: Base::Builtin,
        number: 555,
    },
    Alias {
        letters: *b"NO",
        base: Base::Builtin,
        number: 556,
    },
    Alias {
        letters: *b"LA",
        base: Base::Domain,
        number: 500,
    },
    Alias {
        letters: *b"LG",
        base: Base::Domain,
        number: 501,
    },
    Alias {
        letters: *b"DA",
        base: Base::Domain,
        number: 512,
    },
    Alias {
        letters: *b"DU",
        base: Base::Domain,
        number: 513,
    },
    Alias {
        letters: *b"DG",
        base: Base::Domain,
        number: 514,
    },
    Alias {
        letters: *b"DC",
        base: Base::Domain,
        number: 515,
    },
    Alias {
        letters: *b"DD",
        base: Base::Domain,
        number: 516,
    },
    Alias {
        letters: *b"CA",
        base: Base::Domain,
        number: 517,
    },
    Alias {
        letters: *b"SA",
        base: Base::Domain,
        number: 518,
    },
    Alias {
        letters: *b"EA",
        base: Base::Domain,
        number: 519,
    },
    Alias {
        letters: *b"PA",
        base: Base::Domain,
        number: 520,
    },
    Alias {
        letters: *b"RS",
        base: Base::Domain,
        number: 553,
    },
];

/// The aliases.
#[tactic(auto, unfolding(crate::specs::Words::alias_codes))]
pub(crate) fn alias_table() -> &'static [Alias]
    ensures { result.now ≡ alias_codes }
{
    &ALIASES
}

// Whether the two letters, in lower case, are these capitals.
fn are_letters(first: u8, second: u8, capitals: [u8; 2]) -> bool
    ensures { result ≡ are_letters first second capitals }
{
    capitals[0].to_ascii_lowercase() == first && capitals[1].to_ascii_lowercase() == second
}

// The code of these letters, which are in lower case.
pub(crate) fn find(table: &[Code], first: u8, second: u8) -> Option<Code>
    ensures { result ≡ find table.now first second }
{
    for code in table {
        if are_letters(first, second, code.letters) {
            return Some(*code);
        }
    }
    None
}

// The alias of these letters, which are in lower case.
pub(crate) fn find_alias(table: &[Alias], first: u8, second: u8) -> Option<Alias>
    ensures { result ≡ find_alias table.now first second }
{
    for alias in table {
        if are_letters(first, second, alias.letters) {
            return Some(*alias);
        }
    }
    None
}
