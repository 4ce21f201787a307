//! The three values of truth.

ghost use Rattle.std.specs.Prelude.{◌≡◌};
ghost use Rattle.ad_filter.specs.ThreeValues.{both, either, opposite};

/// What a filter says of an object (RFC 4511 4.5.1.7).
#[derive(Clone, Copy, Debug, PartialEq, Eq)]
pub enum Truth {
    True,
    False,
    /// It says neither: an attribute isn't known or may not be read, or a value can't be compared.
    Undefined,
}

impl Truth {
    /// False where one is false, else undefined where one is, else true.
    pub fn and(self, other: Truth) -> Truth
        ensures { result ≡ both self other }
    {
        match (self, other) {
            (Truth::False, _) | (_, Truth::False) => Truth::False,
            (Truth::True, Truth::True) => Truth::True,
            _ => Truth::Undefined,
        }
    }

    /// True where one is true, else undefined where one is, else false.
    pub fn or(self, other: Truth) -> Truth
        ensures { result ≡ either self other }
    {
        match (self, other) {
            (Truth::True, _) | (_, Truth::True) => Truth::True,
            (Truth::False, Truth::False) => Truth::False,
            _ => Truth::Undefined,
        }
    }

    /// True and false change places; what is undefined stays so.
    pub fn not(self) -> Truth
        ensures { result ≡ opposite self }
    {
        match self {
            Truth::True => Truth::False,
            Truth::False => Truth::True,
            Truth::Undefined => Truth::Undefined,
        }
    }
}
