//! Laws of the formats. Each is the contract of a function that does nothing.

ghost use Rattle.std.specs.Prelude.{◌≡◌, ◌++◌, ℕ, List};
ghost use Rattle.ad_sd.specs.Normal.{SpellsNormal};
ghost use Rattle.ad_sd.specs.declared.parts.Sd.{Sd as SdValue};

/// No normal bytes begin others: bytes that begin with those of a descriptor are that descriptor's, and end where
/// they do. So equal normal bytes are of equal descriptors.
pub fn no_normal_bytes_begin_others()
    ensures { (a b : SdValue) (x y r s : List ℕ) → SpellsNormal a x → SpellsNormal b y → x ++ r ≡ y
        ++ s → (a ≡ b) × (x ≡ y) }
{}
