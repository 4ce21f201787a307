//! The laws, as contracts of functions that do nothing.

ghost use Rattle.std.specs.Prelude.{◌≡◌, ℕ, map};
ghost use Rattle.ad_ids.specs.declared.token.Token.{Token};
ghost use Rattle.ad_dir_model.specs.Objects.{removed};
ghost use Rattle.ad_dir_model.specs.Directory.{Directory};
ghost use Rattle.ad_entries.specs.Seen.{view};
ghost use Rattle.ad_search_laws.specs.Worlds.{HasSameFrame, IsHidden, StandsAlone, IsReadAlike, IsGrantedAlike};
ghost use Rattle.ad_search_laws.specs.Worlds.{without_values, without_sd};

/// An object that the token doesn't see, that has nothing below it and that no other object names, may be added,
/// changed in any way or taken away: the token sees the same. So nothing that it is answered tells whether the object
/// is there.
pub fn a_hidden_object_may_be_there_or_not()
    ensures { (dir other : Directory) (token : Token) (number : ℕ) → HasSameFrame dir other
        → removed number other.objects ≡ removed number dir.objects
        → IsHidden dir token number → IsHidden other token number → StandsAlone dir number
        → view other token ≡ view dir token }
{}

/// Values that the token may not read may be any, and all values of objects that it doesn't see: it sees the same.
/// What isn't read and yet has a part in it: identifiers (by which entries for the object itself count) and the list
/// object mode.
pub fn a_value_that_may_not_be_read_may_be_any()
    ensures { (dir other : Directory) (token : Token) → HasSameFrame dir other
        → map without_values other.objects ≡ map without_values dir.objects
        → ((number : ℕ) → IsReadAlike dir other token number)
        → view other token ≡ view dir token }
{}

/// Descriptors may represent others that grant the token the same, right by right and path by path, and of which it
/// reads the same: it sees the same.
pub fn a_descriptor_that_grants_the_same_may_stand_for_another()
    ensures { (dir other : Directory) (token : Token) → HasSameFrame dir other
        → map without_sd other.objects ≡ map without_sd dir.objects
        → ((number : ℕ) → IsGrantedAlike dir other token number)
        → view other token ≡ view dir token }
{}
