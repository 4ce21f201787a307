//! Names as keys: of a child below its parent, after case folding. A name that isn't folded is looked up as it is.

use crate::folding::is_folding;
use crate::hashes::{folding_hash, name_hash};
use indexmap::Equivalent;
use std::hash::{Hash, Hasher};

/// The name of a child below its parent.
#[derive(Debug, Drop)]
pub struct NameKey {
    /// The number of the parent, 0 for the root.
    pub parent: u32,
    /// The naming value after full case folding (The Unicode Standard 3.13), as UTF-8.
    pub folded: Vec<u8>,
}

impl PartialEq for NameKey {
    ghost use Rattle.std.specs.Cmp.{partial_equiv_from_equiv};
    ghost use Rattle.ad_dir_table.specs.NameKeys.{same_key, same_key_laws};

    ghost eq = { same_key };

    ghost laws = { partial_equiv_from_equiv same_key_laws };

    fn eq(&self, other: &NameKey) -> bool {
        self.parent == other.parent && self.folded.as_slice() == other.folded.as_slice()
    }
}

impl Eq for NameKey {
    ghost use Rattle.ad_dir_table.specs.NameKeys.{same_key_laws};

    ghost laws = { same_key_laws };
}

impl Hash for NameKey {
    ghost use Rattle.std.specs.Hash as fed;
    ghost use Rattle.ad_dir_table.specs.Hashes.{name_hash};
    ghost use Rattle.ad_dir_table.specs.NameKeys.{same_key_hash};

    ghost hash_input = { λ key. fed.u64 (name_hash key.parent key.folded.items) };

    ghost respects_eq = { same_key_hash };

    fn hash<H: Hasher>(&self, state: &mut H) {
        state.write_u64(name_hash(self.parent, self.folded.as_slice()));
    }
}

/// A child of a parent by a naming value that isn't folded.
#[derive(Clone, Copy, PartialEq, Eq)]
pub(crate) struct Asked<'a> {
    pub parent: u32,
    pub name: &'a str,
}

impl Hash for Asked<'_> {
    ghost use Rattle.std.specs.Hash as fed;
    ghost use Rattle.ad_dn.specs.Fold.{folded};
    ghost use Rattle.ad_dir_table.specs.Hashes.{name_hash};
    ghost use Rattle.ad_dir_table.specs.NameKeys.{same_asked_hash};

    ghost hash_input = { λ asked. fed.u64 (name_hash asked.parent (folded asked.name.now)) };

    ghost respects_eq = { same_asked_hash };

    fn hash<H: Hasher>(&self, state: &mut H) {
        state.write_u64(folding_hash(self.parent, self.name));
    }
}

impl Equivalent<NameKey> for Asked<'_> {
    ghost use Rattle.ad_dir_table.specs.NameKeys.{is_asked, asked_hash, asked_key};

    ghost equivalent = { is_asked };

    ghost respects_hash = { asked_hash };

    ghost respects_eq = { asked_key };

    fn equivalent(&self, key: &NameKey) -> bool {
        self.parent == key.parent && is_folding(self.name, key.folded.as_slice())
    }
}
