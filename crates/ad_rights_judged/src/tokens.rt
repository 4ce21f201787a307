//! Tokens, with an index over them.

ghost use Rattle.std.specs.Prelude.{◌≡◌, ◌++◌, ◌∷◌, [], length, slice_get, OnOk};
ghost use Rattle.std.specs.Option.{option_copied};
ghost use Rattle.ad_rights.specs.Set.{IsBare};
ghost use Rattle.ad_rights_judged.specs.Judged.{AreIndexed};

use ad_ids::Token;
use ad_rights::Holding;
use std::alloc::{AllocError, Global};

/// Tokens by their places, and which of them hold each identifier.
#[derive(Drop)]
pub struct Tokens {
    all: Vec<Token>,
    holding: Holding,
}

impl Tokens {
    /// No token.
    pub fn new(alloc: Global) -> Tokens
        ensures indexed { AreIndexed result }
        ensures none { result.all.items ≡ [] }
    {
        Tokens {
            all: Vec::new(alloc),
            holding: Holding::new(alloc),
        }
    }

    /// Adds a token that only allows, at the end.
    ///
    /// # Errors
    ///
    /// Out of memory. What is left then is of no use.
    pub fn add(&mut self, alloc: Global, token: Token) -> Result<(), AllocError>
        requires bare { IsBare token }
        requires indexed { AreIndexed self.now }
        ensures indexed { OnOk result (AreIndexed self.new) }
        ensures all { OnOk result (self.new.all.items ≡ self.old.all.items ++ token ∷ []) }
    {
        self.holding.add(alloc, &token)?;
        self.all.push(token)?;
        Ok(())
    }

    /// The token at a place.
    pub fn get(&self, place: usize) -> Option<&Token>
        ensures { option_copied result ≡ slice_get self.now.all.items place }
    {
        self.all.get(place)
    }

    /// The number of tokens.
    pub fn count(&self) -> usize
        ensures { result ≡ length self.now.all.items }
    {
        self.all.len()
    }

    /// Which of them hold each identifier.
    pub fn holding(&self) -> &Holding
        ensures { result.now ≡ self.now.holding }
    {
        &self.holding
    }
}
