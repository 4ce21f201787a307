//! A copy of a token.

ghost use Rattle.std.specs.Prelude.{◌≡◌, IfOk};

use crate::sids::Sids;
use crate::token::Token;
use std::alloc::{AllocError, Global};

// The same list in memory of its own.
fn sids_again(alloc: Global, sids: &Sids) -> Result<Sids, AllocError>
    ensures { IfOk result (λ copy. copy ≡ sids.now) }
{
    let items = Vec::from_slice(alloc, sids.as_slice())?;
    Ok(Sids::from_vec(items).indexed())
}

impl Token {
    /// An equal token in memory of its own.
    pub fn copy(&self, alloc: Global) -> Result<Token, AllocError>
        ensures { IfOk result (λ copy. copy ≡ self.now) }
    {
        Ok(Token {
            version: self.version,
            privileges: self.privileges,
            user: self.user,
            owner: self.owner,
            primary: self.primary,
            groups: sids_again(alloc, &self.groups)?,
            deny_only: sids_again(alloc, &self.deny_only)?,
            restricting: sids_again(alloc, &self.restricting)?,
        })
    }
}
