//! The tokens of connections.

ghost use Rattle.std.specs.Prelude.{◌≡◌, ◌+◌, ◌-◌, ◌<◌, ◌++◌, length, replicate, slice_get, unwrap_or, None, []};
ghost use Rattle.std.specs.Prelude.{IfOk, OnOk};
ghost use Rattle.ad_engine_store.specs.Tokens.{anonymous_token, token_of, with_token, without_token};

use ad_ids::{Sid, Sids, Token};
use std::alloc::{AllocError, Global};
use std::marker::Model;

/// The token of each connection. Contracts see it as a list of tokens from connection 0 on, with none for a
/// connection without one.
pub struct Tokens {
    items: Vec<Option<Token>>,
    // That of a connection without one.
    anonymous: Token,
}

// Written out, so that where they are dropped a proof has a single step.
impl Drop for Tokens {
    fn drop(self) {
        let Tokens { items, anonymous } = self;
        drop((items, anonymous));
    }
}

impl Model for Tokens {
    ghost use Rattle.std.specs.Prelude.{◌≡◌, List, Option};
    ghost use Rattle.ad_ids.specs.declared.token.Token.{Token};
    ghost use Rattle.ad_engine_store.specs.Tokens.{anonymous_token};

    ghost Value = { List (Option Token) };

    ghost view = { λ tokens. tokens.items.items };

    ghost invariant = { λ tokens. tokens.anonymous ≡ anonymous_token };
}

// The token of a connection without one.
fn anonymous_token(alloc: Global) -> Result<Token, AllocError>
    ensures { IfOk result (λ token. token ≡ anonymous_token) }
{
    let anonymous = Sid::well_known(5, 7);
    let everyone = Sid::well_known(1, 0);
    let mut groups = Sids::new(alloc);
    groups.push(everyone)?;
    Ok(Token {
        version: 1,
        privileges: 0,
        user: anonymous,
        owner: anonymous,
        primary: everyone,
        groups,
        deny_only: Sids::new(alloc),
        restricting: Sids::new(alloc),
    })
}

// The token at a place, or else the other one.
fn token_or<'a>(items: &'a [Option<Token>], place: usize, other: &'a Token) -> &'a Token
    ensures { result.now ≡ unwrap_or (unwrap_or (slice_get items.now place) None) other.now }
{
    match items.get(place) {
        Some(Some(token)) => token,
        Some(None) => other,
        None => other,
    }
}

// Puts none at the end until there are so many.
fn pad(items: &mut Vec<Option<Token>>, len: usize) -> Result<(), AllocError>
    ensures { OnOk result (items.new.items ≡ items.old.items
        ++ replicate (len - length items.old.items) None) }
{
    let missing = len.saturating_sub(items.len());
    for done in 0..missing {
        items.push(None)?;
    }
    Ok(())
}

// Puts the token at a place.
fn put(items: &mut Vec<Option<Token>>, place: usize, token: Token) -> Result<(), AllocError>
    requires { place < 65536 }
    ensures { OnOk result (items.new.items ≡ with_token place token items.old.items) }
{
    pad(items, place + 1)?;
    items[place] = Some(token);
    Ok(())
}

// Leaves none at a place.
fn clear(items: &mut [Option<Token>], place: usize)
    ensures { items.new ≡ without_token place items.old }
{
    if place < items.len() {
        items[place] = None;
    }
}

impl Tokens {
    /// No connection has a token.
    ///
    /// # Errors
    ///
    /// Out of memory.
    pub fn new(alloc: Global) -> Result<Tokens, AllocError>
        ensures { IfOk result (λ tokens. tokens ≡ []) }
    {
        let anonymous = anonymous_token(alloc)?;
        Ok(Tokens {
            items: Vec::new(alloc),
            anonymous,
        })
    }

    /// The token of a connection. For a connection without one that has no privilege, S-1-5-7 as user and owner, and
    /// S-1-1-0 as primary and only group. It takes no memory.
    #[tactic(auto, unfolding(crate::specs::Tokens::token_of))]
    pub fn token(&self, connection: u16) -> &Token
        ensures { result.now ≡ token_of self.now connection }
    {
        token_or(
            self.items.as_slice(),
            usize::from(connection),
            &self.anonymous,
        )
    }

    /// Gives the connection a token, in the place of the one that it had.
    ///
    /// # Errors
    ///
    /// Out of memory.
    pub fn set(&mut self, connection: u16, token: Token) -> Result<(), AllocError>
        ensures { OnOk result (self.new ≡ with_token connection token self.old) }
    {
        put(&mut self.items, usize::from(connection), token)
    }

    /// Takes the connection's token away, where it has one. It takes no memory.
    pub fn clear(&mut self, connection: u16)
        ensures { self.new ≡ without_token connection self.old }
    {
        clear(self.items.as_mut_slice(), usize::from(connection));
    }
}
