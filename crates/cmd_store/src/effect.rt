//! The command `effective`: what a token may do at an object.

ghost use Rattle.std.specs.Prelude.{◌≡◌, true, IfOk, IfErr, IsErrOf};
ghost use Rattle.site_io.specs.Counts.{HasRisen};
ghost use Rattle.ad_ids.specs.Token.{SpellsToken};
ghost use Rattle.ad_dn.specs.Value.{AreRdns};
ghost use Rattle.ad_dir_model.specs.Objects.{is_live};
ghost use Rattle.ad_dsacls.specs.Effective.{effective_text};
ghost use Rattle.cmd_call.specs.Store.{HasFailed, SaysUnless};
ghost use Rattle.cmd_call.specs.Outcome.{IsEarly};
ghost use Rattle.cmd_call.specs.declared.outcome.Outcome.TheVariants.{Done, SourceFailed, SiteFailed};
ghost use Rattle.cmd_store.specs.Answering.{of_token, AnswersAt, AnswersFor};
ghost use Rattle.cmd_store.specs.Effective.{EffectiveDoes, NoToken, IsTokenFor, IsNoTokenFor};
ghost use Rattle.cmd_store.specs.List.{number_named};

use crate::listing::{has_suffix, tell_none};
use ad_dir::Dir;
use ad_engine_store::DirStore;
use ad_ids::{Token, TokenFault};
use ad_needs_rules::number_of_name;
use cmd_call::{Outcome, say};
use cmd_store_open::refuse;
use site_io::{Site, Source, WholeFault, read_whole};
use std::alloc::{AllocError, Global};

/// A length, in bytes, that no token exceeds.
const MAX_TOKEN_BYTES: usize = 262_144;

// How the command ends at a fault of the input.
fn of_token(fault: TokenFault) -> Outcome
    ensures { result ≡ of_token fault }
{
    match fault {
        TokenFault::Memory => Outcome::NoMemory,
        _ => Outcome::NotOfForm,
    }
}

// The token that all of the bytes encode.
fn token_of(alloc: Global, bytes: &[u8]) -> Result<Token, Outcome>
    ensures token { IfOk result (λ token. SpellsToken token bytes.now) }
    ensures refused { IsErrOf result Outcome.NotOfForm → NoToken bytes.now }
    ensures not_source { IsErrOf result Outcome.SourceFailed → ⊥ }
    ensures only { IfErr result IsEarly }
{
    match Token::from_bytes(alloc, bytes) {
        Ok(token) => Ok(token),
        Err(fault) => Err(of_token(fault)),
    }
}

// The token that the whole input encodes.
fn token_of_input<I: Source>(alloc: Global, source: &mut I) -> Result<Token, Outcome>
    ensures token { IfOk result (λ token. IsTokenFor (I.rest source.old) (I.rest source.new)
        token) }
    ensures refused { IsErrOf result Outcome.NotOfForm → IsNoTokenFor (I.rest source.old)
        (I.rest source.new) }
    ensures source_failed { IsErrOf result Outcome.SourceFailed → HasRisen (I.faults source.old)
        (I.faults source.new) }
    ensures only { IfErr result IsEarly }
{
    let bytes = match read_whole(alloc, source, MAX_TOKEN_BYTES) {
        Ok(Some(bytes)) => bytes,
        Ok(None) => return Err(Outcome::NotOfForm),
        Err(WholeFault::Source) => return Err(Outcome::SourceFailed),
        Err(WholeFault::Memory) => return Err(Outcome::NoMemory),
    };
    token_of(alloc, &bytes)
}

// Emits what a token may do at an object.
fn tell<S: Site>(alloc: Global, site: &mut S, dir: &Dir, token: &Token, number: u32) -> Outcome
    requires { is_live dir.now.objects number ≡ true }
    ensures { SaysUnless S.Site site.old site.new (effective_text dir.now token.now number) Done
        result }
{
    match ad_dsacls::effective(alloc, dir, token, number) {
        Ok(text) => say(site, &text, Outcome::Done),
        Err(AllocError) => Outcome::NoMemory,
    }
}

// Emits what the token of the input may do at an object.
fn answer<I: Source, S: Site>(
    alloc: Global,
    source: &mut I,
    site: &mut S,
    dir: &Dir,
    number: u32,
) -> Outcome
    requires { is_live dir.now.objects number ≡ true }
    ensures { AnswersAt I.Source S.Site dir.now number source.old source.new site.old site.new
        result }
{
    match token_of_input(alloc, source) {
        Ok(token) => tell(alloc, site, dir, &token, number),
        Err(outcome) => outcome,
    }
}

// Emits what the token of the input may do at the object that has the name, or that none has it.
fn answer_in<I: Source, S: Site>(
    alloc: Global,
    source: &mut I,
    site: &mut S,
    dir: &Dir,
    name: &[u8],
) -> Outcome
    ensures said { AnswersFor I.Source S.Site dir.now (number_named dir.now name.now) source.old
        source.new site.old site.new result }
    ensures suffix { AreRdns dir.now.meta.suffix }
{
    has_suffix(dir);
    match number_of_name(alloc, dir, name) {
        Ok(Some(number)) => answer(alloc, source, site, dir, number),
        Ok(None) => tell_none(site),
        Err(AllocError) => Outcome::NoMemory,
    }
}

/// Opens the store, reads the whole input, a token, and emits what it may do at the object that has the name, line
/// by line. Where no object has it, or the text is no name's, a line says so, and nothing is read. Where the slots
/// represent no directory the line that says why is emitted. No slot is written.
pub fn effective<I: Source, S: Site>(
    alloc: Global,
    source: &mut I,
    site: &mut S,
    name: &str,
) -> Outcome
    ensures does { EffectiveDoes I.Source S.Site name.now source.old source.new site.old site.new
        result }
    ensures source_failed { result ≡ SourceFailed → HasRisen (I.faults source.old)
        (I.faults source.new) }
    ensures site_failed { result ≡ SiteFailed → HasFailed S.Site site.old site.new }
{
    match DirStore::resume(alloc, site) {
        Ok(engine) => answer_in(alloc, source, site, engine.dir(), name.as_bytes()),
        Err(fault) => refuse(alloc, site, fault),
    }
}
