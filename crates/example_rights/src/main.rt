//! For each record of an LDIF text on standard input, what authenticated users may do by the list in its `sddl`
//! line.
//!
//! A program over the libraries as another repository would call them (`docs/embedding.md`).
//!
//! # Example
//!
//! ```text
//! // echo 'dn: CN=open' and a line 'sddl: D:(A;;GA;;;AU)' on its standard input
//! let mask = rights(alloc, &record, &token)?;
//! ```
//!
//! # Proved
//!
//! It meets the precondition of each call that it makes, and never fails otherwise than by an error. What it prints
//! is compared in the gate.
//!
//! # The caller owes
//!
//! Nothing: a text above 67,108,864 bytes is refused.
//!
//! # Cost
//!
//! Linear in the text, which is read whole.
#![tactic(auto)]

use ad_access::granted;
use ad_ids::{Sid, Sids, Token};
use ad_ldif::{LdifRecord, Reader};
use ad_sd::{AceList, NormalSd, Sd, SdParts};
use ad_types::Path;
use anyhow::Context;
use std::alloc::{AllocError, Global};
use std::io::Read;

/// The generic right to everything, which represents each right of an object.
const EVERYTHING: u32 = 0x1000_0000;

/// The longest text of LDIF, in bytes.
const LONGEST: usize = 67_108_864;

/// A user with no group but authenticated users, S-1-5-11.
fn user(alloc: Global) -> Result<Token, AllocError> {
    let user = Sid::well_known(5, 4);
    let groups = Sids::from_vec(vec![in alloc; Sid::well_known(5, 11)]?);
    Ok(Token {
        version: 1,
        privileges: 0,
        user,
        owner: user,
        primary: user,
        groups,
        deny_only: Sids::new(alloc),
        restricting: Sids::new(alloc),
    })
}

/// A list that the text left out is an empty one, and an owner or group that it left out the system.
fn whole(alloc: Global, parts: SdParts) -> Sd {
    let empty = || AceList {
        protected: false,
        entries: ad_acl::Aces::new(alloc),
    };
    Sd {
        owner: parts.owner.unwrap_or(Sid::well_known(5, 18)),
        group: parts.group.unwrap_or(Sid::well_known(5, 18)),
        dacl: parts.dacl.unwrap_or_else(empty),
        sacl: parts.sacl.unwrap_or_else(empty),
    }
}

/// The rights that the record's list grants to the token.
fn rights(alloc: Global, record: &LdifRecord, token: &Token) -> anyhow::Result<u32> {
    let line = record.lines.first().context("a record has a line `sddl`")?;
    let parts = ad_sddl::read(alloc, line.value(), None)?;
    let kept = NormalSd::of(alloc, &whole(alloc, parts))?;
    Ok(granted(kept.view(), token, None, &Path::empty(), EVERYTHING))
}

fn main(rt: HostRuntime) -> anyhow::Result<()> {
    let alloc = rt.alloc();
    let mut text = Vec::new(alloc);
    rt.stdin().read_to_end(&mut text)?;
    if text.len() > LONGEST {
        return Err(anyhow::Error::msg("the text is too long"));
    }
    let token = user(alloc)?;
    let mut records = Reader::over(&text);
    for _ in 0..text.len() {
        let Some(record) = records.next(alloc)? else {
            break;
        };
        let mask = rights(alloc, &record, &token)?;
        println!(rt;
            "{mask:08x} {}",
            String::from_utf8_lossy(alloc, record.dn.as_slice())?
        )?;
    }
    Ok(())
}
