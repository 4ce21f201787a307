//! The events of what was tried.

ghost use Rattle.std.specs.Prelude.{◌≡◌, ◌++◌, true, if◌then◌else◌, IfOk, OnOk};
ghost use Rattle.ad_dir_model.specs.Objects.{is_live};
ghost use Rattle.ad_dir_model.specs.Names.{name_text};
ghost use Rattle.ad_audit.specs.Line.{event_line};
ghost use Rattle.ad_types.specs.Tried.{tried_value, tried_values};
ghost use Rattle.cmd_audit.specs.Log.{is_audited, event_of, lines_of_one, lines_of};

use ad_audit::{Event, audited, line};
use ad_bytes::Bytes;
use ad_dir::Dir;
use ad_ids::Token;
use ad_types::{Tried, last_of};
use std::alloc::{AllocError, Global};

/// The frame in which something is tried.
#[derive(Clone, Copy)]
pub(crate) struct Stamp {
    /// Its number, from 1.
    pub frame: u32,
    pub connection: u16,
}

// Whether the object is there, and its descriptor as it is stored asks for the event.
fn is_audited(dir: &Dir, token: &Token, tried: &Tried) -> bool
    ensures audited { result ≡ is_audited dir.now token.now (tried_value tried.now) }
    ensures live { result ≡ true → is_live dir.now.objects tried.now.object ≡ true }
{
    match dir.sd(tried.object) {
        Some(view) => {
            let own = dir.self_sid(tried.object);
            audited(
                view,
                token,
                own,
                tried.path.guids(),
                tried.right,
                tried.success,
            )
            .is_some()
        }
        None => false,
    }
}

// The name of a live object, as text.
fn name_of(alloc: Global, dir: &Dir, number: u32) -> Result<Bytes, AllocError>
    requires { is_live dir.now.objects number ≡ true }
    ensures { IfOk result (λ name. name ≡ name_text dir.now number) }
{
    let dn = dir.dn(alloc, number)?;
    Ok(Bytes::from_vec(dn.text(alloc)?))
}

// The line of an event at a live object.
fn line_of(
    alloc: Global,
    dir: &Dir,
    token: &Token,
    stamp: Stamp,
    tried: &Tried,
) -> Result<Vec<u8>, AllocError>
    requires { is_live dir.now.objects tried.now.object ≡ true }
    ensures { IfOk result (λ text. text.items
        ≡ event_line (event_of dir.now token.now stamp (tried_value tried.now))) }
{
    let dn = name_of(alloc, dir, tried.object)?;
    let event = Event {
        frame: stamp.frame,
        connection: stamp.connection,
        success: tried.success,
        right: tried.right,
        guid: last_of(tried.path.guids()),
        user: token.user,
        dn,
    };
    line(alloc, &event)
}

// Puts the line of what was tried, where it is audited.
fn put_line(
    alloc: Global,
    dir: &Dir,
    token: &Token,
    stamp: Stamp,
    tried: &Tried,
    into: &mut Vec<u8>,
) -> Result<(), AllocError>
    ensures { OnOk result (into.new.items ≡ into.old.items ++ lines_of_one dir.now token.now stamp
        (tried_value tried.now)) }
{
    if !is_audited(dir, token, tried) {
        return Ok(());
    }
    let text = line_of(alloc, dir, token, stamp, tried)?;
    into.extend_from_slice(&text)?;
    Ok(())
}

/// The lines of all that a frame tried, in order, by the directory from before it and the token of its connection.
#[tactic(auto, unfolding(crate::specs::Log::lines_of))]
pub(crate) fn lines_of(
    alloc: Global,
    dir: &Dir,
    token: &Token,
    stamp: Stamp,
    tried: &[Tried],
) -> Result<Vec<u8>, AllocError>
    ensures { IfOk result (λ text. text.items ≡ lines_of dir.now token.now stamp
        (tried_values tried.now)) }
{
    let mut text = Vec::new(alloc);
    for one in tried {
        put_line(alloc, dir, token, stamp, one, &mut text)?;
    }
    Ok(text)
}
