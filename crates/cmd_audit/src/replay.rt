//! A session that is run again on a directory in memory.

ghost use Rattle.std.specs.Prelude.{◌≡◌, OnOk};
ghost use Rattle.ad_engine_store.specs.Tokens.{token_of};
ghost use Rattle.cmd_audit.specs.State.{behind};
ghost use Rattle.cmd_audit.specs.Steps.{StandsOverNull};

use crate::null_site::NullSite;
use ad_dir::Dir;
use ad_engine::Engine;
use ad_frames::Frame;
use ad_ids::Token;
use std::alloc::AllocError;
use std::marker::Model;

/// An engine over slots that keep nothing. Contracts see the directory and the tokens.
pub(crate) struct Replay {
    engine: Engine,
    site: NullSite,
}

// Written out, so that where it is dropped a proof has a single step.
impl Drop for Replay {
    fn drop(self) {
        let Replay { engine, site } = self;
        drop((engine, site));
    }
}

impl Model for Replay {
    ghost use Rattle.cmd_audit.specs.State.{State};
    ghost use Rattle.cmd_audit.specs.Steps.{StandsOverNull};

    ghost Value = { State };

    ghost view = { λ replay. record
        { directory = replay.engine.dir; tokens = replay.engine.tokens } };

    ghost invariant = { λ replay. StandsOverNull replay.engine };
}

impl Replay {
    /// From the directory and the tokens of this engine on. What was kept stays as it is.
    pub fn new(engine: Engine) -> Replay
        requires { StandsOverNull engine }
        ensures { result ≡ record { directory = engine.dir; tokens = engine.tokens } }
    {
        Replay {
            engine,
            site: NullSite::new(),
        }
    }

    /// The directory.
    pub fn dir(&self) -> &Dir
        ensures { result.now ≡ self.now.directory }
    {
        self.engine.dir()
    }

    /// The token of a connection.
    pub fn token(&self, connection: u16) -> &Token
        ensures { result.now ≡ token_of self.now.tokens connection }
    {
        self.engine.token(connection)
    }

    /// Serves a frame. What it is answered is left.
    ///
    /// # Errors
    ///
    /// Out of memory. Then nothing is said of the directory and of the tokens.
    pub fn serve(&mut self, frame: &Frame) -> Result<(), AllocError>
        ensures { OnOk result (self.new ≡ behind self.old frame.now) }
    {
        match self.engine.serve_frame(&mut self.site, frame) {
            Ok(_) => Ok(()),
            Err(_) => Err(AllocError),
        }
    }
}
