//! What stands above an engine asks of it: a connection's token.

ghost use Rattle.std.specs.Prelude.{◌≡◌};
ghost use Rattle.ad_engine_store.specs.Tokens.{token_of};

use crate::dir_store::DirStore;
use ad_ids::Token;

impl DirStore {
    /// The token of a connection. For a connection without one that has no privilege, S-1-5-7 as user and owner, and
    /// S-1-1-0 as primary and only group. It takes no memory. After a call that answered a fault nothing is said of
    /// it.
    pub fn token(&self, connection: u16) -> &Token
        ensures { result.now ≡ token_of self.now.tokens connection }
    {
        self.tokens.token(connection)
    }
}
