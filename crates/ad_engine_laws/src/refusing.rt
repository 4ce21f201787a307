//! What is refused, and what only asks, changes nothing; and what changes something is granted.

ghost use Rattle.std.specs.Prelude.{◌≡◌, ◌≢◌, ◌⊎◌, ℕ, List, [], Option, Ok};
ghost use Rattle.ad_ids.specs.declared.token.Token.{Token};
ghost use Rattle.ad_dir_model.specs.Directory.{Directory};
ghost use Rattle.ad_ldap.specs.declared.controls.Settings.{Settings};
ghost use Rattle.ad_ldap.specs.MessageValue.{MessageValue};
ghost use Rattle.ad_ldap.specs.MessageReading.{message_of};
ghost use Rattle.ad_ldap.specs.Settings.{settings_of};
ghost use Rattle.ad_change.specs.Effects.{changes_to, effect};
ghost use Rattle.ad_frames.specs.declared.frame.Frame.{Frame};
ghost use Rattle.ad_frames.specs.declared.frame.FrameBody.TheVariants as body;
ghost use Rattle.ad_engine.specs.Answer.{answer};
ghost use Rattle.ad_engine_store.specs.Tokens.{token_of};
ghost use Rattle.ad_engine_laws.specs.Reads.{IsNoChange, IsQuestion, IsRead};
ghost use Rattle.ad_engine_laws.specs.Results.{LeavesAll, HasCode, Succeeds};
ghost use Rattle.ad_engine_laws.specs.Granted.{IsGranted};

/// A message leaves the directory as it was, or it is answered by success (0), and the tokens stay.
pub fn a_message_changes_only_where_it_succeeds()
    ensures { (dir : Directory) (tokens : List (Option Token)) (frame : Frame) (bytes : List ℕ)
        → frame.body ≡ body.Message bytes
        → ((answer dir tokens frame).directory ≡ dir)
        ⊎ (Succeeds frame.connection (answer dir tokens frame)
        × ((answer dir tokens frame).tokens ≡ tokens)) }
{}

/// A message that is answered by a code other than success (0) leaves the directory with its pending list, and the
/// tokens of all connections.
pub fn a_refused_message_changes_nothing()
    ensures { (dir : Directory) (tokens : List (Option Token)) (frame : Frame) (bytes : List ℕ)
        (code : ℕ)
        → frame.body ≡ body.Message bytes → HasCode frame.connection code (answer dir tokens frame)
        → code ≢ 0
        → LeavesAll dir tokens (answer dir tokens frame) }
{}

/// A token and whatever isn't a change leave the directory; a search, a compare, steps where nothing is pending, and
/// a change that makes the directory that is there already leave the tokens as well, and this last one is answered by
/// success.
pub fn what_changes_nothing()
    ensures reads { (dir : Directory) (tokens : List (Option Token)) (frame : Frame) → IsRead frame
        → (answer dir tokens frame).directory ≡ dir }
    ensures questions { (dir : Directory) (tokens : List (Option Token)) (frame : Frame)
        (bytes : List ℕ) (m : MessageValue)
        → frame.body ≡ body.Message bytes → message_of bytes ≡ Ok m → IsQuestion m.op
        → LeavesAll dir tokens (answer dir tokens frame) }
    ensures idle { (dir : Directory) (tokens : List (Option Token)) (frame : Frame) (n : ℕ)
        → frame.body ≡ body.Steps n
        → dir.pending ≡ [] → LeavesAll dir tokens (answer dir tokens frame) }
    ensures same { (dir : Directory) (tokens : List (Option Token)) (frame : Frame) (bytes : List ℕ)
        (m : MessageValue) (s : Settings)
        → frame.body ≡ body.Message bytes → message_of bytes ≡ Ok m → ¬ IsNoChange m.op
        → settings_of m ≡ Ok s
        → effect dir (token_of tokens frame.connection) m.op s ≡ changes_to dir
        → LeavesAll dir tokens (answer dir tokens frame) × Succeeds frame.connection
        (answer dir tokens frame) }
{}

/// A message that changes the directory is granted what it asks for: its connection's token has each right that the
/// operation requires, on the directory from before. So who isn't granted a right changes nothing by what requires it.
pub fn a_change_is_granted()
    ensures { (dir : Directory) (tokens : List (Option Token)) (frame : Frame) (bytes : List ℕ)
        → frame.body ≡ body.Message bytes
        → (answer dir tokens frame).directory ≢ dir
        → IsGranted dir (token_of tokens frame.connection) bytes }
{}
