//! Several machines that take one log of changes in one order.

ghost use Rattle.std.specs.Prelude.{◌≡◌, ◌++◌, ◌∷◌, ℕ, List, Option};
ghost use Rattle.ad_ids.specs.declared.token.Token.{Token};
ghost use Rattle.ad_dir_model.specs.Directory.{Directory};
ghost use Rattle.ad_engine_answer.specs.Messages.{message_decided};
ghost use Rattle.ad_engine_answer.specs.Output.{reply_output};
ghost use Rattle.ad_engine.specs.Runs.{no_tokens, out_from, after_from, after};
ghost use Rattle.ad_engine_store.specs.Tokens.{token_of};
ghost use Rattle.ad_engine_laws.specs.Log.{LogEntry, sent, all_applied, answer_to, output_for, Item, taken, held};
ghost use Rattle.ad_engine_laws.specs.Log.{frames_in, entries_in, tokens_after, AreSent};

/// Whatever frames of readers come between, on whatever connections, and by whatever tokens: after the frames that a
/// machine was sent it has the directory that the entries of the log make, in their order. An entry's token needn't be
/// sent where its connection has it already.
pub fn other_frames_do_not_count()
    ensures { (dir : Directory) (tokens : List (Option Token)) (items : List Item)
        → AreSent dir tokens items
        → after_from dir tokens (frames_in items) ≡ all_applied dir (entries_in items) }
{}

/// The log may be taken in parts: what a machine has after the first part is where it goes on, also one that was
/// started anew, on which no connection has a token yet.
pub fn a_log_is_taken_entry_by_entry()
    ensures entries { (dir : Directory) (first second : List LogEntry)
        → all_applied dir (first ++ second) ≡ all_applied (all_applied dir first) second }
    ensures frames { (dir : Directory) (first second : List Item)
        → AreSent dir no_tokens (first ++ second) → AreSent dir no_tokens first
        → AreSent (after dir (frames_in first)) no_tokens second
        → after dir (frames_in (first ++ second)) ≡ after (after dir (frames_in first))
        (frames_in second) }
{
    other_frames_do_not_count();
}

/// Each entry is answered, at its place, by what the entries before it fix, over the connection that it came on:
/// neither the frames of readers nor the tokens of connections have a part in it. Where its message is sent alone, the
/// answer is that to the message.
pub fn an_entry_is_answered_alike()
    ensures entry { (dir : Directory) (tokens : List (Option Token)) (before behind : List Item)
        (connection : ℕ) (entry : LogEntry)
        → AreSent dir tokens before
        → (rest : List ℕ) × (out_from dir tokens
        (frames_in (before ++ taken connection entry ∷ behind))
        ≡ out_from dir tokens (frames_in before)
        ++ (output_for connection (all_applied dir (entries_in before)) entry ++ rest)) }
    ensures message { (dir : Directory) (tokens : List (Option Token)) (before behind : List Item)
        (connection : ℕ) (token : Token) (bytes : List ℕ)
        → AreSent dir tokens before
        → token_of (tokens_after dir tokens (frames_in before)) connection ≡ token
        → (rest : List ℕ) × (out_from dir tokens
        (frames_in (before ++ held connection token bytes ∷ behind))
        ≡ out_from dir tokens (frames_in before)
        ++ (reply_output connection
        (answer_to (all_applied dir (entries_in before)) (sent token bytes)) ++ rest)) }
{}

/// Equal positions in the log mean equal directories and equal rights: two machines that began with one directory and
/// took the same entries have the same directory, whatever each was asked besides; each entry was answered alike; and
/// any message is decided alike by one token, now and after any further entries.
pub fn machines_that_took_the_same_entries_agree()
    ensures directory { (dir : Directory) (here there : List Item) → AreSent dir no_tokens here
        → AreSent dir no_tokens there
        → entries_in here ≡ entries_in there → after dir (frames_in here)
        ≡ after dir (frames_in there) }
    ensures answer { (dir : Directory) (here there : List Item) (entry : LogEntry)
        → AreSent dir no_tokens here → AreSent dir no_tokens there
        → entries_in here ≡ entries_in there
        → answer_to (after dir (frames_in here)) entry ≡ answer_to (after dir (frames_in there))
        entry }
    ensures rights { (dir : Directory) (here there : List Item) (token : Token) (bytes : List ℕ)
        → AreSent dir no_tokens here
        → AreSent dir no_tokens there → entries_in here ≡ entries_in there
        → message_decided (after dir (frames_in here)) token bytes
        ≡ message_decided (after dir (frames_in there)) token bytes }
{
    other_frames_do_not_count();
}
