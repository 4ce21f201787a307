//! The laws, as contracts of functions that do nothing.

ghost use Rattle.std.specs.Prelude.{◌≡◌, ◌≤◌, ◌∷◌, ◌++◌, ℕ, List, length, Ok};
ghost use Rattle.site_io.specs.Disk.{Images};
ghost use Rattle.ad_bytes.specs.Numbers.{be_bytes};
ghost use Rattle.ad_frames.specs.Frame.{SpellsFrame};
ghost use Rattle.ad_ids.specs.declared.token.Token.{Token as TokenValue};
ghost use Rattle.ad_ldap.specs.declared.requests.Message.{Message as MessageRead};
ghost use Rattle.ad_ldap.specs.MessageValue.{message_seen};
ghost use Rattle.ad_ldifmod_message.specs.Written.{message_bytes};
ghost use Rattle.ad_dir_model.specs.Directory.{Directory};
ghost use Rattle.ad_dir_model.specs.Soundness.{IsSound};
ghost use Rattle.ad_rows_write.specs.Rows.{IsStoreOf};
ghost use Rattle.ad_engine.specs.Runs.{after};
ghost use Rattle.ad_ldifmod.specs.Lines.{lines_of};
ghost use Rattle.ad_ldifmod.specs.Lists.{Lists, after_lines};
ghost use Rattle.ad_ldifmod.specs.Grants.{messages_of, IsOfFrame};
ghost use Rattle.ad_ldifmod_laws.specs.Given.{HasRanges, GaveLists, own_steps, after_steps};
ghost use Rattle.ad_ldifmod_laws.specs.Serving.{message_frame, frames_behind, Succeed};

/// Where the messages of a text's lines are served in order after a token for their connection, and each is answered
/// 0, each object has the explicit list that it has after the last line, also where several lines name it, with other
/// lines between; and an object that no line names is as it was.
pub fn messages_that_succeed_give_the_lists()
    // from any sound directory whose entries have their ranges
    ensures sound { (dir : Directory) (token : TokenValue) (text : List ℕ)
        (messages : List MessageRead) → IsSound dir → HasRanges dir
        → length text ≤ 1048576 → messages_of dir text ≡ Ok messages → Succeed dir token messages
        → GaveLists dir (lines_of text) (after dir (frames_behind token messages)) }
    // and so from any that a store represents
    ensures stored { (held : Images) (dir : Directory) (token : TokenValue) (text : List ℕ)
        (messages : List MessageRead) → IsStoreOf held dir
        → length text ≤ 1048576 → messages_of dir text ≡ Ok messages → Succeed dir token messages
        → GaveLists dir (lines_of text) (after dir (frames_behind token messages)) }
{}

/// The list that an object has after lines is made by those that name it, in order, from the list before them; the
/// others play no part.
pub fn an_object_has_what_its_own_lines_make()
    ensures { (dir : Directory) (lines : List (List ℕ)) (lists : Lists) (number : ℕ)
        → after_lines dir lines lists number ≡ after_steps (own_steps dir number lines)
        (lists number) }
{}

/// The frame of a message that lines give is encoded by its kind (2), connection 0 in two bytes, the length of the
/// message in four, the most significant first, and the message.
pub fn a_message_frame_is_its_message_behind_seven_bytes()
    ensures { (message : MessageRead) → IsOfFrame message → SpellsFrame (message_frame message)
        (2 ∷ 0 ∷ 0 ∷ be_bytes 4 (length (message_bytes (message_seen message)))
        ++ message_bytes (message_seen message)) }
{}
