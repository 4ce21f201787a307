//! A sound directory stays sound, whatever is asked of it.

ghost use Rattle.std.specs.Prelude.{◌≡◌, ℕ, List, Option, Some};
ghost use Rattle.ad_bytes.specs.Reading.{IsBytes};
ghost use Rattle.ad_ids.specs.SidValue.{SidValue};
ghost use Rattle.ad_ids.specs.Sid.{IsSid};
ghost use Rattle.ad_ids.specs.declared.token.Token.{Token};
ghost use Rattle.ad_dir_model.specs.Directory.{Directory};
ghost use Rattle.ad_dir_model.specs.Identity.{domain_sid};
ghost use Rattle.ad_dir_model.specs.Soundness.{IsSound};
ghost use Rattle.ad_dir_model.specs.Steps.{steps};
ghost use Rattle.ad_frames.specs.Frames.{frames_of};
ghost use Rattle.ad_frames.specs.declared.frame.Frame.{Frame};
ghost use Rattle.ad_engine.specs.Answer.{answer};
ghost use Rattle.ad_engine.specs.Runs.{after_from, after};
ghost use Rattle.ad_engine_laws.specs.Bytes.{HasBytes, HaveBytes};

use ad_change::{
    a_delete_keeps_a_directory_sound, a_modify_keeps_a_directory_sound,
    a_rename_keeps_a_directory_sound, an_add_keeps_a_directory_sound,
};
use ad_dir_model::a_protection_run_keeps_a_directory_sound;
use ad_frames::the_frames_are_the_longest;
use ad_ids::what_a_sid_s_text_spells;

/// The identifier of a sound directory's domain, where it has one, has the form of one: it was read of bytes.
pub fn the_domain_of_a_sound_directory_has_its_form()
    ensures { (dir : Directory) (sid : SidValue) → IsSound dir → domain_sid dir ≡ Some sid
        → IsSid sid }
{
    what_a_sid_s_text_spells();
}

/// Whatever a frame asks for, by whatever tokens, it leaves a sound directory sound. Nothing is asked of the frame
/// but that its message is bytes. So does any number of steps.
pub fn an_answer_keeps_a_directory_sound()
    ensures answer { (dir : Directory) (tokens : List (Option Token)) (frame : Frame) → IsSound dir
        → HasBytes frame
        → IsSound (answer dir tokens frame).directory }
    ensures steps { (dir : Directory) (n : ℕ) → IsSound dir → IsSound (steps n dir) }
{
    the_domain_of_a_sound_directory_has_its_form();
    a_delete_keeps_a_directory_sound();
    a_rename_keeps_a_directory_sound();
    a_modify_keeps_a_directory_sound();
    an_add_keeps_a_directory_sound();
    a_protection_run_keeps_a_directory_sound();
}

/// The same of any list of frames, one after the other.
pub fn frames_keep_a_directory_sound()
    ensures from { (dir : Directory) (tokens : List (Option Token)) (frames : List Frame)
        → IsSound dir → HaveBytes frames
        → IsSound (after_from dir tokens frames) }
    ensures after { (dir : Directory) (frames : List Frame) → IsSound dir → HaveBytes frames
        → IsSound (after dir frames) }
{
    an_answer_keeps_a_directory_sound();
}

/// What was asked of frames holds of all that were read of an input.
pub fn frames_that_are_read_are_of_bytes()
    ensures { (input : List ℕ) → IsBytes input → HaveBytes (frames_of input).frames }
{
    the_frames_are_the_longest();
}
