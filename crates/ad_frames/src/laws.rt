//! Laws of frames, as contracts of functions that do nothing.
ghost use Rattle.std.specs.Prelude.{◌≡◌, ◌++◌, ◌∷◌, [], ℕ, List, suc, Ok, Err};
ghost use Rattle.ad_bytes.specs.Reading.{IsBytes};
ghost use Rattle.ad_frames.specs.declared.frame.Frame.{Frame};
ghost use Rattle.ad_frames.specs.declared.fault.FrameFault.{FrameFault};
ghost use Rattle.ad_frames.specs.Limits.{max_frames};
ghost use Rattle.ad_frames.specs.Frame.{SpellsFrame};
ghost use Rattle.ad_frames.specs.Reading.{frame_at, ReadsFront};
ghost use Rattle.ad_frames.specs.Frames.{Frames, frames_within, frames_of, AreFrames, with_first, bad};

/// No encoding of a frame begins another one, and each encodes one frame. So a prefix of one that is shorter
/// encodes none.
pub fn no_frame_begins_another()
    ensures { (f g : Frame) (x y r s : List ℕ) → SpellsFrame f x → SpellsFrame g y → x ++ r ≡ y ++ s
        → (f ≡ g) × (x ≡ y) × (r ≡ s) }
{}

/// A frame is taken, and then the rest. What begins with no frame, and isn't the end, is bad.
pub fn the_frames_one_by_one()
    ensures first { (n : ℕ) (bytes rest : List ℕ) (f : Frame) → frame_at bytes ≡ Ok (f, rest)
        → frames_within (suc n) bytes ≡ with_first f (frames_within n rest) }
    ensures none { (n : ℕ) (bytes : List ℕ) (e : FrameFault) → frame_at bytes ≡ Err e
        → (bytes ≡ [] → ⊥) → frames_within (suc n) bytes ≡ bad }
{}

/// The frames of an input are the longest list of at most 1,000,000 frames whose encodings, joined, are a prefix of
/// it, with its end; and no other list is.
pub fn the_frames_are_the_longest()
    ensures are { (bytes : List ℕ) → IsBytes bytes → AreFrames max_frames bytes (frames_of bytes) }
    ensures only { (bytes : List ℕ) (fs : Frames) → IsBytes bytes → AreFrames max_frames bytes fs
        → fs ≡ frames_of bytes }
{}

/// What was read of a frame is read so whatever follows.
pub fn a_frame_needs_nothing_behind_it()
    ensures { (bytes rest : List ℕ) (f : Frame) → frame_at bytes ≡ Ok (f, rest)
        → ReadsFront frame_at bytes f rest }
{}
