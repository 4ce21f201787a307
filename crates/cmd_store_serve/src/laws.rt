//! Laws of the sample, as contracts of functions that do nothing.

ghost use Rattle.std.specs.Prelude.{◌≡◌, ℕ};
ghost use Rattle.ad_frames.specs.Frames.{Whole, frames_of};
ghost use Rattle.ad_gen.specs.Frames.{frames};
ghost use Rattle.cmd_store_serve.specs.SampleFrames.{sample_frames};

/// The bytes of the sample's frames encode these frames, whatever its size, and nothing is left after them.
pub fn the_frames_of_the_sample()
    ensures { (n : ℕ) → frames_of (frames n) ≡ record { frames = sample_frames; end = Whole } }
{}
