//! Laws of auditing, as contracts of functions that do nothing.

ghost use Rattle.std.specs.Prelude.{◌≡◌, ◌+◌, ◌++◌, ℕ, [], List, false, length};
ghost use Rattle.std.specs.List.{list_any};
ghost use Rattle.ad_dir_model.specs.Directory.{Directory};
ghost use Rattle.ad_dir_model.specs.Objects.{sd_at};
ghost use Rattle.ad_frames.specs.declared.frame.Frame.{Frame as FrameValue};
ghost use Rattle.ad_engine.specs.Runs.{after};
ghost use Rattle.ad_audit.specs.Audited.{is_audit};
ghost use Rattle.ad_engine.specs.Runs.{after_first};
ghost use Rattle.cmd_audit.specs.Log.{audit_text, audit_from};
ghost use Rattle.cmd_audit.specs.State.{tokens_after};

use ad_audit::a_list_that_asks_for_nothing_audits_nothing;

/// What frames leave in the log depends on those before them by the directory and the tokens that these make, and
/// by nothing else that they were answered.
pub fn each_frame_is_judged_before_it_is_served()
    ensures { (dir : Directory) (first others : List FrameValue)
        → audit_text dir (first ++ others) ≡ audit_text dir first
        ++ audit_from (1 + length first) (after dir first) (tokens_after dir first) others }
{}

/// As long as no stored SACL has an audit entry of its object itself, before each frame, nothing is ever audited.
pub fn what_asks_for_nothing_audits_nothing()
    ensures { (dir : Directory) (frames : List FrameValue)
        → ((n number : ℕ) → list_any is_audit
        (sd_at (after_first dir frames n).objects number).sacl.entries ≡ false)
        → audit_text dir frames ≡ [] }
{
    a_list_that_asks_for_nothing_audits_nothing();
}
