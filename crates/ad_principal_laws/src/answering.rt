//! Frames that leave what tokens depend on.

ghost use Rattle.std.specs.Prelude.{List, Option};
ghost use Rattle.ad_ids.specs.declared.token.Token.{Token};
ghost use Rattle.ad_dir_model.specs.Directory.{Directory};
ghost use Rattle.ad_dir_model.specs.Objects.{Rise};
ghost use Rattle.ad_frames.specs.declared.frame.Frame.{Frame};
ghost use Rattle.ad_engine.specs.Answer.{answer};
ghost use Rattle.ad_principal_laws.specs.Agreeing.{AgreeOnTokens};
ghost use Rattle.ad_principal_laws.specs.Frames.{LeavesTokens};

/// No account gains a group but by an addition, a deletion, or a Modify that names objectSid, primaryGroupID, member,
/// groupType or sIDHistory: whatever else a frame asks for, and whoever asks, each token is as before.
pub fn other_frames_leave_each_token()
    ensures { (dir : Directory) (tokens : List (Option Token)) (frame : Frame)
        → Rise dir.objects → LeavesTokens dir frame.body
        → AgreeOnTokens dir (answer dir tokens frame).directory }
{}
