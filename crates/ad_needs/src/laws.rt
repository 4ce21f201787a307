//! Laws of what operations need. Each is the contract of a function that does nothing.

ghost use Rattle.std.specs.Prelude.{◌≡◌, All, true};
ghost use Rattle.ad_ids.specs.declared.token.Token.{Token};
ghost use Rattle.ad_ldap.specs.declared.controls.Settings.{Settings};
ghost use Rattle.ad_ldap.specs.MessageValue.{OpValue};
ghost use Rattle.ad_dir.specs.Standing.{AreStanding};
ghost use Rattle.ad_dir_model.specs.Objects.{is_live};
ghost use Rattle.ad_dir_objects.specs.declared.act.Act.{Act};
ghost use Rattle.ad_dir_model.specs.Directory.{Directory};
ghost use Rattle.ad_needs_rules.specs.declared.need.Need.{Need};
ghost use Rattle.ad_needs_rules.specs.declared.outcome.Verdict.TheVariants.{Granted as IsGranted, Missing as IsMissing};
ghost use Rattle.ad_needs_rules.specs.Verdicts.{verdict_of};
ghost use Rattle.ad_needs.specs.Traces.{requirements, trace_of, TellsLast, GrantsAll};

/// What an operation needs and lacks is a right on live objects, in each directory whose objects stand as those of
/// one in memory do.
pub fn a_missing_need_names_live_objects()
    ensures { (dir : Directory) (token : Token) (op : OpValue) (s : Settings) (need : Need)
        → AreStanding dir.schema dir.objects
        → verdict_of dir token op s ≡ IsMissing need
        → All (λ want. is_live dir.objects want.object ≡ true) need.alternatives }
{}

/// Where a requirement is missing, all that was tried before was granted, and the last that was tried is the first
/// of the alternatives that are told. Where the operation is granted, each requirement was tried and was granted.
pub fn a_verdict_tells_the_last_that_is_tried()
    ensures missing { (dir : Directory) (token : Token) (op : OpValue) (s : Settings) (need : Need)
        → verdict_of dir token op s ≡ IsMissing need → TellsLast need (trace_of dir token op s) }
    ensures granted { (dir : Directory) (token : Token) (op : OpValue) (s : Settings) (act : Act)
        → verdict_of dir token op s ≡ IsGranted act → GrantsAll (requirements dir token op s)
        (trace_of dir token op s) }
{}
