//! Changes that leave what tokens depend on.

ghost use Rattle.std.specs.Prelude.{◌≡◌, ℕ, true, List, Option};
ghost use Rattle.ad_ids.specs.declared.token.Token.{Token};
ghost use Rattle.ad_sd.specs.declared.parts.SdParts.{SdParts};
ghost use Rattle.ad_dir_objects.specs.declared.act.ActItem.{ActItem};
ghost use Rattle.ad_dir_objects.specs.declared.act.Act.TheVariants as act;
ghost use Rattle.ad_dir_model.specs.Directory.{Directory};
ghost use Rattle.ad_dir_model.specs.Objects.{Rise, is_live};
ghost use Rattle.ad_dir_model.specs.Protection.{protection_run};
ghost use Rattle.ad_dir_model.specs.Steps.{steps};
ghost use Rattle.ad_change.specs.Effects.{made};
ghost use Rattle.ad_principal_laws.specs.Agreeing.{AgreeOnTokens, NamesNone};

/// A rename of a live object, in place or below another parent.
pub fn a_rename_leaves_each_token()
    ensures { (dir : Directory) (token : Token) (target parent : ℕ) (name : List ℕ)
        → is_live dir.objects target ≡ true
        → AgreeOnTokens dir (made dir token (act.Rename target parent name)) }
{}

/// A Modify of a live object whose items name none of the five attributes, also one that writes the descriptor.
pub fn a_modify_of_other_attributes_leaves_each_token()
    ensures { (dir : Directory) (token : Token) (target : ℕ) (items : List ActItem)
        (sd : Option SdParts)
        → is_live dir.objects target ≡ true → NamesNone dir.schema items
        → AgreeOnTokens dir (made dir token (act.Modify target items sd)) }
{}

/// A protection run.
pub fn a_protection_run_leaves_each_token()
    ensures { (dir : Directory) → Rise dir.objects
        → AgreeOnTokens dir (protection_run dir).directory }
{}

/// Steps of inheritance.
pub fn steps_leave_each_token()
    ensures { (n : ℕ) (dir : Directory) → Rise dir.objects → AgreeOnTokens dir (steps n dir) }
{}
