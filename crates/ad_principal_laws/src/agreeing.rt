//! Directories that agree in what tokens depend on.

ghost use Rattle.std.specs.Prelude.{ℕ, List};
ghost use Rattle.ad_ids.specs.SidValue.{SidValue};
ghost use Rattle.ad_ids.specs.declared.token.Token.{Token};
ghost use Rattle.ad_dir_model.specs.Directory.{Directory};
ghost use Rattle.ad_principals.specs.Tokens.{IsTokenOf, HasTooManyGroups};
ghost use Rattle.ad_principal_laws.specs.Agreeing.{AgreeOnTokens};

/// A principal's token in the one is its token in the other: nothing else than the five attributes counts.
pub fn directories_that_agree_give_the_same_tokens()
    ensures { (dir other : Directory) (number : ℕ) (extra : List SidValue) (token : Token)
        → AgreeOnTokens dir other → IsTokenOf dir number extra token
        → IsTokenOf other number extra token }
{}

/// Who has too many groups in the one has too many in the other.
pub fn directories_that_agree_refuse_the_same_tokens()
    ensures { (dir other : Directory) (number : ℕ) (extra : List SidValue)
        → AgreeOnTokens dir other → HasTooManyGroups dir number extra
        → HasTooManyGroups other number extra }
{}
