//! For whom the own identifier of an object can count.

ghost use Rattle.std.specs.Prelude.{◌≡◌, ◌==◌, ℕ, List, Bool, true, false, Some, slice_get};
ghost use Rattle.std.specs.List.{list_any};
ghost use Rattle.ad_ids.specs.declared.guid.Guid.{Guid as GuidValue};
ghost use Rattle.ad_ids.specs.declared.token.Token.{Token as TokenValue};
ghost use Rattle.ad_dir_model.specs.Directory.{Directory};
ghost use Rattle.ad_dir_model.specs.Objects.{is_live};
ghost use Rattle.ad_access_dir.specs.Sight.{is_granted};
ghost use Rattle.ad_rights.specs.Holding.{listed, has, IsHoldingOf};
ghost use Rattle.ad_rights.specs.Set.{AreBare};
ghost use Rattle.ad_rights.specs.declared.holding.Holding.{Holding as HoldingValue};
ghost use Rattle.ad_rights_judged.specs.Judged.{own_places, is_granted_apart};

use crate::tokens::Tokens;
use ad_dir::{Dir, live_sd};
use ad_rights::names_self;

/// The places of the tokens that hold the identifier of a live object, where an entry is for the object itself. It
/// takes no memory.
#[tactic(auto, unfolding(crate::specs::Judged::own_places))]
pub fn own_places<'a>(dir: &Dir, tokens: &'a Tokens, number: u32) -> &'a [usize]
    requires { is_live dir.now.objects number ≡ true }
    ensures { result.now ≡ own_places dir.now (listed tokens.now.holding.holders) number }
{
    if !names_self(&live_sd(dir, number)) {
        return &[];
    }
    match dir.self_sid(number) {
        Some(sid) => tokens.holding().holders_of(sid),
        None => &[],
    }
}

/// A token at none of these places is granted what it would be if the object had no identifier.
pub fn the_own_identifier_counts_at_its_places()
    ensures { (dir : Directory) (tokens : List TokenValue) (holding : HoldingValue) (number place bit : ℕ)
        (path : List GuidValue) (token : TokenValue)
        → IsHoldingOf tokens holding → AreBare tokens → slice_get tokens place ≡ Some token
        → has (own_places dir (listed holding.holders) number) place ≡ false
        → is_granted dir token number path bit ≡ is_granted_apart dir token number path bit }
{
    ad_rights::the_own_identifier_counts_for_who_holds_it();
    ad_rights::the_own_identifier_counts_where_an_entry_names_it();
}
