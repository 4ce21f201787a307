//! Laws of messages, as contracts of functions that do nothing.
ghost use Rattle.std.specs.Prelude.{◌≡◌, List, ℕ};
ghost use Rattle.ad_ldap.specs.declared.filter.Filter as code;
ghost use Rattle.ad_ldap.specs.declared.filter.Filters.{Filters as FiltersValue};
ghost use Rattle.ad_ldap.specs.FilterValue.{filter_seen, filters_seen, filters_of};
ghost use Rattle.ad_ldap.specs.FilterValue as value;
ghost use Rattle.ad_ldap.specs.MessageValue.{MessageValue};
ghost use Rattle.ad_ldap.specs.Messages.{SpellsMessage};
ghost use Rattle.ad_ldap.specs.Ranges.{HasRanges};

/// What is true of each message that has an encoding, so of each that is read: its number is from 1 to 2^31 - 1, a
/// scope and an operation of a modify at most 2, a filter at most 64 deep, and each attribute of an add has a
/// value.
pub fn what_a_message_has()
    ensures { (m : MessageValue) (text : List ℕ) → SpellsMessage m text → HasRanges m }
{}

/// What a contract sees of an and and of an or: those of their filters.
pub fn what_is_seen_of_filters()
    ensures all { (filters : FiltersValue) → filter_seen (code.And filters)
        ≡ value.And (filters_of (filters_seen filters)) }
    ensures any { (filters : FiltersValue) → filter_seen (code.Or filters)
        ≡ value.Or (filters_of (filters_seen filters)) }
{}
