//! What follows of filters of filters, as contracts of functions that do nothing.

ghost use Rattle.std.specs.Prelude.{◌≡◌};
ghost use Rattle.ad_ldap.specs.FilterValue.{FilterList};
ghost use Rattle.ad_ldap.specs.FilterValue as filter;
ghost use Rattle.ad_filter.specs.ThreeValues.{opposite, SaysAll, SaysSome};
ghost use Rattle.ad_filter.specs.Filtering.{View, truth, truths, nots};

/// All of some filters: false exactly where one is false, true exactly where each is true.
pub fn what_all_of_filters_says()
    ensures { (view : View) (filters : FilterList) → SaysAll (truth view (filter.And filters))
        (truths view filters) }
{}

/// Some of some filters: true exactly where one is true, false exactly where each is false.
pub fn what_some_of_filters_says()
    ensures { (view : View) (filters : FilterList) → SaysSome (truth view (filter.Or filters))
        (truths view filters) }
{}

/// Not all of some filters is some of their opposites.
pub fn not_of_all_is_some_of_not()
    ensures { (view : View) (filters : FilterList)
        → truth view (filter.Not (filter.And filters)) ≡ truth view (filter.Or (nots filters)) }
{}
