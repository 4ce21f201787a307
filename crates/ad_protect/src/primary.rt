//! The objects of each primary group, in one table.

ghost use Rattle.std.specs.Prelude.{◌≡◌, ◌==◌, ℕ, true, None, cond, nat_eq, [], ◌∷◌, ◌++◌};
ghost use Rattle.std.specs.Prelude.{if◌then◌else◌, IfOk, OnOk};
ghost use Rattle.std.specs.List.{AllByRecursion};
ghost use Rattle.std.specs.Option.{option_copied, option_and_then};
ghost use Rattle.indexmap.specs.IndexMap.{get};
ghost use Rattle.ad_dir_model.specs.Objects.{is_live};
ghost use Rattle.ad_dir_model.specs.Protection.{number_in};
ghost use Rattle.ad_protect.specs.Spreading.{primary_at, listed, IsTableOf, Notes};

use ad_dir::{Dir, first_of, live_object};
use ad_schema::RuleAttr;
use ad_value::Value;
use indexmap::IndexMap;
use std::alloc::{AllocError, Global};

/// The numbers of objects by their primaryGroupID.
pub(crate) type Table = IndexMap<u64, Vec<u32>>;

// The number that a value is, where it isn't negative.
fn number_in(value: Option<&Value>) -> Option<u64>
    ensures { result ≡ option_and_then (λ value. number_in value.key) (option_copied value.entry) }
{
    match value {
        Some(value) => match value.number() {
            Some(number) => u64::try_from(number).ok(),
            None => None,
        },
        None => None,
    }
}

// The primaryGroupID of a live object, where it isn't negative.
#[tactic(auto, unfolding(crate::specs::Spreading::primary_at, ad_dir_model::specs::Identity::first_of_attr, ad_dir_model::specs::Attributes::rule_place))]
fn primary_of(dir: &Dir, number: u32) -> Option<u64>
    requires { is_live dir.now.objects number ≡ true }
    ensures { result ≡ primary_at dir.now number }
{
    match dir.schema().attr_of_rule(RuleAttr::PrimaryGroupId) {
        Some(attr) => number_in(first_of(live_object(dir, number).values.as_slice(), attr)),
        None => None,
    }
}

// Takes the numbers out that the table has at a primaryGroupID.
fn take_out(alloc: Global, table: &mut Table, rid: u64) -> Vec<u32>
    ensures items { result.items ≡ listed table.old rid }
    ensures others { (other : ℕ) → get nat_eq table.new other
        ≡ cond (nat_eq rid other) None (get nat_eq table.old other) }
{
    match table.swap_remove(&rid) {
        Some(numbers) => numbers,
        None => Vec::new(alloc),
    }
}

// Puts a number at the end of those of its primaryGroupID.
fn note(alloc: Global, table: &mut Table, rid: u64, number: u32) -> Result<(), AllocError>
    ensures { OnOk result ((other : ℕ) → listed table.new other
        ≡ (if rid == other then listed table.old rid ++ number ∷ [] else listed table.old other)) }
{
    let mut numbers = take_out(alloc, table, rid);
    numbers.push(number)?;
    table.insert(rid, numbers)?;
    Ok(())
}

fn note_if(
    alloc: Global,
    table: &mut Table,
    rid: Option<u64>,
    number: u32,
) -> Result<(), AllocError>
    ensures { OnOk result (Notes rid number (listed table.old) (listed table.new)) }
{
    match rid {
        Some(rid) => note(alloc, table, rid, number),
        None => Ok(()),
    }
}

/// The table of these live objects.
pub(crate) fn table_of(alloc: Global, dir: &Dir, numbers: &[u32]) -> Result<Table, AllocError>
    requires { AllByRecursion (λ number. is_live dir.now.objects number ≡ true) numbers.now }
    ensures { IfOk result (λ table. IsTableOf dir.now numbers.now (listed table)) }
{
    let mut table = IndexMap::new(alloc);
    for number in numbers {
        note_if(alloc, &mut table, primary_of(dir, *number), *number)?;
    }
    Ok(table)
}

/// The numbers that the table has at a primaryGroupID.
pub(crate) fn numbers_at(table: &Table, rid: u64) -> &[u32]
    ensures { result.now ≡ listed table.entry.now rid }
{
    match table.get(&rid) {
        Some(numbers) => numbers.as_slice(),
        None => &[],
    }
}
