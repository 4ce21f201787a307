//! The blocks of the region that no live bytes take: holes, by rising block, no two of which touch.

ghost use Rattle.std.specs.Prelude.{◌≡◌, ℕ, ◌+◌, ◌-◌, ◌<◌, ◌≤◌, nat_le, ◌++◌, [], true, false, List, length, take};
ghost use Rattle.std.specs.Prelude.{drop};
ghost use Rattle.std.specs.Vec.{vec_capacity};
ghost use Rattle.sd_pool.specs.Holes.{EndBefore, suits, fit, taken, joined, joined_to, given, begins, ends};
ghost use Rattle.std.specs.List.{position_from};
ghost use Rattle.sd_pool.specs.Found.{FirstPasses, IsFirst, PlaceWithin};

/// The blocks from this one on, up to the end and without it.
#[derive(Clone, Copy, Debug)]
pub(crate) struct Hole {
    pub block: usize,
    pub end: usize,
}

/// The place of the first hole that is large enough for so many blocks or ends where the region ends.
pub(crate) fn first_fit(holes: &[Hole], blocks: usize, count: usize) -> Option<usize>
    ensures { FirstPasses (suits blocks count) result holes.now }
{
    position_of_fit(holes, blocks, count)
}

fn position_of_fit(holes: &[Hole], blocks: usize, count: usize) -> Option<usize>
    ensures { result ≡ position_from (suits blocks count) 0 holes.now }
{
    holes.iter().position(|hole| {
        count <= hole.end.saturating_sub(hole.block) || hole.end == blocks
    })
}

/// The block where the hole at the place begins, else the end of the region.
pub(crate) fn block_at(holes: &[Hole], place: Option<usize>, blocks: usize) -> usize
    requires { PlaceWithin place holes.now }
    ensures { (count : ℕ) → FirstPasses (suits blocks count) place holes.now → result
        ≡ fit blocks count holes.now }
{
    match place {
        Some(place) => holes[place].block,
        None => blocks,
    }
}

/// Takes so many blocks from the hole at the place, or all that it has, and where there is no place none.
pub(crate) fn take(holes: &mut Vec<Hole>, place: Option<usize>, count: usize)
    requires { PlaceWithin place holes.old.items }
    ensures taken { (blocks : ℕ) → FirstPasses (suits blocks count) place holes.old.items
        → holes.new.items ≡ taken blocks count holes.old.items }
    ensures capacity { vec_capacity holes.new ≡ vec_capacity holes.old }
    ensures len { length holes.new.items ≤ length holes.old.items }
{
    if let Some(place) = place {
        take_at(holes, place, count);
    }
}

// Takes so many blocks from the hole at the place, or all that it has.
fn take_at(holes: &mut Vec<Hole>, place: usize, count: usize)
    requires { place < length holes.old.items }
    ensures taken { (blocks : ℕ) → IsFirst (suits blocks count) place holes.old.items
        → holes.new.items ≡ taken blocks count holes.old.items }
    ensures capacity { vec_capacity holes.new ≡ vec_capacity holes.old }
    ensures len { length holes.new.items ≤ length holes.old.items }
{
    let hole = holes[place];
    if count < hole.end.saturating_sub(hole.block) {
        holes[place] = Hole {
            block: hole.block + count,
            end: hole.end,
        };
    } else {
        let _hole = holes.remove(place);
    }
}

/// Gives the blocks from this one up to the end back, and joins them with the holes that they touch. There is room
/// for one more hole.
pub(crate) fn give_back(holes: &mut Vec<Hole>, block: usize, end: usize)
    requires { length holes.old.items < vec_capacity holes.old }
    ensures given { holes.new.items ≡ given block end holes.old.items }
    ensures capacity { vec_capacity holes.new ≡ vec_capacity holes.old }
    ensures len { length holes.new.items ≤ length holes.old.items + 1 }
{
    let place = ended_before(holes, block);
    if ends_at(holes, place, block) {
        join_at(holes, place, end);
    } else {
        put_at(holes, place, block, end);
    }
}

// How many holes end before the block and don't touch it.
fn ended_before(holes: &[Hole], block: usize) -> usize
    ensures bound { result ≤ length holes.now }
    ensures before { EndBefore block result holes.now }
{
    match position_of_end(holes, block) {
        Some(place) => place,
        None => holes.len(),
    }
}

fn position_of_end(holes: &[Hole], block: usize) -> Option<usize>
    ensures { result ≡ position_from (λ hole. nat_le block hole.end) 0 holes.now }
{
    holes.iter().position(|hole| block <= hole.end)
}

// Whether the hole at the place begins at this block.
fn begins_at(holes: &[Hole], place: usize, block: usize) -> bool
    ensures { result ≡ begins block (drop place holes.now) }
{
    if holes.len() <= place {
        return false;
    }
    block == holes[place].block
}

// Whether the hole at the place ends at this block.
fn ends_at(holes: &[Hole], place: usize, block: usize) -> bool
    ensures { result ≡ ends block (drop place holes.now) }
{
    if holes.len() <= place {
        return false;
    }
    holes[place].end == block
}

// The hole at the place goes on up to this end, and takes in the next one where they touch.
fn join_at(holes: &mut Vec<Hole>, place: usize, end: usize)
    requires { place < length holes.old.items }
    ensures joined { holes.new.items ≡ take place holes.old.items
        ++ joined_to end (drop place holes.old.items) }
    ensures capacity { vec_capacity holes.new ≡ vec_capacity holes.old }
    ensures len { length holes.new.items ≤ length holes.old.items }
{
    if begins_at(holes, place + 1, end) {
        let next = holes.remove(place + 1);
        holes[place].end = next.end;
    } else {
        holes[place].end = end;
    }
}

// A hole before the one at the place, or that one made longer where they touch. There is room for one more.
fn put_at(holes: &mut Vec<Hole>, place: usize, block: usize, end: usize)
    requires within { place ≤ length holes.old.items }
    requires room { length holes.old.items < vec_capacity holes.old }
    ensures joined { holes.new.items ≡ take place holes.old.items
        ++ joined block end (drop place holes.old.items) }
    ensures capacity { vec_capacity holes.new ≡ vec_capacity holes.old }
    ensures len { length holes.new.items ≤ length holes.old.items + 1 }
{
    if begins_at(holes, place, end) {
        holes[place].block = block;
        return;
    }
    match holes.insert(place, Hole { block, end }) {
        Ok(()) => {}
        Err(_) => unreachable!(),
    }
}
