//! Chains that never end. What was walked once isn't walked again.

ghost use Rattle.std.specs.Prelude.{◌≡◌, ◌<◌, ◌≤◌, ◌^◌, ◌+◌, ℕ, List, Option, length, false, IfOk, IfNone, IfSome};
ghost use Rattle.ad_schema_classes.specs.Chains.{ends_within, first_endless};
ghost use Rattle.ad_schema_classes.specs.Heights.{IsHeight, AreHeights, height_at};
ghost use Rattle.ad_schema_classes.specs.Rows.{aboves};

use crate::chain::above_of;
use crate::links::ClassLinks;
use std::alloc::{AllocError, Global};

/// Heights of so many classes, none of which is known.
fn blank_heights(alloc: Global, len: usize) -> Result<Vec<u32>, AllocError>
    ensures len { IfOk result (λ heights. length heights.items ≡ len) }
    ensures blank { IfOk result (λ heights. (k : ℕ) → height_at heights.items k ≡ 0) }
{
    let mut heights = Vec::with_capacity(alloc, len)?;
    for _place in 0..len {
        heights.push(0)?;
    }
    Ok(heights)
}

/// The height of a class, or 0 where it isn't known.
#[tactic(auto, unfolding(crate::specs::Heights::height_at))]
fn height_at(heights: &[u32], class: u32) -> u32
    ensures { result ≡ height_at heights.now class }
{
    match heights.get(class as usize) {
        Some(height) => *height,
        None => 0,
    }
}

/// The number of classes of a chain, from a class so many steps up whose height is known, where there are no more
/// than `most`.
fn within(height: u32, steps: u32, most: usize) -> Option<u32>
    requires { most < 2 ^ 32 }
    ensures some { IfSome result (λ h. (h ≡ height + steps) × (h ≤ most)) }
    ensures none { IfNone result (most < height + steps) }
{
    if height as usize + steps as usize <= most {
        return Some(height + steps);
    }
    None
}

/// The height of a class: it goes up as far as nothing is known.
fn climb(links: &[ClassLinks], heights: &[u32], class: u32) -> Option<u32>
    requires few { length links.now < 2 ^ 32 }
    requires known { AreHeights (aboves links.now) heights.now }
    ensures some { IfSome result (λ h. IsHeight (aboves links.now) class h) }
    ensures low { IfSome result (λ h. (0 < h) × (h ≤ length links.now)) }
    ensures none { IfNone result (ends_within (aboves links.now) (length links.now) class ≡ false) }
{
    let mut at = class;
    let mut steps = 0;
    while steps < links.len() {
        let height = height_at(heights, at);
        if height > 0 {
            return within(height, steps as u32, links.len());
        }
        steps += 1;
        match above_of(links, at) {
            Some(above) => at = above,
            None => return Some(steps as u32),
        }
    }
    None
}

/// Notes the height of a class.
fn set_height(heights: &mut [u32], class: u32, height: u32)
    ensures { (above : List (Option ℕ)) → AreHeights above heights.old → IsHeight above class height
        → height ≤ length above → AreHeights above heights.new }
{
    if (class as usize) < heights.len() {
        heights[class as usize] = height;
    }
}

/// Notes the heights of a class and of those above it, as far as they aren't known.
fn note_heights(links: &[ClassLinks], heights: &mut [u32], class: u32, height: u32)
    requires known { AreHeights (aboves links.now) heights.old }
    requires height { IsHeight (aboves links.now) class height }
    requires low { height ≤ length links.now }
    ensures { AreHeights (aboves links.now) heights.new }
{
    let mut at = class;
    let mut left = height;
    while left > 0 {
        if height_at(heights, at) > 0 {
            return;
        }
        set_height(heights, at, left);
        left -= 1;
        match above_of(links, at) {
            Some(above) => at = above,
            None => return,
        }
    }
}

/// The first class whose chain never ends. Each class is walked over twice at most.
fn first_over(links: &[ClassLinks], heights: &mut [u32]) -> Option<u32>
    requires few { length links.now < 2 ^ 32 }
    requires known { AreHeights (aboves links.now) heights.old }
    ensures first { result ≡ first_endless (aboves links.now) }
    ensures within { IfSome result (λ class. class < length links.now) }
{
    for i in 0..links.len() {
        let class = i as u32;
        match climb(links, heights, class) {
            Some(height) => note_heights(links, heights, class, height),
            None => return Some(class),
        }
    }
    None
}

/// The first class whose chain never ends.
pub fn first_endless(alloc: Global, links: &[ClassLinks]) -> Result<Option<u32>, AllocError>
    requires { length links.now < 2 ^ 32 }
    ensures first { IfOk result (λ found. found ≡ first_endless (aboves links.now)) }
    ensures within { IfOk result (λ found. IfSome found (λ class. class < length links.now)) }
{
    let mut heights = blank_heights(alloc, links.len())?;
    Ok(first_over(links, &mut heights))
}
