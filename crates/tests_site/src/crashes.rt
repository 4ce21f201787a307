//! That a run over a crash comes to its end at each moment, and what is emitted then.

use ad_gen::{frames, ldif};
use cmd_call::Outcome;
use cmd_store_laws::{Run, Unrun, served_across_a_crash};
use std::alloc::AllocGlobal;
use std::process::Abort;

// What `load` says of the smallest sample: a domain, two containers, a group, a unit and ten users.
const LOADED: &[u8] = b"objects 15\n";

// The smallest sample, whose frames come before the crash and once more after it.
fn of_sample(rt: &(impl Abort + AllocGlobal), calls: u32, kept: u32) -> Result<Run, Unrun> {
    let text = ldif(rt.alloc(), 1).expect(rt, "memory");
    let sent = frames(rt.alloc(), 1).expect(rt, "memory");
    served_across_a_crash(rt.alloc(), &text, &sent, calls, kept, &sent)
}

// All frames were answered, before the crash and after it.
fn is_whole(rt: &impl Abort, run: &Run) {
    assert!(rt; run.before == Outcome::Done);
    assert!(rt; run.behind == Outcome::Done);
    assert!(rt; run.crash.out.starts_with(LOADED));
}

// How many moments there are, each of which leaves a store that is opened and served.
fn moments(rt: &(impl Abort + AllocGlobal), kept: u32) -> u32 {
    for calls in 0..10_000 {
        match of_sample(rt, calls, kept) {
            Ok(run) => is_whole(rt, &run),
            Err(fault) => {
                assert!(rt; fault == Unrun::Moment);
                return calls;
            }
        }
    }
    10_000
}

// Two syncs and an answer to each of seven frames come at least.
#[test]
fn a_store_is_served_over_a_crash_at_each_moment(rt: HostRuntime) {
    let all = moments(&rt, 0);
    assert!(&rt; 9 < all && all < 10_000);
    assert!(&rt; moments(&rt, 1) == all);
    assert!(&rt; moments(&rt, 40) == all);
}

// What had been answered before a crash that came after all frames, and what is answered after one that came before
// any, is the same.
#[test]
fn frames_are_answered_alike_before_a_crash_and_after_it(rt: HostRuntime) {
    let all = moments(&rt, 0);
    assert!(&rt; 0 < all);
    let first = of_sample(&rt, 0, 0).expect(&rt, "a moment");
    let last = of_sample(&rt, all - 1, 0).expect(&rt, "a moment");
    assert!(&rt; first.crash.out.as_slice() == LOADED);
    assert!(&rt; last.crash.out.len() == LOADED.len() + first.site.output().len());
    assert!(&rt; last.crash.out.ends_with(first.site.output()));
}

#[test]
fn what_is_no_directory_is_not_served(rt: HostRuntime) {
    let fault = served_across_a_crash(rt.alloc(), b"cn: x\n", &[], 0, 0, &[]).err();
    assert!(&rt; fault == Some(Unrun::Load(Outcome::NotOfForm)));
}
