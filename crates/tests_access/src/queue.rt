//! The pending list: what each call makes of it, and that marks succeed.

use prop_queue::{Pending, Queue};
use std::alloc::AllocGlobal;
use std::process::Abort;
use std::test::*;

// The entries as a text.
fn told(rt: &(impl Abort + AllocGlobal), entries: &[Pending]) -> String {
    let mut out = String::new(rt.alloc());
    for entry in entries {
        let put = write!(out, "({},{})", entry.parent, entry.cursor);
        put.expect(rt, "memory");
    }
    out
}

fn are_told(rt: &(impl Abort + AllocGlobal), entries: &[Pending], wanted: &str) {
    assert!(rt; told(rt, entries).as_str() == wanted);
}

// The entries one by one.
fn listed(rt: &(impl Abort + AllocGlobal), queue: &Queue) -> Vec<Pending> {
    let mut entries = Vec::new(rt.alloc());
    for place in 0..queue.len() {
        let entry = queue.at(place).expect(rt, "an entry");
        entries.push(entry).expect(rt, "memory");
    }
    entries
}

fn is_listed(rt: &(impl Abort + AllocGlobal), queue: &Queue, wanted: &str) {
    let entries = listed(rt, queue);
    assert!(rt; queue.at(queue.len()).is_none());
    assert!(rt; queue.is_empty() == entries.is_empty());
    are_told(rt, &entries, wanted);
}

fn mark(rt: &impl Abort, queue: &mut Queue, number: u32) {
    queue.mark(number).expect(rt, "memory");
}

fn drop_head(rt: &impl Abort, queue: &mut Queue) {
    assert!(rt; queue.len() > 0);
    queue.drop_head();
}

fn advance(rt: &impl Abort, queue: &mut Queue, number: u32) {
    let head = queue.at(0).expect(rt, "a head");
    assert!(rt; head.cursor < number);
    queue.advance(number);
}

// m marks, a advances to a child, d drops the head, r removes.
fn call(rt: &impl Abort, queue: &mut Queue, what: u8, number: u32) {
    match what {
        b'm' => mark(rt, queue, number),
        b'a' => advance(rt, queue, number),
        b'd' => drop_head(rt, queue),
        _ => queue.remove(number),
    }
}

// Two parents' worth of propagation: 3 is written, two of its children change, and 3 is written again.
static CALLS: [(u8, u32, &'static str); 27] = [
    (b'm', 3, "(3,0)"),
    (b'm', 7, "(3,0)(7,0)"),
    (b'a', 7, "(3,7)(7,0)"),
    (b'm', 8, "(3,7)(7,0)(8,0)"),
    (b'a', 8, "(3,8)(7,0)(8,0)"),
    (b'm', 3, "(3,0)(7,0)(8,0)"),
    (b'm', 7, "(3,0)(7,0)(8,0)"),
    (b'a', 7, "(3,7)(7,0)(8,0)"),
    (b'm', 8, "(3,7)(7,0)(8,0)"),
    (b'a', 8, "(3,8)(7,0)(8,0)"),
    (b'm', 9, "(3,8)(7,0)(8,0)(9,0)"),
    (b'a', 9, "(3,9)(7,0)(8,0)(9,0)"),
    (b'm', 10, "(3,9)(7,0)(8,0)(9,0)(10,0)"),
    (b'a', 10, "(3,10)(7,0)(8,0)(9,0)(10,0)"),
    (b'd', 0, "(7,0)(8,0)(9,0)(10,0)"),
    (b'a', 12, "(7,12)(8,0)(9,0)(10,0)"),
    (b'm', 3, "(7,12)(8,0)(9,0)(10,0)(3,0)"),
    (b'r', 9, "(7,12)(8,0)(10,0)(3,0)"),
    (b'r', 9, "(7,12)(8,0)(10,0)(3,0)"),
    (b'm', 10, "(7,12)(8,0)(10,0)(3,0)"),
    (b'm', 7, "(7,0)(8,0)(10,0)(3,0)"),
    (b'm', 9, "(7,0)(8,0)(10,0)(3,0)(9,0)"),
    (b'r', 7, "(8,0)(10,0)(3,0)(9,0)"),
    (b'd', 0, "(10,0)(3,0)(9,0)"),
    (b'd', 0, "(3,0)(9,0)"),
    (b'd', 0, "(9,0)"),
    (b'd', 0, ""),
];

#[test]
fn calls_change_the_list(rt: HostRuntime) {
    let mut queue = Queue::new(rt.alloc());
    for (what, number, wanted) in &CALLS {
        call(&rt, &mut queue, *what, *number);
        is_listed(&rt, &queue, wanted);
    }
}

// The same list, whose entries were out of it, and are these.
fn kept(rt: &(impl Abort + AllocGlobal), queue: Queue, wanted: &str) -> Queue {
    let entries = queue.into_entries();
    are_told(rt, &entries, wanted);
    Queue::of(entries)
}

/// The list goes through `into_entries` and `of` as it is.
#[test]
fn entries_are_kept(rt: HostRuntime) {
    let mut queue = Queue::new(rt.alloc());
    for (what, number, wanted) in &CALLS {
        call(&rt, &mut queue, *what, *number);
        queue = kept(&rt, queue, wanted);
    }
}

// Half of 200 is taken out from the middle, then the head, and one of these comes again.
fn change(rt: &impl Abort, queue: &mut Queue) {
    for parent in 0..200 {
        mark(rt, queue, parent);
    }
    for parent in 50..150 {
        queue.remove(parent);
    }
    drop_head(rt, queue);
    mark(rt, queue, 60);
    mark(rt, queue, 199);
}

fn has(rt: &impl Abort, queue: &Queue, place: usize, parent: u32) {
    let entry = queue.at(place).expect(rt, "an entry");
    assert!(rt; entry.parent == parent);
}

/// Long enough for an index: half is taken out again from the middle, and the order stays.
#[test]
fn many_parents_are_found_again(rt: HostRuntime) {
    let mut queue = Queue::new(rt.alloc());
    change(&rt, &mut queue);
    assert!(rt; queue.len() == 100);
    has(&rt, &queue, 48, 49);
    has(&rt, &queue, 49, 150);
    has(&rt, &queue, 99, 60);
}
