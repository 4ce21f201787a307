//! Inheritance: its calls succeed where there is memory.

use ad_acl::{Ace, AceKind, Aces, CONTAINER_INHERIT};
use ad_ids::{Guid, Sid};
use ad_inherit::whole;
use ad_sd::{AceList, NormalSd, Sd};
use std::alloc::{AllocError, Global};
use std::test::*;

fn list(alloc: Global) -> Result<AceList, AllocError> {
    let mut entries = Aces::new(alloc);
    entries.push(Ace {
        kind: AceKind::Allow,
        flags: CONTAINER_INHERIT,
        mask: 0x10,
        object: None,
        inherited: None,
        sid: Sid::well_known(5, 11),
    })?;
    Ok(AceList {
        protected: false,
        entries,
    })
}

// S-1-5-18's descriptor, whose one entry children inherit.
fn kept(alloc: Global) -> Result<NormalSd, AllocError> {
    let owner = Sid::well_known(5, 18);
    let sd = Sd {
        owner,
        group: owner,
        dacl: list(alloc)?,
        sacl: AceList {
            protected: false,
            entries: Aces::new(alloc),
        },
    };
    NormalSd::of(alloc, &sd)
}

#[test]
fn a_child_inherits(rt: HostRuntime) {
    let parent = kept(rt.alloc()).expect(&rt, "memory");
    let class = Guid { bytes: [7; 16] };
    let child = whole(rt.alloc(), parent.view(), parent.view(), class).expect(&rt, "memory");
    assert!(rt; child.dacl.entries.len() == 2);
}
