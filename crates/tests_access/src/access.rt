//! The access check: a tree is checked where there is memory.

use ad_access::check_tree;
use ad_acl::Aces;
use ad_ids::{Guid, Sid, Sids, Token};
use ad_sd::{AceList, NormalSd, Sd};
use ad_types::{Node, TypeTree};
use std::alloc::{AllocError, AllocGlobal, Global};
use std::process::Abort;
use std::test::*;

fn empty(alloc: Global) -> AceList {
    AceList {
        protected: false,
        entries: Aces::new(alloc),
    }
}

fn kept(alloc: Global) -> Result<NormalSd, AllocError> {
    let owner = Sid::well_known(5, 18);
    let sd = Sd {
        owner,
        group: owner,
        dacl: empty(alloc),
        sacl: empty(alloc),
    };
    NormalSd::of(alloc, &sd)
}

fn token(alloc: Global) -> Token {
    let user = Sid::well_known(5, 18);
    Token {
        version: 2,
        privileges: 0,
        user,
        owner: user,
        primary: user,
        groups: Sids::new(alloc),
        deny_only: Sids::new(alloc),
        restricting: Sids::new(alloc),
    }
}

fn tree(alloc: Global) -> Result<Option<TypeTree>, AllocError> {
    let mut nodes = Vec::new(alloc);
    nodes.push(Node {
        guid: Guid { bytes: [1; 16] },
        above: None,
    })?;
    nodes.push(Node {
        guid: Guid { bytes: [2; 16] },
        above: Some(0),
    })?;
    Ok(TypeTree::new(nodes))
}

fn is_read_at_each(
    rt: &(impl Abort + AllocGlobal),
    kept: &NormalSd,
    token: &Token,
    tree: &TypeTree,
) {
    let rights = check_tree(rt.alloc(), kept.view(), token, None, tree, 0x2_0010);
    let rights = rights.expect(rt, "memory");
    assert!(rt; rights.as_slice() == [0x2_0000, 0x2_0000].as_slice());
}

// The owner may read the descriptor, and nothing else.
#[test]
fn an_owner_reads_the_descriptor_at_each_node(rt: HostRuntime) {
    let kept = kept(rt.alloc()).expect(&rt, "memory");
    let token = token(rt.alloc());
    let tree = tree(rt.alloc()).expect(&rt, "memory");
    is_read_at_each(&rt, &kept, &token, &tree.expect(&rt, "a tree"));
}
