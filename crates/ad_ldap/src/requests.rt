//! A client's message as a value, and the operations that it may ask for.

use crate::control_list::Controls;
use crate::filter::Filter;
use crate::items::Item;
use ad_bytes::{Bytes, List};

/// A message of a client (RFC 4511 4.1.1).
#[derive(Drop)]
pub struct Message {
    /// From 1 to 2^31 - 1.
    pub id: u32,
    pub op: Op,
    pub controls: Controls,
}

/// What a client asks. Of a bind, an unbind, an abandon and an extended request nothing is kept.
#[derive(Drop)]
pub enum Op {
    Bind,
    Unbind,
    Search(Search),
    Modify(Modify),
    Add(Add),
    /// The name.
    Delete(Bytes),
    Rename(Rename),
    Compare(Compare),
    Abandon,
    Extended,
}

/// A search request (RFC 4511 4.5.1). How aliases are treated and the time limit are read and have no effect.
#[derive(Drop)]
pub struct Search {
    pub base: Bytes,
    /// 0 the base alone, 1 the objects right below it, 2 the base and all below it.
    pub scope: u8,
    /// The size limit, 0 for none.
    pub size: u32,
    /// Whether the values are left out.
    pub types_only: bool,
    pub filter: Filter,
    /// The attributes that are asked for.
    pub attrs: List<Bytes>,
}

/// A modify request (RFC 4511 4.6).
#[derive(Drop)]
pub struct Modify {
    pub dn: Bytes,
    pub items: List<Item>,
}

/// An add request (RFC 4511 4.7). Each attribute has a value.
#[derive(Drop)]
pub struct Add {
    pub dn: Bytes,
    pub attrs: List<(Bytes, List<Bytes>)>,
}

/// A modify DN request (RFC 4511 4.9).
#[derive(Debug, Drop)]
pub struct Rename {
    pub dn: Bytes,
    pub rdn: Bytes,
    /// Whether the old naming value is kept.
    pub keep: bool,
    /// The new parent, where there is one.
    pub superior: Option<Bytes>,
}

/// A compare request (RFC 4511 4.10).
#[derive(Debug, Drop)]
pub struct Compare {
    pub dn: Bytes,
    pub attr: Bytes,
    pub value: Bytes,
}
