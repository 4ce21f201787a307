//! How the keys of one number change.

use crate::name_key::NameKey;
use ad_ids::Sid;

/// The key that is put, and the one that is taken out. Neither, where the key stays as it is.
#[derive(Drop)]
pub struct Change<K> {
    pub to: Option<K>,
    pub from: Option<K>,
}

/// The same of all the keys.
#[derive(Drop)]
pub struct Changes {
    pub names: Change<NameKey>,
    pub sids: Change<Sid>,
    pub parents: Change<u32>,
}
