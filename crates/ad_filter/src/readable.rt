//! What may be read of an object.

ghost use Rattle.std.specs.Prelude.{◌≡◌, IfOk, option_map};
ghost use Rattle.ad_filter.specs.Filtering.{attr_known};
ghost use Rattle.ad_filter.specs.Given.{readable_seen};

use ad_schema::AttrId;
use ad_schema_classes::same_name;
use ad_value::{Syntax, Value};
use std::alloc::{AllocError, Global};

/// What may be read of an object.
pub trait Readable {
    ghost use Rattle.std.specs.Prelude.{ℕ, List, Option};
    ghost use Rattle.ad_schema.specs.declared.info.AttrId.{AttrId};
    ghost use Rattle.ad_filter.specs.Filtering.{Readable};

    /// The attributes of names.
    ghost named: { Self → List ℕ → Option AttrId };

    /// For each attribute its syntax and what the object shows of it.
    ghost shown: { Self → AttrId → Option Readable };

    /// The attribute of a name. None for one that isn't known.
    fn attr(&self, name: &[u8]) -> Option<AttrId>
        ensures { result ≡ named self.now name.now };

    /// The attribute's syntax and what the object shows of it. None for one that may not be read.
    ///
    /// # Errors
    ///
    /// Out of memory.
    fn values(
        &self,
        alloc: Global,
        attr: AttrId,
    ) -> Result<Option<(Syntax, Vec<Value>)>, AllocError>
        ensures { IfOk result (λ found. option_map readable_seen found ≡ shown self.now attr) };
}

/// The attribute of a name, which isn't the descriptor: that is no attribute of a filter.
#[tactic(auto, unfolding(crate::specs::Filtering::attr_known))]
pub(crate) fn attr_known<V: Readable>(view: &V, name: &[u8]) -> Option<AttrId>
    ensures { result ≡ attr_known (V.named view.now) name.now }
{
    if same_name(name, b"nTSecurityDescriptor") {
        return None;
    }
    view.attr(name)
}
