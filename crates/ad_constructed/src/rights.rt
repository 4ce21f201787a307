//! What is told of rights at an object, as a trait.

ghost use Rattle.std.specs.Prelude.{◌≡◌};
ghost use Rattle.ad_constructed.specs.Rights.{RightsValue, parts_of};

use ad_schema::{AttrId, ClassId};

/// What one may do at an object, by the ids of a schema.
pub trait Rights {
    /// For each attribute whether it may be written, for each class whether a child of it may be created, and which
    /// parts of the descriptor may be written.
    ghost view: { Self → RightsValue };

    /// Whether the values of the attribute may be replaced.
    fn may_write(&self, attr: AttrId) -> bool
        ensures { result ≡ (view self.now).may_write attr.0 };

    /// Whether an object of the class may be created below it.
    fn may_create(&self, class: ClassId) -> bool
        ensures { result ≡ (view self.now).may_create class.0 };

    /// The parts of the descriptor that may be written, as flags: 3 for the owner and the group, 4 for the DACL, 8
    /// for the SACL.
    fn sd_parts(&self) -> u8
        ensures { result ≡ parts_of (view self.now) };
}
