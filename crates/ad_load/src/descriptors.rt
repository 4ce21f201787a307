//! The descriptor that an object has as its own.

ghost use Rattle.std.specs.Prelude.{◌≡◌, None, IfOk};
ghost use Rattle.std.specs.Prelude.{option_map};
ghost use Rattle.std.specs.Option.{option_copied};
ghost use Rattle.ad_sd.specs.Sd.{list_or_empty};
ghost use Rattle.ad_load.specs.Links.{own_sd};

use ad_acl::Aces;
use ad_ids::Sid;
use ad_schema::{ClassId, Schema};
use ad_schema_defaults::default_parts;
use ad_sd::{AceList, NormalSd, Sd};
use std::alloc::{AllocError, Global};
use std::rc::Rc;

fn list_or_empty(alloc: Global, list: Option<AceList>) -> AceList
    ensures { result ≡ list_or_empty list }
{
    match list {
        Some(list) => list,
        None => AceList {
            protected: false,
            entries: Aces::new(alloc),
        },
    }
}

// The descriptor of an object of the class to which none is given.
#[tactic(auto, unfolding(ad_inherit::specs::Creation::chosen))]
fn default_sd(
    alloc: Global,
    schema: &Schema,
    domain: Option<&Sid>,
    class: ClassId,
) -> Result<NormalSd, AllocError>
    ensures { IfOk result (λ sd. sd ≡ own_sd schema.now (option_copied domain.entry) class.0 None) }
{
    let parts = default_parts(alloc, schema, domain, class)?;
    let sd = Sd {
        owner: Sid::administrators(),
        group: Sid::administrators(),
        dacl: list_or_empty(alloc, parts.dacl),
        sacl: list_or_empty(alloc, parts.sacl),
    };
    NormalSd::of(alloc, &sd)
}

/// The descriptor that is given to an object; else one with the lists of its class's default, and the
/// administrators as owner and group.
pub(crate) fn own_sd(
    alloc: Global,
    schema: &Schema,
    domain: Option<&Sid>,
    class: ClassId,
    given: Option<Rc<NormalSd>>,
) -> Result<NormalSd, AllocError>
    ensures { IfOk result (λ sd. sd ≡ own_sd schema.now (option_copied domain.entry) class.0
        (option_map (λ sd. sd.value) given)) }
{
    match given {
        Some(sd) => sd.as_ref().copy(alloc),
        None => default_sd(alloc, schema, domain, class),
    }
}
