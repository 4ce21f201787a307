//! Which objects a kind leads to.

ghost use Rattle.std.specs.Prelude.{◌≡◌, ◌&&◌, true, is_some};
ghost use Rattle.ad_dir_model.specs.Objects.{is_live};
ghost use Rattle.ad_dir_model.specs.Identity.{self_sid};
ghost use Rattle.ad_principals.specs.Groups.{is_security_enabled};
ghost use Rattle.ad_control_graph.specs.Kinds.{row};
ghost use Rattle.ad_control.specs.Edges.{may_have, is_of};

use ad_control_graph::{Kind, Of};
use ad_dir::{Dir, ROOT, class_of};
use ad_principals::is_security_enabled;

// Objects of its class may have the attribute of the name.
#[tactic(auto, unfolding(ad_control::specs::Edges::may_have))]
fn may_have(dir: &Dir, number: u32, name: &[u8]) -> bool
    requires { is_live dir.now.objects number ≡ true }
    ensures { result ≡ may_have dir.now number name.now }
{
    match dir.schema().attr(name) {
        Some(attr) => dir.schema().allowed(class_of(dir, number), attr),
        None => false,
    }
}

fn is_group(dir: &Dir, number: u32) -> bool
    ensures { result ≡ is_some (self_sid dir.now number) && is_security_enabled dir.now number }
{
    dir.self_sid(number).is_some() && is_security_enabled(dir, number)
}

/// Whether edges of a kind may lead to a live object, as its row says. It takes no memory.
#[tactic(auto, unfolding(ad_control::specs::Edges::is_of))]
pub fn is_of(dir: &Dir, kind: Kind, number: u32) -> bool
    requires { is_live dir.now.objects number ≡ true }
    ensures { result ≡ is_of dir.now (row kind).of number }
{
    match kind.of() {
        Of::Each => true,
        Of::TheRoot => number == ROOT,
        Of::Groups => is_group(dir, number),
        Of::Having(name) => may_have(dir, number, name),
    }
}
