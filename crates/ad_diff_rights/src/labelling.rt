//! Labels of the rights that a mask has.

ghost use Rattle.std.specs.Prelude.{◌≡◌, ◌++◌, ◌<◌, All, IfOk, OnOk};
ghost use Rattle.ad_acl.specs.Mask.{has_bit};
ghost use Rattle.ad_access_dir.specs.Labels.{label_of, right_title};
ghost use Rattle.ad_diff_rights.specs.Rights.{label_if, labels};
ghost use Rattle.ad_diff_rights.specs.Steps.{texts};

use ad_access_dir::is_title;
use ad_acl::Code;
use ad_schema::RightInfo;
use std::alloc::{AllocError, Global};

// Whether the mask has the bit.
#[tactic(auto, unfolding(ad_acl::specs::Mask::has_bit))]
fn has_bit(mask: u32, bit: u32) -> bool
    requires { bit < 32 }
    ensures { result ≡ has_bit mask bit }
{
    (mask >> bit) % 2 == 1
}

/// A kind and a name, with a blank after.
///
/// # Errors
///
/// Out of memory.
pub(crate) fn label_of(alloc: Global, kind: &[u8], name: &[u8]) -> Result<Vec<u8>, AllocError>
    ensures { IfOk result (λ label. label.items ≡ label_of kind.now name.now) }
{
    let mut label = kind.to_vec(alloc)?;
    label.extend_from_slice(name)?;
    label.extend_from_slice(b" ")?;
    Ok(label)
}

/// A kind and how a line names a right, with a blank after.
///
/// # Errors
///
/// Out of memory.
pub(crate) fn label_of_right(
    alloc: Global,
    kind: &[u8],
    right: &RightInfo,
) -> Result<Vec<u8>, AllocError>
    ensures { IfOk result (λ label. label.items ≡ label_of kind.now (right_title right.now)) }
{
    let name = right.name.as_slice();
    if is_title(name) {
        return label_of(alloc, kind, name);
    }
    label_of(alloc, kind, right.guid.text(alloc)?.as_bytes())
}

// What a right is of, and its code.
fn with_code(alloc: Global, kind: &[u8], code: &Code) -> Result<Vec<u8>, AllocError>
    ensures { IfOk result (λ label. label.items ≡ kind.now ++ code.now.letters) }
{
    let mut label = kind.to_vec(alloc)?;
    label.extend_from_slice(code.letters.as_slice())?;
    Ok(label)
}

fn push_label(
    alloc: Global,
    into: &mut Vec<Vec<u8>>,
    kind: &[u8],
    code: &Code,
    mask: u32,
) -> Result<(), AllocError>
    requires { code.now.place < 32 }
    ensures { OnOk result (texts into.new.items ≡ texts into.old.items
        ++ label_if (has_bit mask) kind.now code.now) }
{
    if has_bit(mask, code.place) {
        let label = with_code(alloc, kind, code)?;
        into.push(label)?;
    }
    Ok(())
}

/// The labels of the rights of a mask.
///
/// # Errors
///
/// Out of memory.
#[tactic(auto, unfolding(crate::specs::Rights::labels))]
pub(crate) fn push_labels(
    alloc: Global,
    into: &mut Vec<Vec<u8>>,
    kind: &[u8],
    codes: &[Code],
    mask: u32,
) -> Result<(), AllocError>
    requires { All (λ code. code.place < 32) codes.now }
    ensures { OnOk result (texts into.new.items ≡ texts into.old.items
        ++ labels (has_bit mask) kind.now codes.now) }
{
    for code in codes {
        push_label(alloc, into, kind, code, mask)?;
    }
    Ok(())
}
