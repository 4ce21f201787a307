//! What the controls of a message ask for, or the code of the first that can't be met.

ghost use Rattle.std.specs.Prelude.{◌≡◌, [], None, Some, MatchOption};
ghost use Rattle.ad_ldap.specs.MessageValue.{op_seen, message_seen};
ghost use Rattle.ad_ldap.specs.Settings.{has_sd_flags, has_tree_delete, role_of, alone, low_bits_of, flags_of};
ghost use Rattle.ad_ldap.specs.Settings.{has_control, fault_by, first_fault, flags_among, tree_among, settings_of};
ghost use Rattle.ad_ldap.specs.OwnFaults.{first_own};
ghost use Rattle.ad_ldap.specs.Again.{IsAgainAt};

use crate::choices::ALL_PARTS;
use crate::control_list::Controls;
use crate::controls::{Control, Role, Settings};
use crate::requests::{Message, Op};
use crate::result_code::{PROTOCOL_ERROR, UNAVAILABLE_CRITICAL_EXTENSION};
use crate::tags::{INTEGER, SEQUENCE};
use ad_ber::Tagged;
use ad_bytes::{Bytes, Input};

const SD_FLAGS: &[u8] = b"1.2.840.113556.1.4.801";

const TREE_DELETE: &[u8] = b"1.2.840.113556.1.4.805";

// Whether the control of descriptor flags applies.
fn has_flags(op: &Op) -> bool
    ensures { result ≡ has_sd_flags (op_seen op.now) }
{
    match op {
        Op::Search(_) | Op::Modify(_) | Op::Add(_) => true,
        _ => false,
    }
}

// Whether the control of a tree delete applies.
fn has_tree(op: &Op) -> bool
    ensures { result ≡ has_tree_delete (op_seen op.now) }
{
    match op {
        Op::Delete(_) => true,
        _ => false,
    }
}

fn role_in(op: &Op, oid: &Bytes) -> Role
    ensures { result ≡ role_of (op_seen op.now) oid.now }
{
    let oid = oid.as_slice();
    if oid == SD_FLAGS {
        return if has_flags(op) {
            Role::SdFlags
        } else {
            Role::Other
        };
    }
    if oid == TREE_DELETE {
        return if has_tree(op) {
            Role::TreeDelete
        } else {
            Role::Other
        };
    }
    Role::Other
}

// The body of the element with this tag, where the bytes are one.
fn body_alone(bytes: &[u8], tag: u8) -> Option<&[u8]>
    ensures { MatchOption result (alone tag bytes.now ≡ None)
        (λ body. alone tag bytes.now ≡ Some body.now) }
{
    let mut input = Input::new(bytes);
    match Tagged::read(&mut input) {
        Err(_) => None,
        Ok(Tagged { tag: found, body }) => {
            if found == tag && input.is_empty() {
                Some(body.rest())
            } else {
                None
            }
        }
    }
}

// The four low bits of the integer that the bytes are.
fn low_bits(digits: &[u8]) -> Option<u8>
    ensures { result ≡ low_bits_of digits.now }
{
    let len = digits.len();
    if len == 0 || len > 8 {
        return None;
    }
    Some(digits[len - 1] % 16)
}

// The flags of a control's value, where it is a sequence of one integer.
fn flags(value: &Option<Bytes>) -> Option<u8>
    ensures { result ≡ flags_of value.now }
{
    let Some(value) = value else {
        return None;
    };
    let Some(body) = body_alone(value.as_slice(), SEQUENCE) else {
        return None;
    };
    let Some(digits) = body_alone(body, INTEGER) else {
        return None;
    };
    low_bits(digits)
}

/// Whether one of the controls has this identifier.
pub(crate) fn has(controls: &[Control], oid: &Bytes) -> bool
    ensures { result ≡ has_control controls.now oid.now }
{
    controls.iter().any(|control| control.oid == *oid)
}

// The fault of a control by what it is to the operation.
fn own_fault(op: &Op, control: &Control) -> Option<u8>
    ensures { result ≡ fault_by (role_of (op_seen op.now) control.now.oid) control.now }
{
    match role_in(op, &control.oid) {
        Role::SdFlags => {
            if flags(&control.value).is_none() {
                return Some(PROTOCOL_ERROR);
            }
            None
        }
        Role::TreeDelete => None,
        Role::Other => {
            if control.critical {
                return Some(UNAVAILABLE_CRITICAL_EXTENSION);
            }
            None
        }
    }
}

// The fault of the first control that is faulty by what it is to the operation.
fn first_own_fault(op: &Op, controls: &[Control]) -> Option<u8>
    ensures { result ≡ first_own (op_seen op.now) controls.now }
{
    'each: for control in controls {
        if let Some(code) = own_fault(op, control) {
            return Some(code);
        }
    }
    None
}

// The fault of the first faulty control, where the one at this place stands again: what stands before it decides
// first.
fn fault_up_to(op: &Op, controls: &[Control], place: usize) -> Option<u8>
    requires { IsAgainAt place controls.now }
    ensures { result ≡ first_fault (op_seen op.now) [] controls.now }
{
    match first_own_fault(op, &controls[..place]) {
        Some(code) => Some(code),
        None => Some(PROTOCOL_ERROR),
    }
}

// The fault of the first faulty control.
fn controls_fault(op: &Op, controls: &Controls) -> Option<u8>
    ensures { result ≡ first_fault (op_seen op.now) [] controls.now }
{
    let items = controls.as_slice();
    match controls.again() {
        None => first_own_fault(op, items),
        Some(place) => fault_up_to(op, items, place),
    }
}

// The flags that the controls ask for.
fn controls_flags(op: &Op, controls: &[Control]) -> u8
    ensures { result ≡ flags_among (op_seen op.now) controls.now }
{
    'each: for control in controls {
        if let Role::SdFlags = role_in(op, &control.oid) {
            return match flags(&control.value) {
                None | Some(0) => ALL_PARTS,
                Some(bits) => bits,
            };
        }
    }
    ALL_PARTS
}

// Whether the controls ask for a tree delete.
fn controls_tree(op: &Op, controls: &[Control]) -> bool
    ensures { result ≡ tree_among (op_seen op.now) controls.now }
{
    'each: for control in controls {
        if let Role::TreeDelete = role_in(op, &control.oid) {
            return true;
        }
    }
    false
}

/// What the controls of a message ask for (RFC 4511 4.1.11; [MS-ADTS] 3.1.1.3.4.1.11 and .15). It takes no memory.
///
/// 1.2.840.113556.1.4.801, the flags of a descriptor, applies to Search, Modify and Add. Its value is a sequence of
/// one integer, of which the four low bits count; none of them set, or no such control, means all four.
/// 1.2.840.113556.1.4.805, the tree delete, applies to Delete.
///
/// # Errors
///
/// The result code that the first faulty control gives: 2 for a control that stands a second time, and for flags
/// whose value isn't as said; 12 for a critical control that is unknown or doesn't apply. One that isn't critical
/// is ignored.
#[tactic(auto, unfolding(crate::specs::Settings::settings_of))]
pub fn settings(message: &Message) -> Result<Settings, u8>
    ensures { result ≡ settings_of (message_seen message.now) }
{
    let controls = message.controls.as_slice();
    match controls_fault(&message.op, &message.controls) {
        Some(code) => Err(code),
        None => {
            let sd_flags = controls_flags(&message.op, controls);
            let tree = controls_tree(&message.op, controls);
            Ok(Settings { sd_flags, tree })
        }
    }
}
