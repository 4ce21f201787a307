//! The controls of a message as a list.

ghost use Rattle.std.specs.Prelude.{◌≡◌, ◌==◌, [], length, IfOk};
ghost use Rattle.ad_ldap.specs.Again.{IsFirstAgain};

use crate::again::first_again;
use crate::controls::Control;
use ad_bytes::List;
use std::alloc::{AllocError, Global};
use std::marker::Model;

/// The controls of a message in order, which a contract sees as a list.
#[derive(Debug, Drop)]
pub struct Controls {
    items: List<Control>,
    // The place of the first whose identifier is that of one before it.
    again: Option<usize>,
}

impl Model for Controls {
    ghost use Rattle.std.specs.Prelude.{List};
    ghost use Rattle.ad_ldap.specs.declared.controls.Control.{Control};
    ghost use Rattle.ad_ldap.specs.Again.{IsFirstAgain};

    ghost Value = { List Control };

    ghost view = { λ controls. controls.items };

    ghost invariant = { λ controls. IsFirstAgain controls.again controls.items };
}

impl Controls {
    /// No controls. It takes no memory.
    pub fn new(alloc: Global) -> Controls
        ensures { result ≡ [] }
    {
        Controls {
            items: List::new(alloc),
            again: None,
        }
    }

    /// These controls.
    ///
    /// # Errors
    ///
    /// Memory ran out.
    pub fn of(alloc: Global, items: List<Control>) -> Result<Controls, AllocError>
        ensures { IfOk result (λ controls. controls ≡ items) }
    {
        let again = first_again(alloc, items.as_slice())?;
        Ok(Controls { items, again })
    }

    /// The controls in order.
    pub fn as_slice(&self) -> &[Control]
        ensures { result.now ≡ self.now }
    {
        self.items.as_slice()
    }

    /// The number of controls.
    pub fn len(&self) -> usize
        ensures { result ≡ length self.now }
    {
        self.items.len()
    }

    /// Whether there is none.
    pub fn is_empty(&self) -> bool
        ensures { result ≡ (length self.now == 0) }
    {
        self.items.is_empty()
    }

    /// The place of the first control whose identifier is that of one before it.
    pub(crate) fn again(&self) -> Option<usize>
        ensures { IsFirstAgain result self.now }
    {
        self.again
    }
}
