//! A machine that C holds by its pointer.

ghost use Rattle.std.specs.Prelude.{◌≡◌, None, Some};
ghost use Rattle.melissaledge_c.specs.MachineHeld.{Held};
ghost use Rattle.melissaledge_c.specs.MachineLoose.{boxed_in, value_in};

use crate::loose::Loose;
use std::alloc::Global;
use std::marker::Model;
use std::mem::replace;
use std::ptr::null_mut;
use stepcore::Machine;

/// What C holds of a machine: null, or the pointer of a box. `struct mle_machine` of C, which only
/// keeps it and passes it on.
#[repr(C)]
#[derive(Drop)]
pub struct MachineHandle {
    at: *mut u8,
    pub ghost held: { Held },
}

impl Model for MachineHandle {
    ghost use Rattle.melissaledge_c.specs.MachineHeld.{owned_at};

    ghost also_owns = { λ h. owned_at h.held h.at };
}

impl MachineHandle {
    /// A handle that holds nothing: C makes it by zeros.
    pub fn empty() -> MachineHandle
        ensures { result.held ≡ None }
    {
        MachineHandle { at: null_mut() }
    }

    fn of(loose: Loose<Machine, Global>) -> MachineHandle
        ensures { result.held ≡ Some loose.value }
    {
        let Loose { at, alloc: _ } = loose;
        MachineHandle { at: at as *mut u8 }
    }

    fn into_loose(self, alloc: Global) -> Option<Loose<Machine, Global>>
        ensures { self.held ≡ value_in result }
    {
        let MachineHandle { at } = self;
        if at.is_null() {
            None
        } else {
            Some(Loose {
                at: at as *mut Machine,
                alloc,
            })
        }
    }

    /// Takes out what the handle holds.
    pub(crate) fn take(&mut self, alloc: Global) -> Option<Box<Machine>>
        ensures value { boxed_in result ≡ self.old.held }
        ensures after { self.new.held ≡ None }
    {
        let loose = replace(self, MachineHandle::empty()).into_loose(alloc)?;
        Some(loose.into_box())
    }

    /// Holds a machine from now on.
    pub(crate) fn put(&mut self, value: Box<Machine>)
        requires { self.old.held ≡ None }
        ensures { self.new.held ≡ Some value.value }
    {
        *self = MachineHandle::of(Loose::of(value));
    }
}
