//! What C holds of a service.

ghost use Rattle.std.specs.Prelude.{◌≡◌, IsSome, MatchOption, Option, Some, None, is_some};
ghost use Rattle.bh_c.specs.declared.service.Service.{Service as ServiceValue};
ghost use Rattle.bh_c.specs.Held.{held_code, held_owns};

use crate::loose::Loose;
use crate::service::Service;
use std::alloc::Global;
use std::marker::Model;
use std::ptr::null_mut;

/// What C holds of a service: the address of its memory, of which C sees nothing. The handle is open where a service is
/// held; where none is, it is empty, and its address is null.
#[repr(C)]
pub struct Handle {
    at: *mut u8,
    /// The service, where one is held.
    pub ghost held: { Option ServiceValue } by { held_code },
}

impl Model for Handle {
    ghost also_owns = { λ h. held_owns h.at h.held };
}

/// Takes the service out of the handle, which is empty then; none where it was empty before.
pub fn take(handle: &mut Handle, alloc: Global) -> Option<Box<Service>>
    ensures taken { MatchOption result (handle.old.held ≡ None) (λ service. handle.old.held ≡ Some service.value) }
    ensures emptied { handle.new.held ≡ None }
{
    if !is_open(handle) {
        return None;
    }
    Some(take_loose(handle, alloc).into_box())
}

/// Puts the service into the handle, which holds it then.
pub fn put(handle: &mut Handle, service: Box<Service>)
    ensures { handle.new.held ≡ Some service.value }
{
    put_loose(handle, Loose::of(service));
}

/// Whether the handle holds a service.
fn is_open(handle: &mut Handle) -> bool
    ensures open { result ≡ is_some handle.old.held }
    ensures kept { handle.new.held ≡ handle.old.held }
{
    !handle.at.is_null()
}

/// Takes the service out of the handle as its pointer, and leaves the handle empty.
fn take_loose(handle: &mut Handle, alloc: Global) -> Loose<Service, Global>
    requires { IsSome handle.old.held }
    ensures taken { handle.old.held ≡ Some result.value }
    ensures emptied { handle.new.held ≡ None }
{
    let at = handle.at as *mut Service;
    handle.at = null_mut();
    Loose { at, alloc }
}

/// Puts a pointer to a service into the handle.
fn put_loose(handle: &mut Handle, service: Loose<Service, Global>)
    ensures { handle.new.held ≡ Some service.value }
{
    let Loose { at, alloc: _ } = service;
    handle.at = at as *mut u8;
}
