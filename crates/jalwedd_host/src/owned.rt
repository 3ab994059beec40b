//! A session that a host in C holds.

ghost use Rattle.std.specs.Prelude.{◌≡◌, Option, MatchOption};
ghost use Rattle.jalwedd_host.specs.Owned.{Value, held_code, owned};

pub(crate) mod loose;

use crate::session::HostSession;
use loose::Loose;
use std::alloc::Global;
use std::marker::Model;
use std::ptr::null_mut;

/// A session on the heap, or none: what a host in C holds.
#[repr(C)]
pub struct Owned {
    at: *mut u8,
    alloc: Global,
    pub ghost held: { Option Value } by { held_code },
}

impl Model for Owned {
    ghost also_owns = { λ o. owned o.alloc o.at o.held };
}

impl Owned {
    /// None.
    pub(crate) fn vacant(alloc: Global) -> Owned
        ensures { result.held ≡ None }
    {
        Owned {
            at: null_mut(),
            alloc,
        }
    }

    pub(crate) fn of_loose(loose: Loose<HostSession, Global>) -> Owned
        ensures { result.held ≡ Some loose.value }
    {
        let Loose { at, alloc } = loose;
        Owned {
            at: at as *mut u8,
            alloc,
        }
    }

    pub(crate) fn into_loose(self) -> Option<Loose<HostSession, Global>>
        ensures { MatchOption result (self.held ≡ None) (λ l. self.held ≡ Some l.value) }
    {
        let Owned { at, alloc } = self;
        if at.is_null() {
            None
        } else {
            Some(Loose {
                at: at as *mut HostSession,
                alloc,
            })
        }
    }
}

// Only an empty one is let go, so that no session is lost.
impl Drop for Owned {
    fn drop(self)
        requires { self.held ≡ None }
    {
        let Owned { at: _, alloc: _ } = self;
    }
}
