//! A session that C holds.
ghost use Rattle.pp_library.specs.Owning.{handle_owns};
ghost use Rattle.pp_library.specs.declared.console.Console.{Console};
ghost use Rattle.std.specs.Option.{option_map};
ghost use Rattle.std.specs.Prelude.{◌≡◌, IfOk, IsSome, ◌↔◌, IsTrue, None, Option, Some};

use crate::console::Console;
use crate::raw_box::RawBox;
use std::alloc::{AllocError, Global};
use std::marker::Model;
use std::mem::replace;
use std::ptr::null_mut;

/// A session as C sees it: a pointer. Before the first call C sets it to null, and then there is no session.
#[repr(C)]
#[derive(Drop)]
pub struct Handle {
    at: *mut u8,
    alloc: Global,
    pub ghost value: { Option Console },
}

impl Model for Handle {
    ghost also_owns = { λ handle. handle_owns handle.alloc handle.at handle.value };
}

impl Handle {
    /// Returns a handle of a session.
    ///
    /// # Errors
    /// If memory runs out.
    pub fn new(alloc: Global, console: Console) -> Result<Handle, AllocError>
        ensures { IfOk result (λ handle. handle.value ≡ Some console) }
    {
        Ok(Handle::of_box(Box::new(alloc, console)?))
    }

    /// Returns a handle without a session.
    fn closed(alloc: Global) -> Handle
        ensures { result.value ≡ None }
    {
        Handle {
            at: null_mut(),
            alloc,
        }
    }

    /// Returns a handle of a session in memory of its own.
    pub fn of_box(console: Box<Console>) -> Handle
        ensures { result.value ≡ Some console.value }
    {
        Handle::of_raw_box(RawBox::of(console))
    }

    /// Takes the session out of a handle, which has none after it, or returns `None`.
    pub fn take(&mut self, alloc: Global) -> Option<Box<Console>>
        ensures session { option_map (λ console. console.value) result ≡ self.old.value }
        ensures closed { self.new.value ≡ None }
    {
        match replace(self, Handle::closed(alloc)).into_raw_box() {
            Some(raw) => Some(raw.into_box()),
            None => None,
        }
    }

    /// Returns whether the handle has a session.
    pub fn is_open(&mut self, alloc: Global) -> bool
        ensures same { self.new.value ≡ self.old.value }
        ensures open { IsTrue result ↔ IsSome self.old.value }
    {
        match self.take(alloc) {
            Some(console) => {
                *self = Handle::of_box(console);
                true
            }
            None => false,
        }
    }

    fn of_raw_box(raw: RawBox<Console, Global>) -> Handle
        ensures { result.value ≡ Some raw.value }
    {
        let RawBox { ptr, alloc } = raw;
        Handle {
            at: ptr as *mut u8,
            alloc,
        }
    }

    fn into_raw_box(self) -> Option<RawBox<Console, Global>>
        ensures { option_map (λ raw. raw.value) result ≡ self.value }
    {
        let Handle { at, alloc } = self;
        if at.is_null() {
            None
        } else {
            Some(RawBox {
                ptr: at as *mut Console,
                alloc,
            })
        }
    }
}
