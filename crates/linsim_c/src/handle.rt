//! A session's owner, in the form that C keeps: one pointer, which is null with no session.
ghost use Rattle.std.specs.Prelude.{◌≡◌};
ghost use Rattle.std.specs.declared.option.Option.{Option};
ghost use Rattle.std.specs.declared.option.Option.TheVariants.{None, Some};
ghost use Rattle.std.specs.Option.{MatchOption};
ghost use Rattle.std.specs.Coded.{coded_option};
ghost use Rattle.linsim_c.specs.contracts.kept.KeptSession.{the_row};
ghost use Rattle.linsim_c.specs.declared.kept.Session.{Session};

use crate::box_parts::BoxParts;
use crate::kept::KeptSession;
use std::alloc::Global;
use std::marker::Model;
use std::mem;
use std::ptr::null_mut;

/// A session or none, as C keeps it.
#[repr(C)]
pub struct Handle {
    at: *mut u8,
    pub ghost value: { Option Session } by { coded_option the_row.coded },
}

impl Model for Handle {
    ghost use Rattle.linsim_c.specs.Held.{owns_session};

    ghost also_owns = { λ h. owns_session h.at h.value };
}

impl Handle {
    pub(crate) fn empty() -> Handle
        ensures { result.value ≡ None }
    {
        Handle { at: null_mut() }
    }

    fn of(kept: BoxParts<KeptSession, Global>) -> Handle
        ensures { result.value ≡ Some kept.value }
    {
        let BoxParts { at, alloc: _ } = kept;
        Handle {
            at: at.cast::<u8>(),
        }
    }

    fn into_loose(self, alloc: Global) -> Option<BoxParts<KeptSession, Global>>
        ensures { MatchOption result (self.value ≡ None) (λ l. self.value ≡ Some l.value) }
    {
        let Handle { at } = self;
        if at.is_null() {
            None
        } else {
            Some(BoxParts {
                at: at.cast::<KeptSession>(),
                alloc,
            })
        }
    }

    /// Takes the session out.
    pub fn take(&mut self, alloc: Global) -> Option<Box<KeptSession>>
        ensures old { MatchOption result (self.old.value ≡ None)
            (λ b. self.old.value ≡ Some b.value) }
        ensures new { self.new.value ≡ None }
    {
        match mem::replace(self, Handle::empty()).into_loose(alloc) {
            Some(loose) => Some(loose.into_box()),
            None => None,
        }
    }

    /// Puts a session in, and frees the one that was there.
    pub fn put(&mut self, alloc: Global, kept: Box<KeptSession>)
        ensures { self.new.value ≡ Some kept.value }
    {
        match mem::replace(self, Handle::of(BoxParts::of(kept))).into_loose(alloc) {
            Some(loose) => {
                let _old = loose.into_box();
            }
            None => {}
        }
    }
}
