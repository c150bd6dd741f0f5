//! What a handle keeps.

ghost use Rattle.std.specs.Prelude.{◌≡◌};

use crate::session_bench::SessionBench;
use lin_core::Core;
use lin_text::TextBuffer;
use std::marker::Model;

/// What lines are made on.
#[derive(Drop)]
pub enum Session {
    /// The core of a script, whose lines have steps by numbers.
    Script(Core),
    /// The bench of a bench script.
    Bench(SessionBench),
}

/// A session, and the buffer that its texts wait in, so that none is made for each. Contracts see the
/// session.
#[derive(Drop)]
pub struct KeptSession {
    pub(crate) session: Session,
    pub(crate) buffer: TextBuffer,
}

impl Model for KeptSession {
    ghost use Rattle.linsim_c.specs.declared.kept.Session.{Session};

    ghost Value = { Session };

    ghost view = { λ k. k.session };
}

impl KeptSession {
    pub(crate) fn new(session: Session) -> KeptSession
        ensures { result ≡ session }
    {
        KeptSession {
            session,
            buffer: TextBuffer::empty(),
        }
    }
}
