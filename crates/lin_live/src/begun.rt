//! The line that isn't ended yet.

ghost use Rattle.std.specs.Prelude.{◌≡◌, ◌≤◌, [], IfSome, OnOk, Some, length, option_map};
ghost use Rattle.std.specs.Str.Lines.{strip_carriage_return};
ghost use Rattle.lin_live.specs.Begun.{with_bytes, ended_line, is_nothing};
ghost use Rattle.lin_live.specs.Transcript.{short};

use lin_log::without_return;
use std::alloc::{AllocError, Global};
use std::marker::Model;

/// The most bytes of a line.
const LIMIT: usize = 16_777_216;

/// One more than the limit, for the CR that belongs to no line.
const KEPT: usize = 16_777_217;

/// The line that ends after these bytes; none where it is too long.
pub(crate) fn ended_line(bytes: &[u8]) -> Option<&[u8]>
    ensures line { option_map (λ l. l.now) result ≡ short (strip_carriage_return bytes.now) }
    ensures short { IfSome result (λ l. length l.now ≤ 16777216) }
{
    let line = without_return(bytes);
    if line.len() > LIMIT { None } else { Some(line) }
}

/// The bytes of a line that isn't ended yet, as far as they can be those of a line and a CR. Of a
/// line that is too long nothing is kept, and contracts see none.
#[derive(Drop)]
pub(crate) struct Begun {
    bytes: Vec<u8>,
    is_long: bool,
}

impl Model for Begun {
    ghost use Rattle.std.specs.Prelude.{◌≤◌, ℕ, List, Option, Some, None, length, if◌then◌else◌};

    ghost Value = { Option (List ℕ) };

    ghost view = { λ b. if b.is_long then None else Some b.bytes.items };

    ghost invariant = { λ b. length b.bytes.items ≤ 16777217 };
}

impl Begun {
    pub(crate) fn new(alloc: Global) -> Begun
        ensures { result ≡ Some [] }
    {
        Begun {
            bytes: Vec::new(alloc),
            is_long: false,
        }
    }

    /// Whether no byte has come yet.
    pub(crate) fn is_nothing(&self) -> bool
        ensures { result ≡ is_nothing self.now }
    {
        !self.is_long && self.bytes.is_empty()
    }

    /// Adds bytes, none of which is an LF.
    pub(crate) fn add(&mut self, alloc: Global, bytes: &[u8]) -> Result<(), AllocError>
        ensures { OnOk result (self.new ≡ with_bytes self.old bytes.now) }
    {
        if self.is_long {
            return Ok(());
        }
        if bytes.len() > KEPT - self.bytes.len() {
            self.is_long = true;
            self.bytes = Vec::new(alloc);
            return Ok(());
        }
        self.bytes.extend_from_slice(bytes)
    }

    /// The line, where it ends here; none where it is too long.
    pub(crate) fn line(&self) -> Option<&[u8]>
        ensures line { option_map (λ l. l.now) result ≡ ended_line self.now }
        ensures short { IfSome result (λ l. length l.now ≤ 16777216) }
    {
        if self.is_long {
            return None;
        }
        ended_line(self.bytes.as_slice())
    }

    /// A line begins.
    pub(crate) fn clear(&mut self)
        ensures { self.new ≡ Some [] }
    {
        self.bytes.clear();
        self.is_long = false;
    }
}
