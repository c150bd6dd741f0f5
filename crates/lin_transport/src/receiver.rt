//! The receiver of messages: what it reads of the frames that it hears.

ghost use Rattle.std.specs.Prelude.{◌≡◌, ◌<◌, ◌≤◌, ◌∷◌, [], List, ◌&&◌, eqb, true};
ghost use Rattle.std.specs.Prelude.{false, slice_index, vec_capacity};
ghost use Rattle.std.specs.Prelude.{IfOk, IfSome, OnOk, OnErr, IsOk, length};
ghost use Rattle.lin_transport.specs.Transport.{Heard, begins_message, functional};
ghost use Rattle.lin_transport.specs.Transport.Heard.{Reset};
ghost use Rattle.lin_transport.specs.Receiver.{AddsRead, ContinuesPart, HasHeard, HasHeardOwn, Reads};
ghost use Rattle.lin_transport.specs.Receiver.{IsBegun, IsReadAs, bytes_given, ear_of};

use crate::pci::{CONSECUTIVE_BYTES, CONSECUTIVE_FRAME, FIRST_FRAME, FUNCTIONAL, SINGLE_BYTES};
use std::alloc::{AllocError, Global};
use std::marker::Model;
use std::mem;

/// A message of which the first frame was heard and the last wasn't yet. The buffer has room for
/// all of it.
#[derive(Drop)]
struct Partial {
    message: Vec<u8>,
    len: usize,
    counter: u8,
}

impl Model for Partial {
    ghost use Rattle.std.specs.Prelude.{vec_capacity};
    ghost use Rattle.lin_transport.specs.Receiver.{Part, IsPartialMessage};

    ghost Value = { Part };

    ghost view = { λ p. record { bytes = p.message.items; size = p.len } };

    ghost invariant = { λ p. IsPartialMessage p.message.items p.len p.counter (vec_capacity p.message) };
}

/// A receiver of the messages to one node address, and also of those to all responders where it is
/// functional: it reassembles them from the frames that it hears (ISO 17987-2, segmented messages).
///
/// Contracts see what it listens to, its partial message, and for how many single frames room was
/// made.
#[derive(Drop)]
pub struct Receiver {
    alloc: Global,
    nad: u8,
    functional: bool,
    // Empty: what the message of a single frame is made in, where room was made.
    room: Vec<u8>,
    partial: Option<Partial>,
}

impl Model for Receiver {
    ghost use Rattle.std.specs.Prelude.{◌≡◌, ◌/◌, [], vec_capacity};
    ghost use Rattle.lin_transport.specs.Receiver.{Reception};

    ghost Value = { Reception };

    ghost view = { λ r. record
        { nad = r.nad; part = r.partial; all = r.functional; spare = vec_capacity r.room / 6 } };

    ghost invariant = { λ r. r.room.items ≡ [] };
}

// The message of a single frame, where its length is in range. It is made in the room where that
// has enough.
fn single(alloc: Global, room: &mut Vec<u8>, frame: &[u8; 8]) -> Result<Option<Vec<u8>>, AllocError>
    requires low { slice_index frame.now 1 < 16 }
    requires empty { room.old.items ≡ [] }
    ensures reads { IfOk result (λ m. IsReadAs frame.now (bytes_given m)) }
    ensures few { IfOk result (λ m. IfSome m (λ v. length v.items ≤ 6)) }
    ensures empty { room.new.items ≡ [] }
    ensures ready { 6 ≤ vec_capacity room.old → IsOk result }
    ensures unchanged { OnErr result (room.new ≡ room.old) }
{
    let len = usize::from(frame[1]);
    if len == 0 || len > SINGLE_BYTES {
        return Ok(None);
    }
    if room.capacity() < len {
        return Ok(Some(Vec::from_slice(alloc, &frame[2..2 + len])?));
    }
    let mut message = mem::replace(room, Vec::new(alloc));
    message.extend_from_slice(&frame[2..2 + len]).unwrap();
    Ok(Some(message))
}

// The partial message that a first frame begins, where its length is in range: up to 6 bytes are no
// first frame's.
fn begun(alloc: Global, frame: &[u8; 8]) -> Result<Option<Partial>, AllocError>
    requires low { 16 ≤ slice_index frame.now 1 }
    requires high { slice_index frame.now 1 < 32 }
    ensures { IfOk result (λ p. IsBegun frame.now p) }
{
    let len = usize::from(frame[1] - FIRST_FRAME) * 256 + usize::from(frame[2]);
    if len <= SINGLE_BYTES {
        return Ok(None);
    }
    let mut message = Vec::with_capacity(alloc, len)?;
    message.extend_from_slice(&frame[3..]).unwrap();
    Ok(Some(Partial {
        message,
        len,
        counter: 1,
    }))
}

// What is partial after a frame that begins no message, and the message that it completes.
fn continued(partial: Option<Partial>, frame: &[u8; 8]) -> (Option<Partial>, Option<Vec<u8>>)
    requires { 32 ≤ slice_index frame.now 1 }
    ensures { ContinuesPart partial frame.now (bytes_given result.1) result.0 }
{
    let Some(partial) = partial else {
        return (None, None);
    };
    let Partial {
        mut message,
        len,
        counter,
    } = partial;
    if frame[1] != CONSECUTIVE_FRAME + counter {
        return (None, None);
    }
    let missing = len - message.len();
    if missing <= CONSECUTIVE_BYTES {
        message.extend_from_slice(&frame[2..2 + missing]).unwrap();
        return (None, Some(message));
    }
    message.extend_from_slice(&frame[2..]).unwrap();
    let next = Partial {
        message,
        len,
        counter: (counter + 1) % 16,
    };
    (Some(next), None)
}

impl Receiver {
    /// A receiver of the messages to the node address `nad`, which has heard nothing. `hear` takes
    /// its memory from `alloc`.
    pub fn new(alloc: Global, nad: u8) -> Receiver
        ensures ear { ear_of result ≡ record { nad = nad; all = false } }
        ensures stands { HasHeard result [] }
    {
        Receiver {
            alloc,
            nad,
            functional: false,
            room: Vec::new(alloc),
            partial: None,
        }
    }

    /// A receiver of the messages to the node address `nad` and of those to all responders, which
    /// has heard nothing. `hear` and `make_room` take their memory from `alloc`.
    pub fn functional(alloc: Global, nad: u8) -> Receiver
        ensures ear { ear_of result ≡ record { nad = nad; all = true } }
        ensures stands { HasHeard result [] }
    {
        Receiver {
            alloc,
            nad,
            functional: true,
            room: Vec::new(alloc),
            partial: None,
        }
    }

    // Whether this frame is one to all that it hears.
    fn hears_as_to_all(&self, frame: &[u8; 8]) -> bool
        ensures { result ≡ (self.now.all && eqb (slice_index frame.now 0) functional) }
    {
        self.functional && frame[0] == FUNCTIONAL
    }

    /// Makes room for the message of a single frame: after `Ok`, a `hear` of one as the next call
    /// isn't refused for memory. What was heard stays.
    ///
    /// # Errors
    /// `AllocError` where there is no memory for it. The receiver is then as before.
    pub fn make_room(&mut self) -> Result<(), AllocError>
        ensures ear { ear_of self.new ≡ ear_of self.old }
        ensures part { self.new.part ≡ self.old.part }
        ensures spare { OnOk result (1 ≤ self.new.spare) }
        ensures unchanged { OnErr result (self.new ≡ self.old) }
    {
        self.room.try_reserve(SINGLE_BYTES)
    }

    // Hears a frame, and gives the message that it completes.
    fn receive(&mut self, frame: &[u8; 8]) -> Result<Option<Vec<u8>>, AllocError>
        ensures reads { (heard : List Heard) → HasHeard self.old heard
            → IfOk result (λ m. Reads self.old frame.now heard (bytes_given m) self.new) }
        ensures unchanged { OnErr result (self.new ≡ self.old) }
        ensures memory { OnErr result (begins_message frame.now ≡ true) }
        ensures ready { 1 ≤ self.old.spare → slice_index frame.now 1 < 16 → IsOk result }
        ensures few { slice_index frame.now 1 < 16
            → IfOk result (λ m. IfSome m (λ v. length v.items ≤ 6)) }
    {
        let to_all = self.hears_as_to_all(frame);
        if !to_all && frame[0] != self.nad {
            return Ok(None);
        }
        if frame[1] < FIRST_FRAME {
            let message = single(self.alloc, &mut self.room, frame)?;
            self.partial = None;
            return Ok(message);
        }
        if to_all {
            self.partial = None;
            return Ok(None);
        }
        if frame[1] < CONSECUTIVE_FRAME {
            self.partial = begun(self.alloc, frame)?;
            return Ok(None);
        }
        let (partial, message) = continued(self.partial.take(), frame);
        self.partial = partial;
        Ok(message)
    }

    /// Hears the 8 data bytes of a diagnostic frame, and gives the message that the frame
    /// completes.
    ///
    /// Only frames with the receiver's address count, and, where it is functional, those to all. A
    /// single or first frame ends what was partial, also where its length is out of range, and so
    /// does every other frame that isn't the expected consecutive one. Of frames to all only single
    /// ones are read. Unused bytes don't matter.
    ///
    /// Takes memory only for a single or first frame: a message's buffer is made once, at its
    /// length.
    ///
    /// # Errors
    /// `AllocError` where there is no memory for the message. The receiver is then as before.
    pub fn hear(&mut self, frame: &[u8; 8]) -> Result<Option<Vec<u8>>, AllocError>
        ensures reassembles { (heard : List Heard) → HasHeard self.old heard
            → IfOk result (λ m. Reads self.old frame.now heard (bytes_given m) self.new) }
        ensures reads { (heard : List Heard) → HasHeardOwn self.old heard
            → IfOk result (λ m. AddsRead (ear_of self.old) frame.now heard (bytes_given m)) }
        ensures unchanged { OnErr result (self.new ≡ self.old) }
        ensures memory { OnErr result (begins_message frame.now ≡ true) }
        ensures ready { 1 ≤ self.old.spare → slice_index frame.now 1 < 16 → IsOk result }
        ensures few { slice_index frame.now 1 < 16
            → IfOk result (λ m. IfSome m (λ v. length v.items ≤ 6)) }
    {
        self.receive(frame)
    }

    /// Ends what was partial, as at a timeout or at go-to-sleep.
    pub fn reset(&mut self)
        ensures ear { ear_of self.new ≡ ear_of self.old }
        ensures ends { (heard : List Heard) → HasHeard self.new (Reset ∷ heard) }
    {
        self.partial.take();
    }
}
