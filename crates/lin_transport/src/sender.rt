//! The sender of a message: which frame is next.

ghost use Rattle.std.specs.Prelude.{◌≡◌, ◌+◌, ◌<◌, ◌≤◌, ◌++◌, ◌↔◌, IsTrue, length};
ghost use Rattle.lin_transport.specs.Words.{filled_to};
ghost use Rattle.lin_transport.specs.Transport.{frame, frame_count};

use crate::pci::{
    CONSECUTIVE_BYTES, CONSECUTIVE_FRAME, FILL, FIRST_BYTES, FIRST_FRAME, SINGLE_BYTES,
};
use std::marker::Model;

/// A message on its way: it gives the message's frames one by one (ISO 17987-2, segmented
/// messages).
///
/// Contracts see its address, the message's length in bytes and the number of frames sent.
#[derive(Debug, Drop)]
pub struct Sender {
    nad: u8,
    len: usize,
    position: usize,
    counter: u8,
}

impl Model for Sender {
    ghost use Rattle.lin_transport.specs.Sender.{SenderData, frame_count_at, IsBetween};

    ghost Value = { SenderData };

    ghost view = { λ s. record { nad = s.nad; size = s.len; sent = frame_count_at s.position } };

    ghost invariant = { λ s. IsBetween s.len s.position s.counter };
}

// The data bytes of a frame: these, and the fill byte after them.
fn data_bytes(header: &[u8], bytes: &[u8]) -> [u8; 8]
    requires { length header.now + length bytes.now ≤ 8 }
    ensures { result ≡ filled_to 8 (header.now ++ bytes.now) }
{
    let mut data = [FILL; 8];
    data[..header.len()].copy_from_slice(header);
    data[header.len()..header.len() + bytes.len()].copy_from_slice(bytes);
    data
}

impl Sender {
    /// Begins a message of `len` bytes (1 to 4,095) to the node address `nad`: no frame of it is
    /// sent.
    pub fn begin(nad: u8, len: usize) -> Sender
        requires some { 1 ≤ len }
        requires few { len ≤ 4095 }
        ensures { result ≡ record { nad = nad; size = len; sent = 0 } }
    {
        Sender {
            nad,
            len,
            position: 0,
            counter: 1,
        }
    }

    /// The 8 data bytes of the next frame of `message`: a single frame up to 6 bytes, otherwise a
    /// first frame and then consecutive frames, whose counter goes from 1 to 15 and on with 0.
    /// Unused bytes are 0xFF.
    pub fn next(&self, message: &[u8]) -> [u8; 8]
        requires more { self.now.sent < frame_count self.now.size }
        requires whole { length message.now ≡ self.now.size }
        ensures { result ≡ frame self.now.nad message.now self.now.sent }
    {
        if self.len <= SINGLE_BYTES {
            return data_bytes(&[self.nad, self.len as u8], message);
        }
        if self.position == 0 {
            let length_high = (self.len / 256) as u8;
            let length_low = (self.len % 256) as u8;
            return data_bytes(
                &[self.nad, FIRST_FRAME + length_high, length_low],
                &message[..FIRST_BYTES],
            );
        }
        let end = self.len.min(self.position + CONSECUTIVE_BYTES);
        data_bytes(
            &[self.nad, CONSECUTIVE_FRAME + self.counter],
            &message[self.position..end],
        )
    }

    /// Says that the frame that `next` gave is sent.
    pub fn sent(&mut self)
        requires { self.old.sent < frame_count self.old.size }
        ensures { self.new ≡ record self.old { sent = self.old.sent + 1 } }
    {
        if self.position > 0 {
            self.position = self.len.min(self.position + CONSECUTIVE_BYTES);
            self.counter = (self.counter + 1) % 16;
        } else if self.len > SINGLE_BYTES {
            self.position = FIRST_BYTES;
        } else {
            self.position = self.len;
        }
    }

    /// Whether the frame that `next` gives is the message's last.
    pub fn is_last(&self) -> bool
        ensures { IsTrue result ↔ (self.now.sent + 1 ≡ frame_count self.now.size) }
    {
        if self.position == 0 {
            return self.len <= SINGLE_BYTES;
        }
        self.position < self.len && self.len - self.position <= CONSECUTIVE_BYTES
    }

    /// Whether all frames of the message are sent.
    pub fn is_done(&self) -> bool
        ensures done { IsTrue result ↔ (self.now.sent ≡ frame_count self.now.size) }
        ensures within { self.now.sent ≤ frame_count self.now.size }
    {
        self.position == self.len
    }
}
