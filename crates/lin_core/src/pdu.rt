//! What a slot carries of the transport.

ghost use Rattle.std.specs.Prelude.{◌≡◌, if◌then◌else◌};
ghost use Rattle.lin_core.specs.History.{is_sleep_slot};
ghost use Rattle.lin_core.specs.kept.Slots.{slot_in, pdu_of};

use crate::bus_state::request_byte;
use crate::slot::{MASTER_REQUEST, OpenSlot, SLAVE_RESPONSE};

/// What a slot carries of the transport: nothing, the sleep frame, or a frame of a host's message
/// (ISO 17987-2, transport layer).
#[derive(Drop)]
pub(crate) enum Pdu {
    Nothing,
    Sleep,
    OfMessage { host: u8 },
}

impl OpenSlot {
    /// What a slot for a service carries: a FreeFormat frame may be the sleep frame.
    fn service_pdu(&self) -> Pdu
        ensures { result ≡ (if is_sleep_slot (slot_in self.now) then Pdu.Sleep else Pdu.Nothing) }
    {
        match request_byte(self) {
            Some(0) => Pdu::Sleep,
            _ => Pdu::Nothing,
        }
    }

    /// What the slot carries.
    pub(crate) fn pdu(&self) -> Pdu
        ensures { result ≡ pdu_of (slot_in self.now) }
    {
        if self.service {
            return self.service_pdu();
        }
        let Some(put) = self.puts.as_slice().first() else {
            return Pdu::Nothing;
        };
        match self.header {
            Some(MASTER_REQUEST) => {
                if put.answer.as_slice().first().copied().unwrap_or(0) == 0 {
                    Pdu::Sleep
                } else {
                    Pdu::OfMessage { host: 0 }
                }
            }
            Some(SLAVE_RESPONSE) => Pdu::OfMessage { host: put.node },
            _ => Pdu::Nothing,
        }
    }
}
