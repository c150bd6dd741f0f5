//! Node configuration and identification: the services that requests are for, and the responses of
//! responders (LIN 2.2A, section 4.2).

ghost use Rattle.std.specs.Prelude.{◌≡◌, ◌==◌, ◌<◌, ◌≤◌, false, slice_index};
ghost use Rattle.std.specs.Option.{option_map_or};
ghost use Rattle.lin_parts.specs.Services.{
  asks,
  response_if,
  has_message,
  has_place,
  has_product,
  is_chosen,
  is_frame_assigned,
  is_function,
};
ghost use Rattle.lin_parts.specs.Services.{
  is_nad,
  is_nad_assigned,
  is_nad_changed,
  is_product_at,
  is_range_assigned,
  is_supplier,
  u16_at,
};
ghost use Rattle.lin_parts.specs.Services.{
  positive,
  product_bytes,
  read_by_identifier,
  read_response,
  response_by,
  service_name,
  service_response,
  takes,
};

use crate::parts::{Identity, Product};

/// Returns the name of the service that a request is for; of a request for none of them,
/// `FreeFormat` (LIN 2.2A, section 9.2.5).
pub fn service_name(request: &[u8; 8]) -> &'static [u8]
    ensures { result.now ≡ service_name request.now }
{
    match (request[1], request[2]) {
        (6, 0xB0) => b"AssignNAD",
        (6, 0xB1) => b"AssignFrameId",
        (6, 0xB2) => b"ReadByIdentifier",
        (6, 0xB3) => b"ConditionalChangeNAD",
        (6, 0xB4) => b"DataDump",
        (1, 0xB6) => b"SaveConfiguration",
        (6, 0xB7) => b"AssignFrameIdRange",
        _ => b"FreeFormat",
    }
}

/// The 16-bit number from a byte on, the low byte first.
fn number_at(bytes: &[u8; 8], k: usize) -> u16
    requires { k < 7 }
    ensures { result ≡ u16_at bytes.now k }
{
    u16::from(bytes[k]) + 256 * u16::from(bytes[k + 1])
}

/// Whether a configured NAD may be this.
fn is_nad(nad: u8) -> bool
    ensures { result ≡ is_nad nad }
{
    1 <= nad && nad <= 125
}

/// A positive response without data to a service.
fn positive(nad: u8, sid: u8) -> [u8; 8]
    requires { sid < 0xC0 }
    ensures { result ≡ positive nad sid }
{
    [nad, 1, sid + 0x40, 0xFF, 0xFF, 0xFF, 0xFF, 0xFF]
}

/// A response to a request that is fulfilled.
fn fulfilled(is: bool, response: [u8; 8]) -> Option<[u8; 8]>
    ensures { result ≡ response_if is response }
{
    if is { Some(response) } else { None }
}

impl Product {
    /// Whether a request names the supplier, or all of them.
    fn is_supplier(&self, supplier: u16) -> bool
        ensures { result ≡ is_supplier self.now supplier }
    {
        supplier == self.supplier || supplier == 0x7FFF
    }

    /// Whether a request names the function, or all of them.
    fn is_function(&self, function: u16) -> bool
        ensures { result ≡ is_function self.now function }
    {
        function == self.function || function == 0xFFFF
    }

    /// Whether a request names the product from a byte on.
    fn is_at(&self, request: &[u8; 8], k: usize) -> bool
        requires { k < 5 }
        ensures { result ≡ is_product_at request.now k self.now }
    {
        self.is_supplier(number_at(request, k)) && self.is_function(number_at(request, k + 2))
    }

    /// The product identification, byte by byte.
    fn bytes(&self) -> [u8; 5]
        ensures { result ≡ product_bytes self.now }
    {
        let Product {
            supplier,
            function,
            variant,
        } = *self;
        [
            (supplier % 256) as u8,
            (supplier / 256) as u8,
            (function % 256) as u8,
            (function / 256) as u8,
            variant,
        ]
    }

    /// Whether the condition of ConditionalChangeNAD holds.
    fn is_chosen(&self, request: &[u8; 8]) -> bool
        requires some { 1 ≤ slice_index request.now 4 }
        requires few { slice_index request.now 4 ≤ 5 }
        ensures { result ≡ is_chosen request.now self.now }
    {
        (self.bytes()[request[4] as usize - 1] ^ request[6]) & request[5] == 0
    }

    /// The response to ReadByIdentifier.
    fn read_response(&self, nad: u8, request: &[u8; 8]) -> [u8; 8]
        ensures { result ≡ read_response nad request.now self.now }
    {
        if request[3] != 0 {
            return [nad, 3, 0x7F, 0xB2, 0x12, 0xFF, 0xFF, 0xFF];
        }
        let bytes = self.bytes();
        [
            nad, 6, 0xF2, bytes[0], bytes[1], bytes[2], bytes[3], bytes[4],
        ]
    }
}

/// Whether a configurable frame has a message identifier.
fn is_message(message: &Option<u16>, id: u16) -> bool
    ensures { result ≡ option_map_or (λ own. own == id) message.now false }
{
    match message {
        Some(own) => *own == id,
        None => false,
    }
}

impl Identity {
    /// Whether one of the configurable frames has this message identifier.
    fn has_message(&self, id: u16) -> bool
        ensures { result ≡ has_message self.now id }
    {
        self.messages
            .as_slice()
            .iter()
            .any(|message| is_message(message, id))
    }

    /// Whether AssignNAD is fulfilled.
    fn is_nad_assigned(&self, request: &[u8; 8]) -> bool
        ensures { result ≡ is_nad_assigned self.now request.now }
    {
        match &self.product {
            Some(product) => product.is_at(request, 3) && is_nad(request[7]),
            None => false,
        }
    }

    /// Whether AssignFrameId is fulfilled.
    fn is_frame_assigned(&self, request: &[u8; 8]) -> bool
        ensures { result ≡ is_frame_assigned self.now request.now }
    {
        match &self.product {
            Some(product) => {
                product.is_supplier(number_at(request, 3))
                    && self.has_message(number_at(request, 5))
            }
            None => false,
        }
    }

    /// Whether ConditionalChangeNAD is fulfilled.
    fn is_nad_changed(&self, request: &[u8; 8]) -> bool
        ensures { result ≡ is_nad_changed self.now request.now }
    {
        if request[3] != 0 || request[4] < 1 || 5 < request[4] || !is_nad(request[7]) {
            return false;
        }
        match &self.product {
            Some(product) => product.is_chosen(request),
            None => false,
        }
    }

    /// Whether a protected identifier of AssignFrameIdRange is that of a configurable frame.
    fn has_place(&self, request: &[u8; 8], k: usize) -> bool
        requires { k < 4 }
        ensures { result ≡ has_place self.now request.now k }
    {
        request[4 + k] == 0xFF || request[3] as usize + k < self.messages.as_slice().len()
    }

    /// Whether AssignFrameIdRange is fulfilled.
    fn is_range_assigned(&self, request: &[u8; 8]) -> bool
        ensures { result ≡ is_range_assigned self.now request.now }
    {
        self.has_place(request, 0)
            && self.has_place(request, 1)
            && self.has_place(request, 2)
            && self.has_place(request, 3)
    }

    /// The response to ReadByIdentifier, if the request names the product.
    fn read_by_identifier(&self, nad: u8, request: &[u8; 8]) -> Option<[u8; 8]>
        ensures { result ≡ read_by_identifier self.now nad request.now }
    {
        match &self.product {
            Some(product) => {
                fulfilled(
                    product.is_at(request, 4),
                    product.read_response(nad, request),
                )
            }
            None => None,
        }
    }

    /// Whether the responder takes a request.
    fn takes(&self, nad: u8, request: &[u8; 8]) -> bool
        ensures { result ≡ takes self.now nad request.now }
    {
        let own = if request[2] == 0xB0 {
            self.initial
        } else {
            nad
        };
        request[0] == 0x7F || request[0] == own
    }

    /// The response to a request that the responder takes.
    fn service_response(&self, nad: u8, request: &[u8; 8]) -> Option<[u8; 8]>
        ensures { result ≡ service_response self.now nad request.now }
    {
        match (request[1], request[2]) {
            (6, 0xB0) => fulfilled(self.is_nad_assigned(request), positive(self.initial, 0xB0)),
            (6, 0xB1) => fulfilled(self.is_frame_assigned(request), positive(nad, 0xB1)),
            (6, 0xB2) => self.read_by_identifier(nad, request),
            (6, 0xB3) => fulfilled(self.is_nad_changed(request), positive(request[7], 0xB3)),
            (1, 0xB6) => Some(positive(nad, 0xB6)),
            (6, 0xB7) => fulfilled(self.is_range_assigned(request), positive(nad, 0xB7)),
            _ => None,
        }
    }

    /// The response to a request by the configured NAD, or `None`.
    pub(crate) fn response_by(&self, nad: u8, request: &[u8; 8]) -> Option<[u8; 8]>
        ensures { result ≡ response_by self.now nad request.now }
    {
        if self.takes(nad, request) {
            self.service_response(nad, request)
        } else {
            None
        }
    }
}
