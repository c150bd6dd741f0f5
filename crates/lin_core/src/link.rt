//! The links that messages go over, and why a message is cut short.

use lin_transport::FUNCTIONAL;

/// Which way a diagnostic message goes: down from host 0 to a responder, or up from a responder's
/// host to host 0 (ISO 17987-2, transport layer).
#[derive(Clone, Copy, Debug, PartialEq, Eq)]
pub enum Direction {
    Down,
    Up,
}

/// A link: the messages between host 0 and a responder, in a direction (ISO 17987-2, transport
/// layer).
#[derive(Clone, Copy)]
pub(crate) struct Link {
    pub(crate) node: u8,
    pub(crate) dir: Direction,
}

impl Link {
    ghost use Rattle.std.specs.Prelude.{◌≡◌};
    ghost use Rattle.lin_core.specs.Links.{host_of, is_to_all, link_of, same_link};
    ghost use Rattle.lin_core.specs.Replies.{receiver_of};

    /// The link that a message from one host to another goes over.
    pub(crate) fn of(from: u8, to: u8) -> Link
        ensures { result ≡ link_of from to }
    {
        if from == 0 {
            return Link {
                node: to,
                dir: Direction::Down,
            };
        }
        Link {
            node: from,
            dir: Direction::Up,
        }
    }

    /// The host that sends over it.
    pub(crate) fn sender(self) -> u8
        ensures { result ≡ host_of self }
    {
        match self.dir {
            Direction::Down => 0,
            Direction::Up => self.node,
        }
    }

    /// The host that receives over it.
    pub(crate) fn receiver(self) -> u8
        ensures { result ≡ receiver_of self.dir self.node }
    {
        match self.dir {
            Direction::Down => self.node,
            Direction::Up => 0,
        }
    }

    /// Whether what goes here goes to all responders (ISO 17987-2, functional node address).
    pub(crate) fn is_to_all(self) -> bool
        ensures { result ≡ is_to_all self }
    {
        match self.dir {
            Direction::Down => self.node == FUNCTIONAL,
            Direction::Up => false,
        }
    }

    /// Whether it is this one.
    pub(crate) fn is(self, other: Link) -> bool
        ensures { result ≡ same_link self other }
    {
        self.node == other.node
            && match self.dir {
                Direction::Down => matches!(other.dir, Direction::Down),
                Direction::Up => matches!(other.dir, Direction::Up),
            }
    }
}

/// Why a message is lost: one of its frames was damaged, its transfer timed out, or the cluster was
/// put to sleep.
#[derive(Clone, Copy, Debug, PartialEq, Eq)]
pub enum Cause {
    Damaged,
    TimedOut,
    Slept,
}
