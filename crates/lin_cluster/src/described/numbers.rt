//! The numbers of names: that of the first that has the name, or the one after the last.

ghost use Rattle.std.specs.Prelude.{◌≡◌, ◌≤◌, length};
ghost use Rattle.std.specs.List.{position_or_len};
ghost use Rattle.lin_cluster.specs.Described.{node_number, frame_number};
ghost use Rattle.lin_cluster.specs.Described.{sporadic_number, event_number, table_number};
ghost use Rattle.lin_cluster.specs.FindingsNames.{same_name};

use crate::names::{Named, is_name};
use lin_parts::description::{Description, Name};

#[tactic(auto, using(crate::proofs::Enumerated::number_within))]
fn number_among<T: Named>(all: &[T], name: &Name) -> usize
    ensures value { result ≡ position_or_len (λ x. same_name (T.name_of x) name.now) all.now }
    ensures range { result ≤ length all.now }
{
    all.iter()
        .take_while(|one| !is_name(one.name(), name))
        .count()
}

/// The number of a node.
pub(super) fn node_number(d: &Description, name: &Name) -> u8
    requires { length d.now.slaves ≤ 15 }
    ensures { result ≡ node_number d.now name.now }
{
    if is_name(&d.master, name) {
        0
    } else {
        1 + number_among(d.slaves(), name) as u8
    }
}

/// The number of a frame.
pub(super) fn frame_number(d: &Description, name: &Name) -> u16
    requires { length d.now.frames ≤ 60 }
    ensures { result ≡ frame_number d.now name.now }
{
    number_among(d.frames(), name) as u16
}

/// The number of a sporadic frame.
pub(super) fn sporadic_number(d: &Description, name: &Name) -> u16
    requires { length d.now.sporadic ≤ 256 }
    ensures { result ≡ sporadic_number d.now name.now }
{
    number_among(d.sporadic(), name) as u16
}

/// The number of an event-triggered frame.
pub(super) fn event_number(d: &Description, name: &Name) -> u16
    requires { length d.now.events ≤ 60 }
    ensures { result ≡ event_number d.now name.now }
{
    number_among(d.events(), name) as u16
}

/// The number of a table.
pub(super) fn table_number(d: &Description, name: &Name) -> u16
    requires { length d.now.tables ≤ 256 }
    ensures { result ≡ table_number d.now name.now }
{
    number_among(d.tables(), name) as u16
}
