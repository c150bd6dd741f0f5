//! The frames of each kind that a description says.

ghost use Rattle.std.specs.Prelude.{◌≡◌, ◌==◌, ◌<◌, ◌≤◌, ◌^◌, ℕ, All, IfOk, OnOk, length, map};
ghost use Rattle.std.specs.List.{enumerate_from, list_any};
ghost use Rattle.lin_frame.specs.Frame.{pid};
ghost use Rattle.lin_cluster.specs.Described.{frame_number, signal_number};
ghost use Rattle.lin_cluster.specs.Described.{described_place, described_layout, described_frame};
ghost use Rattle.lin_cluster.specs.Described.{frames_of, members_of, sporadic_frames_of};
ghost use Rattle.lin_cluster.specs.Described.{described_sporadic, described_event, events_of};
ghost use Rattle.lin_cluster.specs.Fitting.{FitsFrame, FitsNumbers};
ghost use Rattle.lin_cluster.specs.Models.{frame_model, model_named, first_model};

use super::numbers::{frame_number, node_number, table_number};
use super::signals::NumberedSignals;
use lin_frame::{FrameId, Layout, Place, SumKind, protected};
use lin_parts::description::{Description, Frame, Name, PlacedSignal, Sporadic};
use lin_parts::{EventFrame, SignalFrame, SporadicFrame};
use lin_text::{Many, Text};
use std::alloc::{AllocError, Global};

fn pid_of(id: u32) -> u8
    requires { id < 64 }
    ensures { result ≡ pid id }
{
    match FrameId::new(id as u8) {
        Some(id) => protected(id),
        None => 0,
    }
}

fn lists(d: &Description, members: &[Name], frame: u16) -> bool
    requires { length d.now.frames ≤ 60 }
    ensures { result ≡ list_any (λ m. frame_number d.now m == frame) members.now }
{
    for member in members {
        if frame_number(d, member) == frame {
            return true;
        }
    }
    false
}

fn is_member(d: &Description, events: &[lin_parts::description::EventFrame], frame: u16) -> bool
    requires few { length d.now.frames ≤ 60 }
    ensures { result
        ≡ list_any (λ e. list_any (λ m. frame_number d.now m == frame) e.members) events.now }
{
    for event in events {
        if lists(d, event.members.as_slice(), frame) {
            return true;
        }
    }
    false
}

fn place_of(signals: &NumberedSignals, placed: &PlacedSignal) -> Place
    requires few { length signals.now.signals ≤ 1024 }
    requires fits { placed.now.offset.value < 2 ^ 8 }
    ensures { result ≡ described_place signals.now placed.now }
{
    let offset = placed.offset.value as u8;
    let number = signals.number(&placed.signal);
    match signals.as_slice().get(usize::from(number)) {
        Some(signal) => signal.place_at(offset),
        None => Place {
            offset,
            size: 1,
            array: false,
        },
    }
}

fn places_of(
    alloc: Global,
    signals: &NumberedSignals,
    placed: &[PlacedSignal],
) -> Result<Many<Place>, AllocError>
    requires few { length signals.now.signals ≤ 1024 }
    requires fit { All (λ p. p.offset.value < 2 ^ 8) placed.now }
    ensures { IfOk result (λ places. places ≡ map (described_place signals.now) placed.now) }
{
    let mut places = Vec::new(alloc);
    for one in placed {
        places.push(place_of(signals, one))?;
    }
    Ok(Many::new(places))
}

fn signals_in(
    alloc: Global,
    signals: &NumberedSignals,
    placed: &[PlacedSignal],
) -> Result<Many<u16>, AllocError>
    requires few { length signals.now.signals ≤ 1024 }
    ensures { IfOk result
        (λ numbers. numbers ≡ map (λ p. signal_number signals.now p.signal) placed.now) }
{
    let mut numbers = Vec::new(alloc);
    for one in placed {
        numbers.push(signals.number(&one.signal))?;
    }
    Ok(Many::new(numbers))
}

fn layout_of(
    alloc: Global,
    d: &Description,
    signals: &NumberedSignals,
    number: u16,
    frame: &Frame,
) -> Result<Layout, AllocError>
    requires few { FitsNumbers d.now }
    requires all { signals.now ≡ d.now }
    requires fits { FitsFrame frame.now }
    ensures { IfOk result (λ layout. layout ≡ described_layout d.now (number, frame.now)) }
{
    // what data byte 0 holds
    let pid = if is_member(d, d.events(), number) {
        Some(pid_of(frame.id.value))
    } else {
        None
    };
    Ok(Layout {
        len: frame.size.value as u8,
        pid,
        places: places_of(alloc, signals, frame.placed.as_slice())?,
    })
}

fn frame_of(
    alloc: Global,
    d: &Description,
    signals: &NumberedSignals,
    model: SumKind,
    number: u16,
    frame: &Frame,
) -> Result<SignalFrame, AllocError>
    requires few { FitsNumbers d.now }
    requires all { signals.now ≡ d.now }
    requires model { model ≡ frame_model d.now frame.now }
    requires fits { FitsFrame frame.now }
    ensures { IfOk result (λ made. made ≡ described_frame d.now (number, frame.now)) }
{
    Ok(SignalFrame {
        name: Text::copied(alloc, frame.name.text.as_slice())?,
        pid: pid_of(frame.id.value),
        model,
        publisher: node_number(d, &frame.publisher),
        layout: layout_of(alloc, d, signals, number, frame)?,
        signals: signals_in(alloc, signals, frame.placed.as_slice())?,
    })
}

pub(super) fn frames_of(
    alloc: Global,
    d: &Description,
    signals: &NumberedSignals,
    models: &[SumKind],
    frames: &[Frame],
) -> Result<Many<SignalFrame>, AllocError>
    requires few { FitsNumbers d.now }
    requires few_frames { length frames.now ≤ 60 }
    requires all { signals.now ≡ d.now }
    requires fit { All FitsFrame frames.now }
    requires models { models.now ≡ map (frame_model d.now) frames.now }
    ensures { IfOk result
        (λ made. made ≡ map (described_frame d.now) (enumerate_from 0 frames.now)) }
{
    let mut made = Vec::new(alloc);
    for (number, frame) in frames.iter().enumerate() {
        let model = models[number];
        made.push(frame_of(alloc, d, signals, model, number as u16, frame)?)?;
    }
    Ok(Many::new(made))
}

fn members_of(alloc: Global, d: &Description, names: &[Name]) -> Result<Many<u16>, AllocError>
    requires { length d.now.frames ≤ 60 }
    ensures { IfOk result (λ members. members ≡ members_of d.now names.now) }
{
    let mut members = Vec::new(alloc);
    for name in names {
        members.push(frame_number(d, name))?;
    }
    Ok(Many::new(members))
}

fn sporadic_of(
    alloc: Global,
    d: &Description,
    sporadic: &Sporadic,
) -> Result<SporadicFrame, AllocError>
    requires { length d.now.frames ≤ 60 }
    ensures made { IfOk result (λ made. made ≡ described_sporadic d.now sporadic.now) }
    ensures some { OnOk result (1 ≤ length sporadic.now.members) }
{
    Ok(SporadicFrame {
        name: Text::copied(alloc, sporadic.name.text.as_slice())?,
        frames: members_of(alloc, d, sporadic.members.as_slice())?,
    })
}

pub(super) fn sporadic_frames_of(
    alloc: Global,
    d: &Description,
    sporadic: &[Sporadic],
) -> Result<Many<SporadicFrame>, AllocError>
    requires { length d.now.frames ≤ 60 }
    ensures made { IfOk result (λ made. made ≡ map (described_sporadic d.now) sporadic.now) }
    ensures some { OnOk result (All (λ s. 1 ≤ length s.members) sporadic.now) }
{
    let mut made = Vec::new(alloc);
    for one in sporadic {
        made.push(sporadic_of(alloc, d, one)?)?;
    }
    Ok(Many::new(made))
}

// The checksum model of a frame, where the name is one's.
fn model_named(d: &Description, models: &[SumKind], name: &Name) -> Option<SumKind>
    requires few { length d.now.frames ≤ 60 }
    requires models { models.now ≡ map (frame_model d.now) d.now.frames }
    ensures { result ≡ model_named d.now name.now }
{
    models.get(usize::from(frame_number(d, name))).copied()
}

// The checksum model of the first member, where that is a frame.
fn first_model(d: &Description, models: &[SumKind], members: &[Name]) -> Option<SumKind>
    requires few { length d.now.frames ≤ 60 }
    requires models { models.now ≡ map (frame_model d.now) d.now.frames }
    ensures { result ≡ first_model d.now members.now }
{
    match members.first() {
        Some(member) => model_named(d, models, member),
        None => None,
    }
}

fn event_of(
    alloc: Global,
    d: &Description,
    models: &[SumKind],
    event: &lin_parts::description::EventFrame,
) -> Result<EventFrame, AllocError>
    requires few { FitsNumbers d.now }
    requires fits { event.now.id.value < 64 }
    requires models { models.now ≡ map (frame_model d.now) d.now.frames }
    ensures made { IfOk result (λ made. made ≡ described_event d.now event.now) }
    ensures some { OnOk result (1 ≤ length event.now.members) }
{
    Ok(EventFrame {
        name: Text::copied(alloc, event.name.text.as_slice())?,
        pid: pid_of(event.id.value),
        model: first_model(d, models, event.members.as_slice()).unwrap_or(SumKind::Enhanced),
        table: table_number(d, &event.table),
        frames: members_of(alloc, d, event.members.as_slice())?,
    })
}

pub(super) fn events_of(
    alloc: Global,
    d: &Description,
    models: &[SumKind],
    events: &[lin_parts::description::EventFrame],
) -> Result<Many<EventFrame>, AllocError>
    requires few { FitsNumbers d.now }
    requires fit { All (λ e. e.id.value < 64) events.now }
    requires models { models.now ≡ map (frame_model d.now) d.now.frames }
    ensures made { IfOk result (λ made. made ≡ map (described_event d.now) events.now) }
    ensures some { OnOk result (All (λ e. 1 ≤ length e.members) events.now) }
{
    let mut made = Vec::new(alloc);
    for event in events {
        made.push(event_of(alloc, d, models, event)?)?;
    }
    Ok(Many::new(made))
}
