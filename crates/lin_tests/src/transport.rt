//! Messages there and back, and receivers against a plain reading of lists of frames.

ghost use Rattle.std.specs.Prelude.{◌≤◌, ◌<◌, length};

use lin_transport::{FUNCTIONAL, Receiver, Sender};
use std::alloc::{AllocError, Global};
use std::process::Abort;
use std::test::Fail;

// The frames of a message.
fn frames_of(alloc: Global, nad: u8, message: &[u8]) -> Result<Vec<[u8; 8]>, AllocError>
    requires some { 1 ≤ length message.now }
    requires few { length message.now ≤ 4095 }
{
    let mut sender = Sender::begin(nad, message.len());
    let mut frames = Vec::new(alloc);
    while !sender.is_done() {
        frames.push(sender.next(message))?;
        sender.sent();
    }
    Ok(frames)
}

// Hears all frames: only the last gives a message, which is this one.
fn hears(
    rt: &impl Abort,
    receiver: &mut Receiver,
    frames: &[[u8; 8]],
    message: &[u8],
) -> Result<(), AllocError> {
    for (i, frame) in frames.iter().enumerate() {
        match receiver.hear(frame)? {
            Some(heard) => {
                assert_eq!(rt; i + 1, frames.len(), "of {} bytes", message.len());
                assert!(rt; heard.as_slice() == message, "of {} bytes", message.len());
            }
            None => assert!(rt; i + 1 < frames.len(), "of {} bytes", message.len()),
        }
    }
    Ok(())
}

// The frames of a message to address 1: how many there are, and some of them, with their places.
fn expect_frames(
    rt: &impl Abort,
    alloc: Global,
    message: &[u8],
    count: usize,
    wanted: &[(usize, [u8; 8])],
) -> Result<(), AllocError> {
    assert!(rt; 1 <= message.len() && message.len() <= 4095);
    let frames = frames_of(alloc, 1, message)?;
    assert_eq!(rt; frames.len(), count);
    for (place, frame) in wanted {
        assert!(rt;
            frames.get(*place) == Some(frame),
            "frame {place} of {count}"
        );
    }
    let mut receiver = Receiver::new(alloc, 1);
    hears(rt, &mut receiver, frames.as_slice(), message)
}

#[test]
fn frames_of_messages(rt: HostRuntime) -> Result<(), Fail> {
    let six = [(0, [1, 6, 1, 2, 3, 4, 5, 6])];
    expect_frames(&rt, rt.alloc(), &[1, 2, 3, 4, 5, 6], 1, &six)?;
    let seven = [
        (0, [1, 0x10, 7, 1, 2, 3, 4, 5]),
        (1, [1, 0x21, 6, 7, 0xFF, 0xFF, 0xFF, 0xFF]),
    ];
    expect_frames(&rt, rt.alloc(), &[1, 2, 3, 4, 5, 6, 7], 2, &seven)?;
    let longest = [
        (0, [0x01, 0x1F, 0xFF, 0x5A, 0x5A, 0x5A, 0x5A, 0x5A]),
        (682, [0x01, 0x2A, 0x5A, 0x5A, 0x5A, 0x5A, 0xFF, 0xFF]),
    ];
    expect_frames(&rt, rt.alloc(), &[0x5A; 4095], 683, &longest)?;
    Ok(())
}

#[test]
fn there_and_back(rt: HostRuntime) -> Result<(), Fail> {
    let mut bytes = [0u8; 4095];
    for (i, byte) in bytes.iter_mut().enumerate() {
        *byte = (i % 251) as u8;
    }
    let mut receiver = Receiver::new(rt.alloc(), 125);
    for len in [1, 6, 7, 11, 12, 4094, 4095] {
        assert!(rt; 1 <= len && len <= 4095);
        let message = &bytes[..len];
        let frames = frames_of(rt.alloc(), 125, message)?;
        hears(&rt, &mut receiver, frames.as_slice(), message)?;
    }
    Ok(())
}

// What is heard in turn: frames, and whether each gives a message.
fn hears_in_turn(
    rt: &impl Abort,
    receiver: &mut Receiver,
    frames: &[([u8; 8], bool)],
) -> Result<(), AllocError> {
    for (frame, gives) in frames {
        assert_eq!(rt; receiver.hear(frame)?.is_some(), *gives, "{frame:?}");
    }
    Ok(())
}

// The first and the last frame of seven bytes.
const FIRST: [u8; 8] = [1, 0x10, 7, 1, 2, 3, 4, 5];

const LAST: [u8; 8] = [1, 0x21, 6, 7, 0xFF, 0xFF, 0xFF, 0xFF];

// A frame to another address is not looked at.
const TO_ANOTHER: [u8; 8] = [2, 0x10, 7, 1, 2, 3, 4, 5];

#[test]
fn reset_cuts_a_message(rt: HostRuntime) -> Result<(), Fail> {
    let mut receiver = Receiver::new(rt.alloc(), 1);
    hears_in_turn(&rt, &mut receiver, &[(FIRST, false)])?;
    receiver.reset();
    hears_in_turn(
        &rt,
        &mut receiver,
        &[
            (LAST, false),
            (FIRST, false),
            (TO_ANOTHER, false),
            (LAST, true),
        ],
    )?;
    Ok(())
}

#[test]
fn message_to_all(rt: HostRuntime) -> Result<(), Fail> {
    let to_all = [0x7E, 2, 0x3E, 0x80, 0xFF, 0xFF, 0xFF, 0xFF];
    let frames = frames_of(rt.alloc(), FUNCTIONAL, &[0x3E, 0x80])?;
    assert!(rt; frames.as_slice() == [to_all].as_slice());

    let mut receiver = Receiver::functional(rt.alloc(), 5);
    receiver.make_room()?;
    hears(&rt, &mut receiver, &[to_all], &[0x3E, 0x80])?;
    hears(&rt, &mut receiver, &[to_all], &[0x3E, 0x80])?;

    // its own messages, too; but a frame to all ends what is partial; and segmented ones to all are
    // not read
    let seven = [1, 2, 3, 4, 5, 6, 7];
    let frames = frames_of(rt.alloc(), 5, &seven)?;
    hears(&rt, &mut receiver, frames.as_slice(), &seven)?;
    hears_in_turn(
        &rt,
        &mut receiver,
        &[
            ([5, 0x10, 7, 1, 2, 3, 4, 5], false),
            (to_all, true),
            ([5, 0x21, 6, 7, 0xFF, 0xFF, 0xFF, 0xFF], false),
            ([0x7E, 0x10, 7, 1, 2, 3, 4, 5], false),
            ([0x7E, 0x21, 6, 7, 0xFF, 0xFF, 0xFF, 0xFF], false),
        ],
    )?;

    let mut plain = Receiver::new(rt.alloc(), 5);
    assert!(rt; plain.hear(&to_all)?.is_none());
    Ok(())
}

// A fixed sequence of bytes.
#[derive(Drop)]
struct Sequence {
    state: u64,
}

impl Sequence {
    fn byte(&mut self) -> u8 {
        self.state = self
            .state
            .wrapping_mul(6_364_136_223_846_793_005)
            .wrapping_add(1_442_695_040_888_963_407);
        self.state.to_be_bytes()[0]
    }

    fn below(&mut self, limit: u8) -> u8
        requires { 0 < limit }
        ensures { result < limit }
    {
        self.byte() % limit
    }

    // A frame of any bytes.
    fn any_frame(&mut self) -> [u8; 8] {
        let mut frame = [0; 8];
        for byte in frame.iter_mut() {
            *byte = self.byte();
        }
        frame
    }

    // A frame to an address, mostly one of a message with up to 32 bytes. The counter is that of
    // the next consecutive frame.
    fn likely_frame(&mut self, nad: u8, counter: u8) -> [u8; 8] {
        let mut frame = self.any_frame();
        frame[0] = nad;
        match self.below(16) {
            0 => frame[1] = 1 + self.below(6),
            1..=3 => {
                frame[1] = 0x10;
                frame[2] = 7 + self.below(26);
            }
            4 => (),
            _ => frame[1] = 0x20 | (counter & 0x0F),
        }
        frame
    }
}

const NAD: u8 = 5;

// Whether frames to an address are looked at, where those to all are or aren't.
fn is_looked_at(all: bool, nad: u8) -> bool {
    nad == NAD || (all && nad == FUNCTIONAL)
}

// The message that begins with the first of these frames, and how many frames after it are looked
// at for it.
fn message_at(
    alloc: Global,
    all: bool,
    first: &[u8; 8],
    after: &[[u8; 8]],
) -> Result<Option<(Vec<u8>, usize)>, AllocError> {
    let mut bytes = Vec::new(alloc);
    let len;
    if first[1] < 0x10 {
        len = usize::from(first[1]);
        if len == 0 || len > 6 {
            return Ok(None);
        }
        bytes.extend_from_slice(&first[2..])?;
    } else {
        len = usize::from(first[1] & 0x0F) * 256 + usize::from(first[2]);
        if len < 7 || first[0] != NAD {
            return Ok(None);
        }
        bytes.extend_from_slice(&first[3..])?;
    }
    let mut counter = 1;
    let mut looked_at = 0;
    for (i, frame) in after.iter().enumerate() {
        if bytes.len() >= len {
            break;
        }
        if is_looked_at(all, frame[0]) {
            if frame[0] != NAD || frame[1] != 0x20 | counter {
                return Ok(None);
            }
            bytes.extend_from_slice(&frame[2..])?;
            counter = next_counter(counter, frame[1]);
        }
        looked_at = i + 1;
    }
    if bytes.len() < len {
        return Ok(None);
    }
    bytes.truncate(len);
    Ok(Some((bytes, looked_at)))
}

// Fifty frames: likely ones of a conversation with the address, some of them to all, or any.
fn list_of_frames(
    alloc: Global,
    sequence: &mut Sequence,
    all: bool,
    is_likely: bool,
) -> Result<Vec<[u8; 8]>, AllocError> {
    let mut frames = Vec::new(alloc);
    let mut counter = 1;
    for _ in 0..50 {
        let frame = if is_likely {
            let nad = if all && sequence.below(16) == 0 {
                FUNCTIONAL
            } else {
                NAD
            };
            sequence.likely_frame(nad, counter)
        } else {
            sequence.any_frame()
        };
        counter = next_counter(counter, frame[1]);
        frames.push(frame)?;
    }
    Ok(frames)
}

// The counter that is expected after a frame with this PCI.
fn next_counter(counter: u8, pci: u8) -> u8 {
    if pci < 0x20 {
        1
    } else if pci == 0x20 | (counter & 0x0F) {
        counter.wrapping_add(1) & 0x0F
    } else {
        counter
    }
}

// The messages that a receiver gives, each with the place of the frame that completes it.
fn heard_messages(
    alloc: Global,
    all: bool,
    frames: &[[u8; 8]],
) -> Result<Vec<(usize, Vec<u8>)>, AllocError> {
    let mut receiver = if all {
        Receiver::functional(alloc, NAD)
    } else {
        Receiver::new(alloc, NAD)
    };
    let mut messages = Vec::new(alloc);
    for (i, frame) in frames.iter().enumerate() {
        if let Some(message) = receiver.hear(frame)? {
            messages.push((i, message))?;
        }
    }
    Ok(messages)
}

// The same by the plain reading.
fn read_messages(
    alloc: Global,
    all: bool,
    frames: &[[u8; 8]],
) -> Result<Vec<(usize, Vec<u8>)>, AllocError> {
    let mut messages = Vec::new(alloc);
    for (i, frame) in frames.iter().enumerate() {
        if is_looked_at(all, frame[0]) && frame[1] < 0x20 {
            if let Some((message, after)) = message_at(alloc, all, frame, &frames[i + 1..])? {
                messages.push((i.saturating_add(after), message))?;
            }
        }
    }
    Ok(messages)
}

// How many of the frames begin a segmented message.
fn begun_messages(frames: &[[u8; 8]]) -> usize {
    frames
        .iter()
        .filter(|frame| frame[0] == NAD
            && frame[1] & 0xF0 == 0x10
            && (frame[1] > 0x10 || frame[2] > 6))
        .count()
}

// How many of the frames are single ones to all.
fn single_to_all(frames: &[[u8; 8]]) -> usize {
    frames
        .iter()
        .filter(|frame| frame[0] == FUNCTIONAL && 1 <= frame[1] && frame[1] <= 6)
        .count()
}

// A receiver gives what the plain reading does, over 100,000 lists of frames.
fn reads_lists(rt: &impl Abort, alloc: Global, all: bool) -> Result<(), AllocError> {
    let mut sequence = Sequence { state: 1 };
    let mut begun: usize = 0;
    let mut whole: usize = 0;
    let mut to_all: usize = 0;
    for list in 0..100_000u32 {
        let frames = list_of_frames(alloc, &mut sequence, all, list % 2 == 1)?;
        let heard = heard_messages(alloc, all, frames.as_slice())?;
        let read = read_messages(alloc, all, frames.as_slice())?;
        assert!(rt; heard == read, "list {list}");
        begun = begun.saturating_add(begun_messages(frames.as_slice()));
        whole = whole.saturating_add(read.iter().filter(|message| message.1.len() > 6).count());
        to_all = to_all.saturating_add(single_to_all(frames.as_slice()));
    }
    assert!(rt; whole > 500);
    assert!(rt; begun.saturating_sub(whole) > 500);
    assert!(rt; !all || to_all > 500);
    Ok(())
}

#[test]
fn lists_of_frames(rt: HostRuntime) -> Result<(), Fail> {
    for all in [false, true] {
        reads_lists(&rt, rt.alloc(), all)?;
    }
    Ok(())
}
