//! The tables of refusals, causes, looks of slots and directions.

ghost use Rattle.lin_core.specs.Tables.{cause_number, cause_word, causes, direction_number};
ghost use Rattle.lin_core.specs.Tables.{direction_word, directions, look_number, look_word, looks};
ghost use Rattle.lin_core.specs.Tables.{refusal_number, refusal_word, refusals};
ghost use Rattle.lin_core.specs.TableLaws.{cause-by_number, cause-by_word, direction-by_number};
ghost use Rattle.lin_core.specs.TableLaws.{direction-by_word, look-by_number, look-by_word};
ghost use Rattle.lin_core.specs.TableLaws.{refusal-by_number, refusal-by_word};

use crate::event::Look;
use crate::link::{Cause, Direction};
use crate::listed::Listed;
use crate::reply::Refusal;

static REFUSALS: [Refusal; 18] = [
    Refusal::NoSuchNode,
    Refusal::NoSuchSignal,
    Refusal::NoSuchTable,
    Refusal::NotPublisher,
    Refusal::BadValue,
    Refusal::NoAddress,
    Refusal::BadLength,
    Refusal::Closed,
    Refusal::QueueFull,
    Refusal::Asleep,
    Refusal::Awake,
    Refusal::SlotOpen,
    Refusal::NoSlot,
    Refusal::NotYours,
    Refusal::Decided,
    Refusal::NothingOnWire,
    Refusal::PassesCheck,
    Refusal::NoTransfer,
];

impl Listed for Refusal {
    ghost all = { refusals };

    ghost word = { refusal_word };

    ghost number = { refusal_number };

    ghost by_word = { refusal-by_word };

    ghost by_number = { refusal-by_number };

    fn all() -> &'static [Refusal] {
        &REFUSALS
    }

    fn word(self) -> &'static str {
        match self {
            Refusal::NoSuchNode => "NoSuchNode",
            Refusal::NoSuchSignal => "NoSuchSignal",
            Refusal::NoSuchTable => "NoSuchTable",
            Refusal::NotPublisher => "NotPublisher",
            Refusal::BadValue => "BadValue",
            Refusal::NoAddress => "NoAddress",
            Refusal::BadLength => "BadLength",
            Refusal::Closed => "Closed",
            Refusal::QueueFull => "QueueFull",
            Refusal::Asleep => "Asleep",
            Refusal::Awake => "Awake",
            Refusal::SlotOpen => "SlotOpen",
            Refusal::NoSlot => "NoSlot",
            Refusal::NotYours => "NotYours",
            Refusal::Decided => "Decided",
            Refusal::NothingOnWire => "NothingOnWire",
            Refusal::PassesCheck => "PassesCheck",
            Refusal::NoTransfer => "NoTransfer",
        }
    }

    fn number(self) -> u8 {
        self as u8 + 1
    }
}

static CAUSES: [Cause; 3] = [Cause::Damaged, Cause::TimedOut, Cause::Slept];

impl Listed for Cause {
    ghost all = { causes };

    ghost word = { cause_word };

    ghost number = { cause_number };

    ghost by_word = { cause-by_word };

    ghost by_number = { cause-by_number };

    fn all() -> &'static [Cause] {
        &CAUSES
    }

    fn word(self) -> &'static str {
        match self {
            Cause::Damaged => "damaged",
            Cause::TimedOut => "timedout",
            Cause::Slept => "slept",
        }
    }

    fn number(self) -> u8 {
        self as u8
    }
}

static LOOKS: [Look; 5] = [
    Look::Silent,
    Look::NoAnswer,
    Look::Good,
    Look::Damaged,
    Look::Collided,
];

impl Listed for Look {
    ghost all = { looks };

    ghost word = { look_word };

    ghost number = { look_number };

    ghost by_word = { look-by_word };

    ghost by_number = { look-by_number };

    fn all() -> &'static [Look] {
        &LOOKS
    }

    fn word(self) -> &'static str {
        match self {
            Look::Silent => "silent",
            Look::NoAnswer => "none",
            Look::Good => "good",
            Look::Damaged => "damaged",
            Look::Collided => "collided",
        }
    }

    fn number(self) -> u8 {
        self as u8
    }
}

static DIRECTIONS: [Direction; 2] = [Direction::Down, Direction::Up];

impl Listed for Direction {
    ghost all = { directions };

    ghost word = { direction_word };

    ghost number = { direction_number };

    ghost by_word = { direction-by_word };

    ghost by_number = { direction-by_number };

    fn all() -> &'static [Direction] {
        &DIRECTIONS
    }

    fn word(self) -> &'static str {
        match self {
            Direction::Down => "down",
            Direction::Up => "up",
        }
    }

    fn number(self) -> u8 {
        self as u8
    }
}
