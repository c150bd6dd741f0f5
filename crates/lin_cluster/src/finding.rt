//! What is wrong with a description, and why there is no cluster.

ghost use Rattle.std.specs.Prelude.{◌≡◌, ◌≤◌, [], map, slice_index_or};
ghost use Rattle.lin_cluster.specs.Kinds.{finding_at, finding_name, number_of};

use lin_parts::Location;
use lin_text::Many;

/// The kinds of findings, in the order of their numbers, 1 to 27, 31 to 41, 51 to 65 and 68 to 78. 19 to 26
/// are reported only if the text is read as one of the field; 27 also if lint warnings are wanted. 31 to 41
/// are about encodings of signals, 51 to 70 are lint warnings, and 71 to 78 are about node configuration:
/// the description is valid.
#[derive(Clone, Copy, Debug, PartialEq, Eq)]
pub enum FindingKind {
    UnknownName,
    WrongPublisher,
    BadId,
    IdTwice,
    BadSize,
    SignalOutside,
    SignalsOverlap,
    BadInit,
    /// The slot needs this time in microseconds.
    SlotTooShort { needed_us: u64 },
    ZeroDelay,
    BadNad,
    NadTwice,
    BadEventFrame,
    BadSporadic,
    NestedCollision,
    EmptyTable,
    LimitPassed,
    MixedChecksum,
    NoSize,
    NoTable,
    WideSignal,
    Rounded,
    ExtraMark,
    InitialNad,
    ByteOrder,
    HeaderLine,
    UnknownWord,
    BadEncoding,
    EncodingTwice,
    UnknownEncoding,
    UnknownSignal,
    RepresentedTwice,
    MinAboveMax,
    RangesOverlap,
    LogicalTwice,
    ValueOutside,
    ZeroScale,
    KindOfSignal,
    UnplacedSignal,
    UnusedFrame,
    UnscheduledFrame,
    NoSubscriber,
    OwnSubscriber,
    OffTimeBase,
    NoAddress,
    BadResponseError,
    BadConfigurable,
    UnusedEncoding,
    EventMemberBeside,
    SporadicMemberBeside,
    UnresolvedMember,
    ResolvingEntry,
    NoResponseError,
    AttributeTwice,
    BadAttribute,
    TimeoutTooShort,
    BadCommand,
    UnknownCommand,
    NoResponder,
    NoProduct,
    NotConfigurable,
    BadIndex,
    OtherPid,
    BadIdentity,
}

impl FindingKind {
    /// The number, 1 to 27, 31 to 41, 51 to 65 or 68 to 78.
    pub fn number(self) -> u8
        ensures { result ≡ number_of self }
    {
        match self {
            FindingKind::UnknownName => 1,
            FindingKind::WrongPublisher => 2,
            FindingKind::BadId => 3,
            FindingKind::IdTwice => 4,
            FindingKind::BadSize => 5,
            FindingKind::SignalOutside => 6,
            FindingKind::SignalsOverlap => 7,
            FindingKind::BadInit => 8,
            FindingKind::SlotTooShort { needed_us: _ } => 9,
            FindingKind::ZeroDelay => 10,
            FindingKind::BadNad => 11,
            FindingKind::NadTwice => 12,
            FindingKind::BadEventFrame => 13,
            FindingKind::BadSporadic => 14,
            FindingKind::NestedCollision => 15,
            FindingKind::EmptyTable => 16,
            FindingKind::LimitPassed => 17,
            FindingKind::MixedChecksum => 18,
            FindingKind::NoSize => 19,
            FindingKind::NoTable => 20,
            FindingKind::WideSignal => 21,
            FindingKind::Rounded => 22,
            FindingKind::ExtraMark => 23,
            FindingKind::InitialNad => 24,
            FindingKind::ByteOrder => 25,
            FindingKind::HeaderLine => 26,
            FindingKind::UnknownWord => 27,
            FindingKind::BadEncoding => 31,
            FindingKind::EncodingTwice => 32,
            FindingKind::UnknownEncoding => 33,
            FindingKind::UnknownSignal => 34,
            FindingKind::RepresentedTwice => 35,
            FindingKind::MinAboveMax => 36,
            FindingKind::RangesOverlap => 37,
            FindingKind::LogicalTwice => 38,
            FindingKind::ValueOutside => 39,
            FindingKind::ZeroScale => 40,
            FindingKind::KindOfSignal => 41,
            _ => self.warning_number(),
        }
    }

    /// The number of a warning about a description that is valid, 51 to 65 or 68 to 78.
    fn warning_number(self) -> u8
        requires { 51 ≤ number_of self }
        ensures { result ≡ number_of self }
    {
        match self {
            FindingKind::UnplacedSignal => 51,
            FindingKind::UnusedFrame => 52,
            FindingKind::UnscheduledFrame => 53,
            FindingKind::NoSubscriber => 54,
            FindingKind::OwnSubscriber => 55,
            FindingKind::OffTimeBase => 56,
            FindingKind::NoAddress => 57,
            FindingKind::BadResponseError => 58,
            FindingKind::BadConfigurable => 59,
            FindingKind::UnusedEncoding => 60,
            FindingKind::EventMemberBeside => 61,
            FindingKind::SporadicMemberBeside => 62,
            FindingKind::UnresolvedMember => 63,
            FindingKind::ResolvingEntry => 64,
            FindingKind::NoResponseError => 65,
            FindingKind::AttributeTwice => 68,
            FindingKind::BadAttribute => 69,
            FindingKind::TimeoutTooShort => 70,
            FindingKind::BadCommand => 71,
            FindingKind::UnknownCommand => 72,
            FindingKind::NoResponder => 73,
            FindingKind::NoProduct => 74,
            FindingKind::NotConfigurable => 75,
            FindingKind::BadIndex => 76,
            FindingKind::OtherPid => 77,
            _ => 78,
        }
    }
}

/// The names of findings, by their numbers; numbers that no finding has are left free.
static NAMES: [&str; 79] = [
    "",
    "UnknownName",
    "WrongPublisher",
    "BadId",
    "IdTwice",
    "BadSize",
    "SignalOutside",
    "SignalsOverlap",
    "BadInit",
    "SlotTooShort",
    "ZeroDelay",
    "BadNad",
    "NadTwice",
    "BadEventFrame",
    "BadSporadic",
    "NestedCollision",
    "EmptyTable",
    "LimitPassed",
    "MixedChecksum",
    "NoSize",
    "NoTable",
    "WideSignal",
    "Rounded",
    "ExtraMark",
    "InitialNad",
    "ByteOrder",
    "HeaderLine",
    "UnknownWord",
    "",
    "",
    "",
    "BadEncoding",
    "EncodingTwice",
    "UnknownEncoding",
    "UnknownSignal",
    "RepresentedTwice",
    "MinAboveMax",
    "RangesOverlap",
    "LogicalTwice",
    "ValueOutside",
    "ZeroScale",
    "KindOfSignal",
    "",
    "",
    "",
    "",
    "",
    "",
    "",
    "",
    "",
    "UnplacedSignal",
    "UnusedFrame",
    "UnscheduledFrame",
    "NoSubscriber",
    "OwnSubscriber",
    "OffTimeBase",
    "NoAddress",
    "BadResponseError",
    "BadConfigurable",
    "UnusedEncoding",
    "EventMemberBeside",
    "SporadicMemberBeside",
    "UnresolvedMember",
    "ResolvingEntry",
    "NoResponseError",
    "",
    "",
    "AttributeTwice",
    "BadAttribute",
    "TimeoutTooShort",
    "BadCommand",
    "UnknownCommand",
    "NoResponder",
    "NoProduct",
    "NotConfigurable",
    "BadIndex",
    "OtherPid",
    "BadIdentity",
];

/// What is wrong, and where: the finding's number (1 to 27, 31 to 41, 51 to 65 or 68 to 78), line and column,
/// and for a slot that is too short (9) the time in microseconds that it needs; otherwise 0. Findings are
/// ordered by place, then by number.
#[derive(Clone, Copy, Debug, PartialEq, Eq, PartialOrd, Ord)]
pub struct Finding {
    pub line: u64,
    pub column: u64,
    pub number: u8,
    pub needed_us: u64,
}

impl Finding {
    /// The finding of this kind at a place.
    pub fn new(kind: FindingKind, place: Location) -> Finding
        ensures { result ≡ finding_at kind place.line place.column }
    {
        Finding {
            line: place.line,
            column: place.column,
            number: kind.number(),
            needed_us: match kind {
                FindingKind::SlotTooShort { needed_us } => needed_us,
                _ => 0,
            },
        }
    }

    /// The name; only numbers from 1 to 27, from 31 to 41, from 51 to 65 and from 68 to 78 have one.
    pub fn name(&self) -> &'static str
        ensures { result.now ≡ finding_name self.now.number }
    {
        name_at(NAMES.as_slice(), self.number as usize)
    }
}

/// The name with a number, or none.
fn name_at(names: &[&'static str], number: usize) -> &'static str
    ensures { result.now ≡ slice_index_or (map (λ n. n.now) names.now) number [] }
{
    match names.get(number) {
        Some(name) => *name,
        None => "",
    }
}

/// Why a description gives no cluster: all that is wrong with it, or out of memory.
#[derive(Debug, Drop)]
pub enum CheckFault {
    Findings(Many<Finding>),
    OutOfMemory,
}
