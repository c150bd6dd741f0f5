//! What faults of LDF texts, findings and refusals mean, in the words of the repository's page on
//! formats. Each list is in the order of the numbers, from 1.

/// The name of a fault of an LDF text, and what it means (LIN 2.2A, section 9).
pub(crate) static FAULTS: [(&str, &str); 7] = [
    (
        "BadByte",
        "invalid character: control characters and non-ASCII bytes are allowed only in comments \
         and strings",
    ),
    ("OpenComment", "the comment isn't closed: missing */"),
    ("OpenText", "the string isn't closed: missing \""),
    (
        "Unexpected",
        "unexpected token, or the file ends here. Also: a fraction where an integer is required, \
         a fourth decimal place other than 0, or a hexadecimal number where a decimal one is \
         required",
    ),
    ("NumberTooLarge", "the number is too large"),
    ("SectionTwice", "duplicate section"),
    (
        "NameTwice",
        "duplicate name (nodes; signals; frames of all kinds; schedule tables), duplicate \
         attribute block, or duplicate LIN_protocol or configured_NAD",
    ),
];

/// What a finding or a warning of this number means, and what to change.
pub(crate) fn finding_meaning(number: u8) -> Option<&'static (&'static str, &'static str)> {
    match number {
        71.. => COMMANDS.get(usize::from(number) - 71),
        68.. => ATTRIBUTES.get(usize::from(number) - 68),
        51.. => LINTS.get(usize::from(number) - 51),
        31.. => ENCODINGS.get(usize::from(number) - 31),
        _ => FINDINGS.get(usize::from(number).wrapping_sub(1)),
    }
}

/// What a finding means, and what to change.
static FINDINGS: [(&str, &str); 27] = [
    (
        "no node, signal, frame or schedule table of this name is declared",
        "correct the spelling or add the declaration; a schedule entry must name a frame",
    ),
    (
        "the publisher of the signal isn't the publisher of the frame",
        "give both the same publisher, or move the signal into a frame of its own publisher",
    ),
    (
        "the frame identifier is above 59 (the diagnostic frames 60 and 61 need no declaration)",
        "use an unused identifier from 0 to 59",
    ),
    (
        "an earlier frame has the same identifier",
        "use an unused identifier",
    ),
    (
        "invalid size: a scalar has 1 to 16 bits, an array 8, 16, .. or 64 bits, a frame 1 to 8 \
         bytes",
        "correct the size; a number of more than 16 bits is an array of bytes",
    ),
    (
        "the signal extends past the end of the frame, or the array doesn't start at a byte \
         boundary",
        "use a smaller offset or a longer frame; an array has an offset of 0, 8, 16, ..",
    ),
    (
        "the signal overlaps an earlier signal of the frame, or is in the frame twice",
        "move the later signal after the earlier one",
    ),
    (
        "the initial value doesn't fit: a scalar must fit its bits, an array has one value from 0 \
         to 255 for each byte",
        "use a value that fits; an array has one value for each 8 bits, in braces",
    ),
    (
        "the delay is shorter than the maximum frame time; the line ends with the required time \
         in microseconds",
        "use at least that delay, a faster bus or a shorter frame",
    ),
    (
        "the delay is 0",
        "use at least the delay that the slot requires (finding 9)",
    ),
    (
        "the NAD of the responder isn't 1 to 125",
        "use a NAD from 1 to 125, or delete the line: the node then has no NAD",
    ),
    (
        "an earlier responder has the same NAD, or the responder has two",
        "use another NAD for one of them, or delete the second NAD",
    ),
    (
        "invalid member of an event-triggered frame: members are unconditional frames of \
         different responders, of the same size, and without a signal in the first byte (it \
         carries the protected identifier)",
        "use members of one size from different responders, with their signals from bit 8 on",
    ),
    (
        "invalid member of a sporadic frame: members are unconditional frames that the commander \
         publishes",
        "list only frames that the commander publishes",
    ),
    (
        "the collision resolving table contains an event-triggered frame",
        "list its member frames instead",
    ),
    (
        "the schedule table is empty; at 1:1, the LDF has no schedule table",
        "add an entry, or delete the table",
    ),
    (
        "limit exceeded: at most 15 responders, 60 frames, 60 event-triggered frames, 1,024 \
         signals, 256 sporadic frames, 256 tables, 1,024 entries in a table, 1,000,000,000 us for \
         a delay, time base or jitter, and 1 to 20,000 bit/s",
        "use fewer items or a smaller number; LIN allows at most 20 kbit/s",
    ),
    (
        "the checksum model of this member differs from that of the first member",
        "list only members with the classic checksum, or only members with the enhanced checksum",
    ),
    (
        "the frame has no size: bits 5 and 4 of the identifier determine it",
        "add the size after the publisher",
    ),
    (
        "the event-triggered frame has no collision resolving table, or an empty one: a table of \
         its members is used",
        "name a table that has the members as entries",
    ),
    (
        "a scalar of 24, 32, .. or 64 bits: read as an array with the bytes of the number, lowest \
         first",
        "write the initial value as bytes in braces",
    ),
    (
        "a fourth or later decimal place other than 0: the number is rounded",
        "write three decimal places",
    ),
    ("surplus comma or semicolon: ignored", "delete it"),
    (
        "the responder has no configured_NAD and no other NAD: its initial_NAD is used",
        "add configured_NAD",
    ),
    (
        "big-endian signals: this scalar crosses a byte boundary, which isn't supported",
        "place it within a byte, or declare a signal for each of its bytes",
    ),
    (
        "unknown header line, or both byte orders: ignored",
        "delete the line",
    ),
    (
        "no version of LIN has this section or node attribute: ignored",
        "correct the spelling, or delete it",
    ),
];

/// What a warning of encodings means, from 31 on, and what to change.
static ENCODINGS: [(&str, &str); 11] = [
    (
        "syntax error, or a number out of range, in a signal encoding: ignored up to the next \
         semicolon, or up to the closing brace if the name is wrong",
        "use values up to 65,535 (with --field up to 2^64 - 1), and a scale or an offset below \
         1,000,000,000 with at most 24 decimal places",
    ),
    (
        "an earlier encoding has the same name: the first is used",
        "use another name",
    ),
    (
        "Signal_representation names an undeclared encoding",
        "correct the spelling or add the declaration",
    ),
    (
        "Signal_representation names an undeclared signal",
        "correct the spelling or delete the name",
    ),
    (
        "the signal already has an encoding: the first is used",
        "delete one of them",
    ),
    (
        "the first value of the range is above the last: the range has no value",
        "exchange the two values",
    ),
    (
        "the range has a value of an earlier range of the encoding: the first is used",
        "use ranges without a common value",
    ),
    (
        "an earlier item of the encoding has the same value: the first is used",
        "delete one of them",
    ),
    (
        "a value, or an end of a range, of the encoding doesn't fit in the bits of the signal",
        "use values that fit, or another encoding for the signal",
    ),
    (
        "the scale is 0: all values of the range have the same physical value",
        "write the scale of the signal",
    ),
    (
        "the encoding doesn't suit the signal: values and ranges are for scalars and wide signals; \
         bcd_value needs a multiple of 4 bits, ascii_value of 8",
        "use an encoding that suits the signal",
    ),
];

/// What a warning of a text in which nothing is wrong means, from 51 on, and what to change.
static LINTS: [(&str, &str); 15] = [
    (
        "the signal is in no frame",
        "add it to a frame of its publisher, or delete it: it is never sent",
    ),
    (
        "no schedule table has an entry for the frame, and no sporadic or event-triggered frame \
         lists it",
        "add a schedule entry for it, or delete it: it is never sent",
    ),
    (
        "no schedule table has an entry for the sporadic or event-triggered frame",
        "add a schedule entry for it; the entries of its member frames don't send it",
    ),
    (
        "the signal has no subscriber",
        "name its subscribers after the publisher",
    ),
    (
        "the publisher of the signal is also its subscriber",
        "remove this subscriber: a publisher always has its own values",
    ),
    (
        "the delay isn't a multiple of the time base",
        "use a multiple of the time base; a real commander can't produce this delay",
    ),
    (
        "the responder has no configured_NAD, but a table has an entry MasterReq or SlaveResp",
        "add configured_NAD, or remove the diagnostic entries",
    ),
    (
        "response_error must name a signal of 1 bit that the node publishes (1 or 8 bits if the \
         node's LIN_protocol begins with J2602)",
        "name a signal of 1 bit that the node publishes",
    ),
    (
        "configurable_frames has a name that isn't a frame of the node. A node has the frames \
         that it publishes, the frames with a signal that it subscribes to, and the sporadic and \
         event-triggered frames that list one of these",
        "name a frame of the node, or delete the line",
    ),
    (
        "no signal has the encoding. A signal has the first encoding with the name in the first \
         line of Signal_representation that lists the signal; no signal has a later encoding of \
         the same name",
        "name its signals in Signal_representation, or delete it",
    ),
    (
        "an event-triggered frame in the same schedule table lists the frame",
        "remove one of them from the table",
    ),
    (
        "a sporadic frame in the same schedule table lists the frame",
        "remove one of them from the table",
    ),
    (
        "the collision resolving table has no entry for the member: after a collision, it stays \
         unsent",
        "add an entry for each member to that table",
    ),
    (
        "a collision resolving table has an entry that isn't for an unconditional frame",
        "keep only unconditional frames in that table",
    ),
    (
        "the responder publishes a frame, but its attributes have no response_error, which LIN \
         2.x requires",
        "name a signal of 1 bit in a frame of the node",
    ),
];

/// What a warning of a node's attributes means, from 68 on, and what to change.
static ATTRIBUTES: [(&str, &str); 3] = [
    (
        "the attributes of the node already have this one: the first is used",
        "delete one of them",
    ),
    (
        "the attribute isn't valid: product_id has two or three numbers up to 0x7FFE, 0xFFFE and \
         255, a time is a decimal number and ms, response_error is one word",
        "correct the value",
    ),
    (
        "shorter than the longest time between two master request frames (N_Cr_timeout) or slave \
         response frames (N_As_timeout) in a schedule table: messages of several frames can time \
         out",
        "use a longer timeout, or add entries for these frames",
    ),
];

/// What a warning about a node configuration command means, from 71 on, and what to change.
static COMMANDS: [(&str, &str); 8] = [
    (
        "the arguments of the command are wrong",
        "correct the arguments; bytes are at most 255",
    ),
    (
        "no node configuration command has this name",
        "correct the spelling",
    ),
    (
        "the node isn't a responder with configured_NAD",
        "name a responder, and add its configured_NAD",
    ),
    ("the node has no valid product_id", "add its product_id"),
    (
        "configurable_frames of the node has no message identifier for the frame, or the \
         frame has no protected identifier, as a sporadic frame",
        "list the frame, in LIN 2.0 with its message identifier",
    ),
    (
        "configurable_frames of the node has no frame at this index",
        "count the frames from 0",
    ),
    (
        "the value is neither 0 nor 0xFF nor the protected identifier of the frame at this \
         index",
        "write the protected identifier, or none at all",
    ),
    (
        "the attribute isn't valid: the supplier is at most 0x7FFE, the function at most \
         0xFFFE and the variant at most 0xFF; initial_NAD is 1 to 125 or 127; a message \
         identifier is at most 0xFFFF",
        "correct the attribute",
    ),
];

/// When a step is refused, for each refusal in the order of their numbers.
pub(crate) static REFUSALS: [&str; 18] = [
    "send, write, answer, leave, timeout, close: no node has this number (send also accepts the \
     receiver 126)",
    "write: no signal has this number",
    "switch: no schedule table has this number",
    "write: the node doesn't publish the signal",
    "write: the value doesn't suit the signal: scalar or array, range, or length",
    "send: a message goes from node 0 to a responder with a NAD, or from such a responder to node \
     0; to 126 only from node 0, and some responder must have a NAD",
    "send: the message has no bytes or more than 4,095 bytes (to 126: more than 6)",
    "send, close: the host is closed",
    "send: the host's queue is full (--capacity); a message in transfer counts until it ends",
    "open, sleep: the cluster is asleep",
    "wake: the cluster isn't asleep",
    "open, timeout, switch: a slot is open",
    "answer, leave, hurt, finish: no slot is open",
    "any step: this port isn't allowed to execute the step; answer, leave: the node isn't due in \
     the open slot",
    "answer, leave: the node has already answered or left in this slot; hurt: the response is \
     already corrupted",
    "hurt: the slot has no response, or several",
    "hurt: the bytes are a valid response in this slot (right length and checksum), so they \
     wouldn't corrupt it",
    "timeout: no message is in transfer on this link",
];
