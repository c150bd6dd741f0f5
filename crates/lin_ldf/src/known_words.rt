//! The words of sections and of node attributes that a version of LIN has.

ghost use Rattle.std.specs.Prelude.{◌≡◌, map};
ghost use Rattle.lin_ldf.specs.Known.{known_attributes, known_sections};
ghost use Rattle.lin_ldf.specs.Names.{has_name};

/// The words of sections: those of LIN 2.2A, section 9.2, and `Diagnostic_addresses` of LIN 1.3.
pub static SECTION_WORDS: [&[u8]; 14] = [
    b"Nodes",
    b"composite",
    b"Signals",
    b"Diagnostic_signals",
    b"Frames",
    b"Sporadic_frames",
    b"Event_triggered_frames",
    b"Diagnostic_frames",
    b"Node_attributes",
    b"Diagnostic_addresses",
    b"Schedule_tables",
    b"Signal_groups",
    b"Signal_encoding_types",
    b"Signal_representation",
];

/// The words of attributes: those of LIN 2.2A, section 9.2.2.2, and the last three of SAE J2602.
pub static ATTRIBUTE_WORDS: [&[u8]; 14] = [
    b"LIN_protocol",
    b"configured_NAD",
    b"initial_NAD",
    b"product_id",
    b"response_error",
    b"fault_state_signals",
    b"P2_min",
    b"ST_min",
    b"N_As_timeout",
    b"N_Cr_timeout",
    b"configurable_frames",
    b"response_tolerance",
    b"wakeup_time",
    b"poweron_time",
];

/// Whether a word is one of these.
fn is_one_of(word: &[u8], words: &[&[u8]]) -> bool
    ensures { result ≡ has_name (map (λ w. w.now) words.now) word.now }
{
    words.iter().any(|it| word == *it)
}

/// Whether a version of LIN has a section of this word.
pub fn is_section(word: &[u8]) -> bool
    ensures { result ≡ has_name known_sections word.now }
{
    is_one_of(word, SECTION_WORDS.as_slice())
}

/// Whether a version of LIN has a node attribute of this word.
pub fn is_attribute(word: &[u8]) -> bool
    ensures { result ≡ has_name known_attributes word.now }
{
    is_one_of(word, ATTRIBUTE_WORDS.as_slice())
}
