//! Lines as lists of words with one space between two.

ghost use Rattle.std.specs.Prelude.{◌∷◌, ◌++◌, codes, flat_map, map};
ghost use Rattle.std.specs.Fmt.{decimal};
ghost use Rattle.std.specs.Option.{option_map_or};
ghost use Rattle.lin_log.specs.CallerTexts.{seen_text};
ghost use Rattle.lin_log.specs.Shown.{as_word, word_shown};
ghost use Rattle.lin_log.specs.Words.{carried_word, line, spaced_word, value_word, word_text};
ghost use Rattle.lin_text.specs.Written.{Grows};

use crate::caller_texts::{put_seen, put_texts};
use crate::naming::{Naming, NumberNaming};
use crate::pattern::{Pattern, put_pattern};
use crate::writing::put_hex;
use lin_frame::Value;
use lin_text::{Text, TextWriter};
use std::io::Write;

/// A frame that slots carry.
#[derive(Clone, Copy, Debug)]
pub enum Carried {
    /// The unconditional frame with this number.
    Signals(u16),
    /// A frame of a message from the commander (ISO 17987-2, master request frame).
    Request,
    /// A frame of a message to it (ISO 17987-2, slave response frame).
    Response,
}

/// A word of a line, or a mark. A text has `?` in the place of each LF.
#[derive(Clone, Copy)]
pub enum Word<'a> {
    Node(u8),
    Signal(u16),
    Table(u16),
    Frame(Carried),
    Number(u64),
    /// A number to another.
    Range(u64, u64),
    Byte(u8),
    /// An identifier, in two digits after `0x`.
    Identifier(u8),
    Bytes(&'a [u8]),
    Pattern(&'a Pattern),
    Value(&'a Value),
    /// A word of the language, or several.
    Fixed(&'a str),
    /// A name, or a word of the caller's.
    Said(&'a [u8]),
    /// Words of the caller's.
    Fields(&'a [Text]),
    /// Texts with a comma between two.
    Listed(&'a [Text]),
    /// Lines with a semicolon between two.
    Lines(&'a [Text]),
    /// A mark, with no space before it.
    Mark(&'a str),
}

/// A name, or the number of what has none.
fn put_name<W: Write>(out: &mut TextWriter<'_, W>, name: Option<&[u8]>, number: u64)
    ensures { Grows W.contents out.old out.new
        (seen_text (option_map_or (λ w. w.now) name.entry (decimal number))) }
{
    match name {
        Some(name) => put_seen(out, name),
        None => out.put_number(number),
    }
}

fn put_carried<N: Naming, W: Write>(out: &mut TextWriter<'_, W>, names: &N, frame: Carried)
    ensures { Grows W.contents out.old out.new
        (seen_text (carried_word (N.language names.now).frames frame)) }
{
    match frame {
        Carried::Signals(number) => put_name(out, names.name_of_frame(number), u64::from(number)),
        Carried::Request => out.put_text("MasterReq"),
        Carried::Response => out.put_text("SlaveResp"),
    }
}

fn put_range<W: Write>(out: &mut TextWriter<'_, W>, low: u64, high: u64)
    ensures { Grows W.contents out.old out.new (decimal low ++ (codes ".." ++ decimal high)) }
{
    out.put_number(low);
    out.put_text("..");
    out.put_number(high);
}

fn put_raw<W: Write>(out: &mut TextWriter<'_, W>, value: &Value)
    ensures { Grows W.contents out.old out.new (value_word value.now) }
{
    match value {
        Value::Scalar(number) => out.put_number(*number),
        Value::Bytes(bytes) => {
            out.put_byte(b'x');
            put_hex(out, bytes.as_slice());
        }
    }
}

/// A word alone.
pub fn put_shown<N: Naming, W: Write>(out: &mut TextWriter<'_, W>, names: &N, word: Word<'_>)
    ensures { Grows W.contents out.old out.new
        (word_text (N.language names.now) (as_word word.entry)) }
{
    match word {
        Word::Node(node) => put_name(out, names.name_of_node(node), u64::from(node)),
        Word::Signal(signal) => put_name(out, names.name_of_signal(signal), u64::from(signal)),
        Word::Table(table) => put_name(out, names.name_of_table(table), u64::from(table)),
        Word::Frame(frame) => put_carried(out, names, frame),
        Word::Number(number) => out.put_number(number),
        Word::Range(low, high) => put_range(out, low, high),
        Word::Byte(byte) => out.put_hex_byte(byte),
        Word::Identifier(identifier) => {
            out.put_text("0x");
            out.put_hex_byte(identifier);
        }
        Word::Bytes(bytes) => put_hex(out, bytes),
        Word::Pattern(pattern) => put_pattern(out, pattern),
        Word::Value(value) => put_raw(out, value),
        Word::Fixed(text) => put_seen(out, text.as_bytes()),
        Word::Said(text) => put_seen(out, text),
        Word::Fields(fields) => put_texts(out, " ", fields),
        Word::Listed(texts) => put_texts(out, ", ", texts),
        Word::Lines(lines) => put_texts(out, "; ", lines),
        Word::Mark(mark) => put_seen(out, mark.as_bytes()),
    }
}

/// A word after a space.
pub fn put_spaced<W: Write>(out: &mut TextWriter<'_, W>, word: Word<'_>)
    ensures { Grows W.contents out.old out.new (spaced_word (word_shown word.entry)) }
{
    out.put_byte(b' ');
    put_shown(out, &NumberNaming, word);
}

/// Words, each after a space.
pub fn put_words<W: Write>(out: &mut TextWriter<'_, W>, words: &[Word<'_>])
    ensures { Grows W.contents out.old out.new (flat_map spaced_word (map word_shown words.now)) }
{
    for word in words {
        put_spaced(out, *word);
    }
}

/// What a line begins with: its kind, and words after it.
pub fn put_head<W: Write>(out: &mut TextWriter<'_, W>, kind: &[u8], words: &[Word<'_>])
    ensures { Grows W.contents out.old out.new
        (kind.now ++ flat_map spaced_word (map word_shown words.now)) }
{
    out.put(kind);
    put_words(out, words);
}

/// A line: its kind, and words after it.
pub fn put_line<W: Write>(out: &mut TextWriter<'_, W>, kind: &[u8], words: &[Word<'_>])
    ensures { Grows W.contents out.old out.new (line (kind.now ∷ map word_shown words.now)) }
{
    out.put(kind);
    put_words(out, words);
    out.put_byte(b'\n');
}
