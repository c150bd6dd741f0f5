//! Lines as lists of words.

ghost use Rattle.std.specs.Prelude.{◌≡◌, ◌≤◌, length, map};
ghost use Rattle.lin_log.specs.Shown.{as_word};
ghost use Rattle.lin_text.specs.Written.{Grows};
ghost use Rattle.lin_bench.specs.LineWords.{is_mark_word, spaced_words, text_after_space, words_text};

use lin_log::{Naming, Word, put_shown};
use lin_text::TextWriter;
use std::io::Write;
use std::marker::Model;

/// The words of a line, seven at most.
#[derive(Drop)]
pub struct WordList<'a> {
    words: [Word<'a>; 7],
    len: usize,
}

impl<'a> Model for WordList<'a> {
    ghost use Rattle.std.specs.Prelude.{List, map, take, ◌≤◌};
    ghost use Rattle.lin_log.specs.Shown.{as_word};
    ghost use Rattle.lin_log.specs.Words.{Word};

    ghost Value = { List Word };

    ghost view = { λ l. map as_word (take l.len l.words) };

    ghost invariant = { λ l. l.len ≤ 7 };
}

impl<'a> WordList<'a> {
    /// These words.
    pub fn of(words: &[Word<'a>]) -> WordList<'a>
        requires { length words.now ≤ 7 }
        ensures { result ≡ map as_word words.now }
    {
        let mut all = [Word::Mark(""); 7];
        all[..words.len()].copy_from_slice(words);
        WordList {
            words: all,
            len: words.len(),
        }
    }
}

fn is_mark(word: Word<'_>) -> bool
    ensures { result ≡ is_mark_word (as_word word.entry) }
{
    matches!(word, Word::Mark(_))
}

/// A word after a space, or a mark.
fn put_after<N: Naming, W: Write>(out: &mut TextWriter<'_, W>, names: &N, word: Word<'_>)
    ensures { Grows W.contents out.old out.new
        (text_after_space (N.language names.now) (as_word word.entry)) }
{
    if is_mark(word) {
        put_shown(out, names, word);
    } else {
        out.put_byte(b' ');
        put_shown(out, names, word);
    }
}

/// Words, each after a space, and marks.
pub fn put_all_after<N: Naming, W: Write>(
    out: &mut TextWriter<'_, W>,
    names: &N,
    words: &[Word<'_>],
)
    ensures { Grows W.contents out.old out.new
        (spaced_words (N.language names.now) (map as_word words.now)) }
{
    for word in words {
        put_after(out, names, *word);
    }
}

/// Words with one space between two, and marks.
pub fn put_joined<N: Naming, W: Write>(out: &mut TextWriter<'_, W>, names: &N, words: &[Word<'_>])
    ensures { Grows W.contents out.old out.new
        (words_text (N.language names.now) (map as_word words.now)) }
{
    match words {
        [] => {}
        [first, rest @ ..] => {
            put_shown(out, names, *first);
            put_all_after(out, names, rest);
        }
    }
}

/// The words of a line.
pub fn put_word_list<N: Naming, W: Write>(
    out: &mut TextWriter<'_, W>,
    names: &N,
    line: &WordList<'_>,
)
    ensures { Grows W.contents out.old out.new
        (words_text (N.language names.now) line.now) }
{
    put_joined(out, names, &line.words[..line.len]);
}
