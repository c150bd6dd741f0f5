//! Words that a text mentions.

ghost use Rattle.std.specs.Prelude.{◌≡◌, false, List};
ghost use Rattle.lin_ldf.specs.Symbols.{symbols_in};
ghost use Rattle.lin_ldf.specs.declared.token.Token.{Token};
ghost use Rattle.lin_sections.specs.Mentioned.{has_word};

use memchr::memmem;

/// Whether the bytes of a word stand anywhere in a text, as in a comment or in a longer word. Where
/// they don't, no token is the word.
pub(crate) fn mentions(text: &[u8], word: &[u8]) -> bool
    ensures { (ts : List Token) → result ≡ false
        → has_word word.now (symbols_in text.now ts) ≡ false }
{
    memmem::find(text, word).is_some()
}
