//! What is listed in a table, each with a word and a number, searched by both.

ghost use Rattle.std.specs.Prelude.{◌≡◌, ◌==◌, ℕ, List, Some, find, option_map};
ghost use Rattle.std.specs.Str.{bytes_eq};

/// Values that are listed in one table, each with a word and a number of its own.
pub trait Listed: Copy + 'static {
    ghost all: { List Self };

    ghost word: { Self → List ℕ };

    ghost number: { Self → ℕ };

    /// The values, in the order of their numbers.
    fn all() -> &'static [Self]
        ensures { result.now ≡ all };

    fn word(self) -> &'static str
        ensures { result.now ≡ word self };

    fn number(self) -> u8
        ensures { result ≡ number self };

    ghost by_word: { (x : Self) → find (λ y. bytes_eq (word y) (word x)) all ≡ Some x };

    ghost by_number: { (x : Self) → find (λ y. number y == number x) all ≡ Some x };
}

fn has_word<T: Listed>(value: T, word: &[u8]) -> bool
    ensures { result ≡ bytes_eq (T.word value) word.now }
{
    value.word().as_bytes() == word
}

fn with_word<'a, T: Listed>(values: &'a [T], word: &[u8]) -> Option<&'a T>
    ensures { option_map (λ x. x.now) result ≡ find (λ x. bytes_eq (T.word x) word.now) values.now }
{
    values.iter().find(|value| has_word(**value, word))
}

/// The value with this word.
pub fn named<T: Listed>(word: &[u8]) -> Option<T>
    ensures { result ≡ find (λ x. bytes_eq (T.word x) word.now) T.all }
{
    with_word(T::all(), word).copied()
}

fn has_number<T: Listed>(value: T, number: u32) -> bool
    ensures { result ≡ (T.number value == number) }
{
    u32::from(value.number()) == number
}

fn with_number<T: Listed>(values: &[T], number: u32) -> Option<&T>
    ensures { option_map (λ x. x.now) result ≡ find (λ x. T.number x == number) values.now }
{
    values.iter().find(|value| has_number(**value, number))
}

/// The value with this number.
pub fn numbered<T: Listed>(number: u32) -> Option<T>
    ensures { result ≡ find (λ x. T.number x == number) T.all }
{
    with_number(T::all(), number).copied()
}
