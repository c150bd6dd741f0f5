//! What holds of texts of the field, and of plain texts that are read as such.

ghost use Rattle.lin_field.specs.Checks.{SilenceIsFree};
ghost use Rattle.lin_field.specs.PlainTexts.{PlainTextsStay};

/// A text in which nothing is found, and that says no more than a plain one, is settled to what the
/// plain one describes. Nothing is told but marks that are left out, no slot is tight, and the order
/// of bytes doesn't matter. (The version of its header doesn't begin with `1.`)
pub fn plain_texts_stay()
    ensures { PlainTextsStay }
{}

/// A text of the field of which nothing is told is settled to what the plain check accepts, with no
/// finding at all: what is accepted though something was found has a warning.
pub fn silence_is_free()
    ensures { SilenceIsFree }
{}
