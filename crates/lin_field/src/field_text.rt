//! A text of the field, read as what it describes.

ghost use Rattle.std.specs.Prelude.{◌≡◌, ◌≢◌, ◌⊎◌, [], false, IfOk, IsErrAnd, MatchResult};
ghost use Rattle.lin_ldf.specs.Tokens.{IsLexFault};
ghost use Rattle.lin_ldf.specs.declared.fault.LdfFault.{LdfFault};
ghost use Rattle.lin_ldf.specs.declared.fault.LdfFault.TheVariants.{OutOfMemory};
ghost use Rattle.lin_field.specs.Bytes.{field_bytes};
ghost use Rattle.lin_field.specs.Marks.{text_with_blanks};
ghost use Rattle.lin_field.specs.Suspects.{has_suspect};
ghost use Rattle.lin_field.specs.Describes.{ReadsFieldText, ReadsIn};
ghost use Rattle.lin_field.specs.declared.field_text.FieldText.{FieldText};

use crate::file::file;
use crate::loose::Loose;
use crate::marks::{extra_marks, has_suspect, read_over_bytes, read_over_marks};
use lin_ldf::{LdfFault, Parser, Token};
use lin_text::Many;
use std::alloc::Global;

/// What a text of the field describes, and the marks that were left out.
#[derive(Drop)]
pub struct FieldText {
    pub loose: Loose,
    pub marks: Many<Token>,
}

/// What a text describes none of whose marks is left out. Its tokens are read once, and where they
/// are at fault, once more for the first fault.
fn read_unmarked(alloc: Global, source: &[u8]) -> Result<FieldText, LdfFault>
    requires { has_suspect source.now ≡ false }
    ensures found { IfOk result (ReadsIn source.now) }
    ensures only { (t : FieldText) → ReadsIn source.now t
        → MatchResult result (λ found. found ≡ t) (λ e. e ≡ OutOfMemory) }
    ensures none { IfOk result (λ t. t.marks ≡ []) }
    ensures first { (e : LdfFault) → IsLexFault source.now e → e ≢ OutOfMemory
        → IsErrAnd result (λ found. (found ≡ e) ⊎ (found ≡ OutOfMemory)) }
{
    let read = file(&mut Parser::new(alloc, source));
    match read {
        Ok(loose) => Ok(FieldText {
            loose,
            marks: Many::new(Vec::new(alloc)),
        }),
        Err(fault) => {
            extra_marks(alloc, source)?;
            Err(fault)
        }
    }
}

/// What an LDF text of the field describes: one of LIN 1.3, 2.0, 2.1, 2.2, J2602 or ISO 17987, or of
/// an editor that adds marks.
///
/// In its bytes what is read over becomes spaces, so that they are a text of plain tokens, whose
/// places are those of the text.
///
/// # Errors
/// The first fault of the tokens (`BadByte`, `OpenComment` or `OpenText`); where there is none, the
/// fault at the earliest token that breaks the grammar: `Unexpected`, `NumberTooLarge`,
/// `SectionTwice` or `NameTwice`; or `OutOfMemory`.
pub fn read_field(alloc: Global, bytes: &mut [u8]) -> Result<FieldText, LdfFault>
    ensures found { IfOk result (ReadsFieldText bytes.old) }
    ensures only { (t : FieldText) → ReadsFieldText bytes.old t
        → MatchResult result (λ found. found ≡ t) (λ e. e ≡ OutOfMemory) }
    ensures one { (t u : FieldText) → ReadsFieldText bytes.old t → ReadsFieldText bytes.old u → t ≡ u }
    ensures left { IfOk result (λ t. bytes.new ≡ text_with_blanks (field_bytes bytes.old) t.marks) }
    ensures first { (e : LdfFault) → IsLexFault (field_bytes bytes.old) e → e ≢ OutOfMemory
        → IsErrAnd result (λ found. (found ≡ e) ⊎ (found ≡ OutOfMemory)) }
{
    read_over_bytes(bytes);
    if !has_suspect(bytes) {
        return read_unmarked(alloc, bytes);
    }
    let marks = extra_marks(alloc, bytes)?;
    read_over_marks(bytes, marks.as_slice());
    let loose = file(&mut Parser::new(alloc, bytes))?;
    Ok(FieldText {
        loose,
        marks: Many::new(marks),
    })
}
