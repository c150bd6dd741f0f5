//! The statements of a text: sections and lines, and in the groups of sections blocks and attributes.

ghost use Rattle.std.specs.Prelude.{◌≡◌, OnOk};
ghost use Rattle.lin_ldf.specs.Forms.{Gives};
ghost use Rattle.lin_sections.specs.Statements.{tokens_left, behind_statement, inside, is_group};

use lin_ldf::{LdfFault, Parser, TokenKind};
use std::alloc::AllocError;

/// Whether a word and a group are next.
pub(crate) fn is_group(parser: &Parser<'_>) -> bool
    ensures { result ≡ is_group parser.now }
{
    let mut ahead = parser.ahead();
    ahead.skip();
    parser.is_at(TokenKind::Word) && ahead.is_at(TokenKind::OpenBrace)
}

/// A parser of what is in this group.
pub(crate) fn inside<'a>(parser: &Parser<'a>) -> Parser<'a>
    ensures { result ≡ inside parser.now }
{
    let mut ahead = parser.ahead();
    ahead.skip();
    ahead.skip();
    ahead
}

/// What was read is passed over; all tokens if it wasn't in its form.
fn pass_read(parser: &mut Parser<'_>, read: Result<(), LdfFault>) -> Result<(), AllocError>
    ensures { (form : _) → Gives read parser.old form → OnOk result (parser.new ≡ tokens_left form) }
{
    match read {
        Ok(()) => Ok(()),
        Err(fault) => match fault {
            LdfFault::OutOfMemory => Err(AllocError),
            _ => {
                *parser = Parser::new(parser.alloc(), &[]);
                Ok(())
            }
        },
    }
}

/// A word and its group, or what ends with the next semicolon outside of braces. (Of the tokens in it
/// the kinds alone are looked at.)
pub(crate) fn pass_statement(parser: &mut Parser<'_>) -> Result<(), AllocError>
    ensures { OnOk result (parser.new ≡ behind_statement parser.old) }
{
    if is_group(parser) {
        parser.skip();
        let read = parser.group();
        return pass_read(parser, read);
    }
    let read = parser.list();
    pass_read(parser, read)
}
