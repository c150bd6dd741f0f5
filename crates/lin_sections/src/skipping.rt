//! Tokens that are passed over: lines, and groups in braces.

ghost use Rattle.std.specs.Prelude.{◌≡◌, ◌+◌, ◌<◌, ◌≤◌, ◌^◌};
ghost use Rattle.lin_sections.specs.Passed.{behind_block, behind_closing, behind_group, behind_line};
ghost use Rattle.lin_sections.specs.Passed.{behind_lines, brace_depth, has_line};

use lin_ldf::{Parser, TokenKind};

/// Whether a token is left in the group.
pub(crate) fn has_line(parser: &Parser<'_>) -> bool
    ensures { result ≡ has_line parser.now }
{
    match parser.front_kind() {
        Some(TokenKind::CloseBrace) | None => false,
        Some(_) => true,
    }
}

/// How many braces are open after a token.
pub(crate) fn depth_behind(depth: usize, kind: TokenKind) -> usize
    requires { depth + 1 < 2 ^ 64 }
    ensures depth { result ≡ brace_depth depth kind }
    ensures one_more { result ≤ depth + 1 }
{
    match kind {
        TokenKind::OpenBrace => depth + 1,
        TokenKind::CloseBrace => depth.saturating_sub(1),
        _ => depth,
    }
}

/// Tokens up to the next semicolon outside of braces, and with it; or up to the brace that closes
/// the group.
#[tactic(auto, using(crate::proofs::PassedSteps::passing))]
pub(crate) fn pass_line(parser: &mut Parser<'_>)
    ensures { parser.new ≡ behind_line 0 parser.old }
{
    let left = parser.left();
    let mut depth = 0usize;
    while let Some(kind) = parser.front_kind() {
        if depth == 0 && kind == TokenKind::CloseBrace {
            return;
        }
        parser.skip();
        if depth == 0 && kind == TokenKind::Semicolon {
            return;
        }
        depth = depth_behind(depth, kind);
    }
}

/// Lines up to the brace that closes their group.
fn pass_lines(parser: &mut Parser<'_>)
    ensures { parser.new ≡ behind_lines parser.old }
{
    while has_line(parser) {
        pass_line(parser);
    }
}

/// A closing brace, if it is next.
pub(crate) fn pass_closing(parser: &mut Parser<'_>)
    ensures { parser.new ≡ behind_closing parser.old }
{
    if parser.is_at(TokenKind::CloseBrace) {
        parser.skip();
    }
}

/// A group, from its opening brace on.
pub(crate) fn pass_group(parser: &mut Parser<'_>)
    ensures { parser.new ≡ behind_group parser.old }
{
    parser.skip();
    pass_lines(parser);
    pass_closing(parser);
}

/// Tokens up to the end of the next group, or up to a semicolon before it, and with it; or up to the
/// brace that closes more.
#[tactic(auto, using(crate::proofs::PassedSteps::passing_a_block))]
pub(crate) fn pass_block(parser: &mut Parser<'_>)
    ensures { parser.new ≡ behind_block parser.old }
{
    while let Some(kind) = parser.front_kind() {
        if kind == TokenKind::CloseBrace {
            return;
        }
        if kind == TokenKind::OpenBrace {
            pass_group(parser);
            return;
        }
        parser.skip();
        if kind == TokenKind::Semicolon {
            return;
        }
    }
}
