//! Tokens that are read over: of them the kinds alone are looked at.

ghost use Rattle.std.specs.Prelude.{◌≡◌, ◌+◌, ◌<◌, ◌≤◌, ◌^◌, ℕ, List, IfSome, length};
ghost use Rattle.lin_ldf.specs.Skimming.{SkipsPiece, Skims};
ghost use Rattle.lin_ldf.specs.UpTo.{is_end, depth_behind};

use crate::lexer::{Scanned, front_piece};
use crate::token::{TokenKind, same_kind};

/// Whether a token of this kind is an `end` outside of all braces, of which `depth` are open.
pub fn is_end(end: TokenKind, depth: usize, kind: TokenKind) -> bool
    ensures { result ≡ is_end end depth kind }
{
    depth == 0 && same_kind(end, kind)
}

/// How many braces are open after a token, where `depth` were open before.
pub fn depth_behind(depth: usize, kind: TokenKind) -> Option<usize>
    requires { depth + 1 < 2 ^ 64 }
    ensures depth { result ≡ depth_behind depth kind }
    ensures one_more { IfSome result (λ n. n ≤ depth + 1) }
{
    if same_kind(TokenKind::OpenBrace, kind) {
        Some(depth + 1)
    } else if !same_kind(TokenKind::CloseBrace, kind) {
        Some(depth)
    } else if depth == 0 {
        None
    } else {
        Some(depth - 1)
    }
}

/// How many bytes a piece has that is read over, and how many braces are open behind it. Nothing
/// where it is a fault, an `end` outside of all braces, or a brace that closes none.
#[inline(always)]
fn passed(end: TokenKind, depth: usize, piece: Scanned) -> Option<(usize, usize)>
    requires { depth + 1 < 2 ^ 64 }
    ensures passes { IfSome result (λ p. SkipsPiece end depth piece p.0 p.1) }
    ensures one_more { IfSome result (λ p. p.1 ≤ depth + 1) }
{
    match piece {
        Scanned::Gap(size) => Some((size, depth)),
        Scanned::Token(kind, size) => {
            if is_end(end, depth, kind) {
                return None;
            }
            match depth_behind(depth, kind) {
                Some(depth) => Some((size, depth)),
                None => None,
            }
        }
        _ => None,
    }
}

/// How many bytes at the front of a text are read over, up to an `end` outside of all braces, a
/// brace that closes none, or a fault; and how many braces are open behind them, where `depth` were
/// open before. (None, where too many are open to count those of the text.)
pub fn skimmed(end: TokenKind, depth: usize, text: &[u8]) -> (usize, usize)
    ensures skims { Skims end depth text.now result.0 result.1 }
    ensures within { result.0 ≤ length text.now }
{
    if usize::MAX - text.len() <= depth {
        return (0, depth);
    }
    let mut open = depth;
    let mut rest = text;
    while !rest.is_empty() {
        match passed(end, open, front_piece(rest)) {
            Some((size, now)) => {
                open = now;
                let (_, behind) = rest.split_at(size);
                rest = behind;
            }
            None => break,
        }
    }
    (text.len() - rest.len(), open)
}
