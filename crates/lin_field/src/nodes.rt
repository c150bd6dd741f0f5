//! The nodes of a text of the field.

ghost use Rattle.std.specs.Prelude.{◌≡◌, [], IfOk};
ghost use Rattle.lin_ldf.specs.Forms.{Gives};
ghost use Rattle.lin_ldf.specs.Words.{with_name};
ghost use Rattle.lin_field.specs.Grammar.{loose_master, master_rest, loose_nodes, loose_node_names};

use crate::loose::{LooseNodes, RoundedDecimal};
use crate::rounded_decimals::{decimal_in, read_decimal};
use lin_ldf::{LdfFault, Names, Parser, TokenKind};
use lin_parts::description::Name;

// [ ',' list ] ';'
fn master_rest(parser: &mut Parser<'_>) -> Result<(), LdfFault>
    ensures { Gives result parser.new (master_rest.read parser.old) }
{
    if parser.is_at(TokenKind::Comma) {
        parser.mark(TokenKind::Comma)?;
        parser.list()
    } else {
        parser.mark(TokenKind::Semicolon)
    }
}

// master = 'Master' ':' WORD ',' DECR 'ms' ',' DECR 'ms' [ ',' list ] ';'
fn master<'a>(
    parser: &mut Parser<'a>,
    seen: &mut Names<'a>,
) -> Result<(Name, (RoundedDecimal, RoundedDecimal)), LdfFault>
    ensures read { Gives result parser.new ((loose_master seen.old).read parser.old) }
    ensures names { IfOk result (λ m. seen.new ≡ with_name seen.old m.0) }
{
    parser.keyword_before(b"Master", TokenKind::Colon)?;
    let name = parser.declared_before(seen, TokenKind::Comma)?;
    let time_base = decimal_in(parser, b"ms", TokenKind::Comma)?;
    let jitter = read_decimal(parser)?;
    parser.keyword(b"ms")?;
    master_rest(parser)?;
    Ok((name, (time_base, jitter)))
}

/// Reads the nodes: `'Nodes' '{' master slaves`. `seen` has their names afterwards.
pub fn nodes<'a>(parser: &mut Parser<'a>, seen: &mut Names<'a>) -> Result<LooseNodes, LdfFault>
    requires { seen.old ≡ [] }
    ensures read { Gives result parser.new (loose_nodes.read parser.old) }
    ensures names { IfOk result (λ n. seen.new ≡ loose_node_names n) }
{
    parser.keyword_before(b"Nodes", TokenKind::OpenBrace)?;
    let (master, (time_base, jitter)) = master(parser, seen)?;
    let slaves = parser.slaves(seen)?;
    Ok(LooseNodes {
        master,
        time_base,
        jitter,
        slaves,
    })
}
