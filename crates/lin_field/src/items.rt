//! Declarations of the field: how the items of each list are spelled, and read.

ghost use Rattle.std.specs.Prelude.{◌≡◌};
ghost use Rattle.lin_ldf.specs.Forms.{Gives};
ghost use Rattle.lin_field.specs.Grammar.{loose_init, optional_size, event_table, loose_settings};

use crate::loose::{
    LooseAttributes, LooseEntry, LooseEvent, LooseFrame, LooseInit, LooseSignal, LooseTable,
    NodeAddress,
};
use crate::rounded_decimals::decimal_in;
use crate::wide::wide_int;
use lin_ldf::{
    AttributeSettings, Gathered, ItemForm, LdfFault, ListItem, Names, NodeBlocks, Parser,
    TokenKind, Whole, block, gather, once, one_or_more,
};
use lin_parts::description::{Attributes, Name, Number};

// init = WIDE | array
fn init(parser: &mut Parser<'_>) -> Result<LooseInit, LdfFault>
    ensures { Gives result parser.new (loose_init.read parser.old) }
{
    if !parser.is_at(TokenKind::OpenBrace) {
        return Ok(LooseInit::Scalar(wide_int(parser)?));
    }
    let place = parser.opening()?;
    let values = one_or_more(parser, &mut (), TokenKind::CloseBrace)?;
    Ok(LooseInit::Array(place, values))
}

impl<'a> ItemForm<Names<'a>> for LooseSignal {
    ghost use Rattle.lin_field.specs.Items.{loose_signal_items};

    ghost items = { loose_signal_items };
}

impl<'a> ListItem<'a, Names<'a>> for LooseSignal {
    // signal = WORD ':' INT ',' init ',' WORD { ',' WORD }* ';'
    fn parse(parser: &mut Parser<'a>, seen: &mut Names<'a>) -> Result<LooseSignal, LdfFault> {
        let name = parser.declared_before(seen, TokenKind::Colon)?;
        let size = parser.int_before(TokenKind::Comma)?;
        let init = init(parser)?;
        parser.mark(TokenKind::Comma)?;
        let publisher = parser.word()?;
        let subscribers = parser.other_words()?;
        Ok(LooseSignal {
            name,
            size,
            init,
            publisher,
            subscribers,
        })
    }
}

// [ ',' INT ]
fn frame_size(parser: &mut Parser<'_>) -> Result<Option<Number>, LdfFault>
    ensures { Gives result parser.new (optional_size.read parser.old) }
{
    if !parser.is_at(TokenKind::Comma) {
        return Ok(None);
    }
    parser.mark(TokenKind::Comma)?;
    Ok(Some(parser.int()?))
}

impl<'a> ItemForm<Names<'a>> for LooseFrame {
    ghost use Rattle.lin_field.specs.Items.{loose_frame_items};

    ghost items = { loose_frame_items };
}

impl<'a> ListItem<'a, Names<'a>> for LooseFrame {
    // frame = WORD ':' INT ',' WORD [ ',' INT ] '{' { placed }* '}'
    fn parse(parser: &mut Parser<'a>, seen: &mut Names<'a>) -> Result<LooseFrame, LdfFault> {
        let name = parser.declared_before(seen, TokenKind::Colon)?;
        let id = parser.int_before(TokenKind::Comma)?;
        let publisher = parser.word()?;
        let size = frame_size(parser)?;
        let placed = block(parser, &mut ())?;
        Ok(LooseFrame {
            name,
            id,
            publisher,
            size,
            placed,
        })
    }
}

// [ WORD ',' ]
fn event_table(parser: &mut Parser<'_>) -> Result<Option<Name>, LdfFault>
    ensures { Gives result parser.new (event_table.read parser.old) }
{
    if !parser.is_at(TokenKind::Word) {
        return Ok(None);
    }
    Ok(Some(parser.word_before(TokenKind::Comma)?))
}

impl<'a> ItemForm<Names<'a>> for LooseEvent {
    ghost use Rattle.lin_field.specs.Items.{loose_event_items};

    ghost items = { loose_event_items };
}

impl<'a> ListItem<'a, Names<'a>> for LooseEvent {
    // event = WORD ':' [ WORD ',' ] INT ',' words ';'
    fn parse(parser: &mut Parser<'a>, seen: &mut Names<'a>) -> Result<LooseEvent, LdfFault> {
        let name = parser.declared_before(seen, TokenKind::Colon)?;
        let table = event_table(parser)?;
        let id = parser.int_before(TokenKind::Comma)?;
        let members = one_or_more(parser, &mut (), TokenKind::Semicolon)?;
        Ok(LooseEvent {
            name,
            table,
            id,
            members,
        })
    }
}

/// What was read of a block of attributes.
#[derive(Drop)]
pub struct LooseSettings {
    pub plain: AttributeSettings,
    pub initial_nad: Option<Number>,
}

impl Whole for LooseSettings {
    ghost use Rattle.lin_field.specs.Grammar.{loose_attr};
    ghost use Rattle.lin_field.specs.GrammarLaws.{loose_attr_takes};

    ghost form = { loose_attr };

    ghost shrinks = { λ s. (loose_attr_takes s).shrinks };
}

impl<'a> Gathered<'a> for LooseSettings {
    // attr = .. | 'initial_NAD' '=' INT ';', once at most
    fn add(&mut self, parser: &mut Parser<'a>) -> Result<(), LdfFault> {
        if !parser.is_at_word(b"initial_NAD") {
            return self.plain.add(parser);
        }
        once(&self.initial_nad, LdfFault::NameTwice(parser.place()))?;
        self.initial_nad = Some(parser.nad(b"initial_NAD")?);
        Ok(())
    }
}

// '{' { attr }* '}'
fn settings(parser: &mut Parser<'_>) -> Result<LooseSettings, LdfFault>
    ensures { Gives result parser.new (loose_settings.read parser.old) }
{
    parser.mark(TokenKind::OpenBrace)?;
    let mut settings = LooseSettings {
        plain: AttributeSettings {
            protocol: None,
            configured_nad: None,
            response_error: None,
        },
        initial_nad: None,
    };
    gather(parser, &mut settings)?;
    parser.mark(TokenKind::CloseBrace)?;
    Ok(settings)
}

impl<'a> ItemForm<NodeBlocks<'a>> for LooseAttributes {
    ghost use Rattle.lin_field.specs.Items.{loose_attribute_items};

    ghost items = { loose_attribute_items };
}

impl<'a> ListItem<'a, NodeBlocks<'a>> for LooseAttributes {
    // attribute_block = WORD settings
    fn parse(
        parser: &mut Parser<'a>,
        blocks: &mut NodeBlocks<'a>,
    ) -> Result<LooseAttributes, LdfFault> {
        let node = parser.node_of_block(blocks)?;
        let LooseSettings { plain, initial_nad } = settings(parser)?;
        Ok(LooseAttributes {
            block: Attributes {
                node,
                protocol: plain.protocol,
                configured_nad: plain.configured_nad,
                response_error: plain.response_error,
            },
            initial_nad,
        })
    }
}

impl ItemForm<()> for NodeAddress {
    ghost use Rattle.lin_field.specs.Items.{address_items};

    ghost items = { address_items };
}

impl<'a> ListItem<'a, ()> for NodeAddress {
    // address = WORD ':' INT ';'
    fn parse(parser: &mut Parser<'a>, _state: &mut ()) -> Result<NodeAddress, LdfFault> {
        let node = parser.word_before(TokenKind::Colon)?;
        let nad = parser.int_before(TokenKind::Semicolon)?;
        Ok(NodeAddress { node, nad })
    }
}

impl ItemForm<()> for LooseEntry {
    ghost use Rattle.lin_field.specs.Items.{loose_entry_items};

    ghost items = { loose_entry_items };
}

impl<'a> ListItem<'a, ()> for LooseEntry {
    // entry = WORD [ group ] 'delay' DECR 'ms' ';'
    fn parse(parser: &mut Parser<'a>, _state: &mut ()) -> Result<LooseEntry, LdfFault> {
        let name = parser.word()?;
        let has_group = parser.has_group()?;
        parser.keyword(b"delay")?;
        let delay = decimal_in(parser, b"ms", TokenKind::Semicolon)?;
        Ok(LooseEntry {
            name,
            has_group,
            delay,
        })
    }
}

impl<'a> ItemForm<Names<'a>> for LooseTable {
    ghost use Rattle.lin_field.specs.Items.{loose_table_items};

    ghost items = { loose_table_items };
}

impl<'a> ListItem<'a, Names<'a>> for LooseTable {
    // table = WORD '{' { entry }* '}'
    fn parse(parser: &mut Parser<'a>, seen: &mut Names<'a>) -> Result<LooseTable, LdfFault> {
        let name = parser.declared(seen)?;
        let entries = block(parser, &mut ())?;
        Ok(LooseTable { name, entries })
    }
}
