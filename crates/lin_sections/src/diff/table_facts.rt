//! The facts of schedule tables, and their entries.

ghost use Rattle.std.specs.Prelude.{◌≡◌, ◌++◌, [], IfOk, OnOk, flat_map, map};
ghost use Rattle.std.specs.List.{list_any};
ghost use Rattle.lin_cluster.specs.Names.{NumbersFirst};
ghost use Rattle.lin_ldf.specs.Stream.{start_of};
ghost use Rattle.lin_ldf.specs.Symbols.{symbols_in};
ghost use Rattle.lin_sections.specs.NewNames.{renames_data};
ghost use Rattle.lin_sections.specs.Numbering.{numbered_entries};
ghost use Rattle.lin_sections.specs.Renames.{all_table_names, table_keys, table_keys_of, words_key};
ghost use Rattle.lin_sections.specs.Statements.{statements};
ghost use Rattle.lin_sections.specs.Things.{compared_data, entry_facts, entries_in, entry_fact, entry_word};
ghost use Rattle.lin_sections.specs.Things.{has_command, lines_of_table, load_facts, section_tables};
ghost use Rattle.lin_sections.specs.Things.{slack_text, named_lines, table_thing, table_thing_of, table_things, text_tables};
ghost use Rattle.lin_sections.specs.NewNames.{AddsKeys};
ghost use Rattle.lin_sections.specs.Renames.{AreKeys};

use crate::configurable_lists::name_here;
use crate::diff::compared::LdfFacts;
use crate::diff::fact::{Class, EntryFact, Fact, Thing, ThingKind, add_fact};
use crate::diff::fact_text::{FactText, number_text, put_number};
use crate::diff::frame_facts::is_added;
use crate::diff::header_facts::place_of as place_of_number;
use crate::diff::new_names::{Keyed, KnownNames};
use crate::diff::node_facts::place_of;
use crate::diff::numbering::numbered;
use crate::diff::renames::Renames;
use crate::diff::tokens::command_text;
use crate::skipping::{has_line, pass_line};
use crate::statements::{inside, is_group, pass_statement};
use lin_cluster::{Named, Numbers, find_by, numbers_of};
use lin_ldf::Parser;
use lin_parts::Location;
use lin_parts::description::{Name, Table, TableEntry};
use lin_schedule::TableLoad;
use lin_text::Many;
use std::alloc::{AllocError, Global};

/// The place in an LDF where the entries of a schedule table begin.
#[derive(Drop)]
struct TableLines<'a> {
    name: Name,
    inside: Parser<'a>,
}

impl<'a> Named for TableLines<'a> {
    ghost name_of = { λ t. t.name };

    fn name(&self) -> &Name {
        &self.name
    }
}

/// Adds the next statement if it is a table.
#[tactic(auto, using(crate::proofs::StatementSteps::nothing_more))]
fn add_table<'a>(parser: &Parser<'a>, tables: &mut Vec<TableLines<'a>>) -> Result<(), AllocError>
    ensures { OnOk result (tables.new.items ≡ tables.old.items ++ named_lines parser.now) }
{
    if !is_group(parser) {
        return Ok(());
    }
    let name = name_here(parser)?;
    let inside = inside(parser);
    tables.push(TableLines { name, inside })?;
    Ok(())
}

/// Adds the tables of a section.
fn add_tables<'a>(
    parser: &mut Parser<'a>,
    tables: &mut Vec<TableLines<'a>>,
) -> Result<(), AllocError>
    ensures { OnOk result
        (tables.new.items ≡ tables.old.items ++ flat_map named_lines (statements parser.old)) }
{
    while has_line(parser) {
        add_table(parser, tables)?;
        pass_statement(parser)?;
    }
    Ok(())
}

/// Adds the tables of the next section if it is `Schedule_tables`.
#[tactic(auto, using(crate::proofs::StatementSteps::nothing_more))]
fn add_section<'a>(parser: &Parser<'a>, tables: &mut Vec<TableLines<'a>>) -> Result<(), AllocError>
    ensures { OnOk result (tables.new.items ≡ tables.old.items ++ section_tables parser.now) }
{
    if is_group(parser) && parser.is_at_word(b"Schedule_tables") {
        return add_tables(&mut inside(parser), tables);
    }
    Ok(())
}

/// Whether a table has a configuration entry.
fn has_command(table: &Table) -> bool
    ensures { result ≡ has_command table.now }
{
    for entry in table.entries.as_slice() {
        if entry.has_group {
            return true;
        }
    }
    false
}

/// Whether one of the tables has a configuration entry.
fn has_commands(tables: &[Table]) -> bool
    ensures { result ≡ list_any has_command tables.now }
{
    for table in tables {
        if has_command(table) {
            return true;
        }
    }
    false
}

/// Returns where the entries of the tables begin. The result is empty if no table has a configuration
/// entry.
fn text_tables<'a>(
    alloc: Global,
    source: &'a [u8],
    declared: &[Table],
) -> Result<Vec<TableLines<'a>>, AllocError>
    ensures { IfOk result (λ v. v.items
        ≡ text_tables (symbols_in source.now (start_of source.now).tokens) declared.now) }
{
    let mut tables = Vec::new(alloc);
    if !has_commands(declared) {
        return Ok(tables);
    }
    let mut parser = Parser::new(alloc, source);
    while has_line(&parser) {
        add_section(&parser, &mut tables)?;
        pass_statement(&mut parser)?;
    }
    Ok(tables)
}

/// Returns a parser at the first entry of a table, or at the end of the LDF without that table.
fn lines_of<'a>(
    alloc: Global,
    numbers: &Numbers<'_>,
    lines: &[TableLines<'a>],
    name: &Name,
) -> Parser<'a>
    requires { NumbersFirst (λ l. l.name) lines.now numbers.now.map }
    ensures { result ≡ lines_of_table lines.now name.now }
{
    match find_by(numbers, lines, name) {
        Some(own) => own.inside.ahead(),
        None => Parser::new(alloc, &[]),
    }
}

/// Returns the word of an entry: the new name of its frame, or the configuration command at `line`.
fn entry_word<'a>(
    alloc: Global,
    entry: &'a TableEntry,
    line: &Parser<'a>,
    renames: &Renames<'a>,
) -> Result<FactText<'a>, AllocError>
    ensures { IfOk result (λ t. t ≡ entry_word (renames_data renames.now) entry.now line.now) }
{
    if entry.has_group && has_line(line) {
        return command_text(alloc, line, renames);
    }
    Ok(FactText::lent(renames.frames.of(entry.name.text.as_slice())))
}

/// Returns the fact of an entry. `position` is the number of entries before it.
fn entry_fact<'a>(
    alloc: Global,
    word: FactText<'a>,
    position: usize,
    entry: &TableEntry,
) -> Result<EntryFact<'a>, AllocError>
    ensures { IfOk result (λ e. e ≡ entry_fact word.entry position entry.now) }
{
    Ok(EntryFact {
        word,
        again: None,
        position: number_text(alloc, position as u64)?,
        place: place_of(&entry.name),
        delay: number_text(alloc, u64::from(entry.delay.value))?,
        delay_place: place_of_number(entry.delay),
    })
}

/// Returns the facts of entries. `lines` is at the first entry.
fn entries_of<'a>(
    alloc: Global,
    entries: &'a [TableEntry],
    lines: Parser<'a>,
    renames: &Renames<'a>,
) -> Result<Vec<EntryFact<'a>>, AllocError>
    ensures { IfOk result (λ v. v.items
        ≡ numbered_entries (entry_facts (renames_data renames.now) 0 lines.entry entries.now)) }
{
    let mut line = lines;
    let mut found = Vec::new(alloc);
    for (position, entry) in entries.iter().enumerate() {
        let word = entry_word(alloc, entry, &line, renames)?;
        found.push(entry_fact(alloc, word, position, entry)?)?;
        pass_line(&mut line);
    }
    numbered(alloc, found)
}

/// Returns the least slack of a table's slots in microseconds, with `-` if a delay is too short.
fn slack_text<'a>(alloc: Global, load: TableLoad) -> Result<FactText<'a>, AllocError>
    ensures { IfOk result (λ t. t ≡ slack_text load) }
{
    if load.needed_us <= load.delay_us {
        return FactText::number(alloc, load.delay_us - load.needed_us);
    }
    let mut text = Vec::from_slice(alloc, b"-")?;
    put_number(&mut text, load.needed_us - load.delay_us)?;
    FactText::copied(alloc, text.as_slice())
}

/// Returns the facts of a table's load. `place` is the place of its name.
fn load_facts<'a>(
    alloc: Global,
    load: TableLoad,
    place: Location,
) -> Result<Vec<Fact<'a>>, AllocError>
    ensures { IfOk result (λ v. v.items ≡ load_facts load place) }
{
    let mut found = Vec::new(alloc);
    let cycle = FactText::number(alloc, load.cycle_us)?;
    add_fact(&mut found, b"cycle", cycle, place, Class::Timing)?;
    let thousandths = FactText::number(alloc, load.load)?;
    add_fact(&mut found, b"load", thousandths, place, Class::Timing)?;
    let slack = slack_text(alloc, load)?;
    add_fact(&mut found, b"slack", slack, place, Class::Timing)?;
    Ok(found)
}

/// Returns a table as a thing with these entries.
fn thing<'a>(
    alloc: Global,
    table: &'a Table,
    load: TableLoad,
    new_name: &'a [u8],
    entries: Vec<EntryFact<'a>>,
) -> Result<Thing<'a>, AllocError>
    ensures { IfOk result (λ t. t ≡ table_thing new_name.now table.now load entries.entry.items) }
{
    let place = place_of(&table.name);
    let found = load_facts(alloc, load, place)?;
    Ok(Thing {
        kind: ThingKind::Table,
        name: FactText::lent(table.name.text.as_slice()),
        new_name: FactText::lent(new_name),
        place,
        facts: Many::new(found),
        entries: Many::new(entries),
        taken: Many::new(Vec::new(alloc)),
    })
}

/// Returns the entries of a table. `lines` has where the tables of the LDF begin, and `numbers` has the
/// number of each name.
fn table_entries<'a>(
    alloc: Global,
    table: &'a Table,
    numbers: &Numbers<'_>,
    lines: &[TableLines<'a>],
    renames: &Renames<'a>,
) -> Result<Vec<EntryFact<'a>>, AllocError>
    requires { NumbersFirst (λ l. l.name) lines.now numbers.now.map }
    ensures { IfOk result (λ v. v.items ≡ entries_in lines.now (renames_data renames.now) table.now) }
{
    let own = lines_of(alloc, numbers, lines, &table.name);
    entries_of(alloc, table.entries.as_slice(), own, renames)
}

/// Adds a table, unless `--field` added it.
#[tactic(auto, using(crate::proofs::StatementSteps::nothing_more))]
fn add_thing<'a>(
    alloc: Global,
    things: &mut Vec<Thing<'a>>,
    declared: (&'a Table, TableLoad),
    numbers: &Numbers<'_>,
    lines: &[TableLines<'a>],
    renames: &Renames<'a>,
) -> Result<(), AllocError>
    requires { NumbersFirst (λ l. l.name) lines.now numbers.now.map }
    ensures { OnOk result (things.new.items ≡ things.old.items
        ++ table_thing_of lines.now (renames_data renames.now) declared.entry.0.now declared.entry.1) }
{
    let (table, load) = declared;
    if is_added(&table.name) {
        return Ok(());
    }
    let entries = table_entries(alloc, table, numbers, lines, renames)?;
    let new_name = renames.tables.of(table.name.text.as_slice());
    things.push(thing(alloc, table, load, new_name, entries)?)?;
    Ok(())
}

/// Returns the schedule tables as things, without the tables that `--field` added.
pub(crate) fn things<'a>(
    alloc: Global,
    facts: &LdfFacts<'a>,
    renames: &Renames<'a>,
) -> Result<Vec<Thing<'a>>, AllocError>
    ensures { IfOk result (λ v. v.items
        ≡ table_things (compared_data facts.now.ldf) (renames_data renames.now)) }
{
    let tables = facts.ldf.description.tables();
    let lines = text_tables(alloc, facts.ldf.source, tables)?;
    let numbers = numbers_of(alloc, lines.as_slice())?;
    let loads = facts.ldf.loads;
    let mut things = Vec::new(alloc);
    for number in 0..tables.len().min(loads.len()) {
        let declared = (&tables[number], loads[number]);
        add_thing(
            alloc,
            &mut things,
            declared,
            &numbers,
            lines.as_slice(),
            renames,
        )?;
    }
    Ok(things)
}

/// Returns the words of entries, a line for each.
fn words_text<'a>(alloc: Global, entries: &[EntryFact<'_>]) -> Result<FactText<'a>, AllocError>
    ensures { IfOk result (λ t. t ≡ words_key entries.now) }
{
    let mut text = Vec::new(alloc);
    for entry in entries {
        text.extend_from_slice(entry.word.as_slice())?;
        text.push(b'\n')?;
    }
    FactText::copied(alloc, text.as_slice())
}

/// Adds the key of a table if its name isn't among other names and `--field` didn't add it.
#[tactic(auto, using(crate::proofs::StatementSteps::nothing_more))]
fn add_key<'a>(
    alloc: Global,
    keys: &mut Vec<Keyed<'a>>,
    declared: (&'a Table, &KnownNames<'_>),
    numbers: &Numbers<'_>,
    lines: &[TableLines<'a>],
    renames: &Renames<'a>,
) -> Result<(), AllocError>
    requires { NumbersFirst (λ l. l.name) lines.now numbers.now.map }
    ensures { OnOk result (AddsKeys declared.entry.1.now keys.old.items keys.new.items (table_keys_of lines.now (renames_data renames.now) declared.entry.0.now)) }
{
    let (table, others) = declared;
    let name = table.name.text.as_slice();
    if is_added(&table.name) || others.has(name) {
        return Ok(());
    }
    let entries = table_entries(alloc, table, numbers, lines, renames)?;
    let key = words_text(alloc, entries.as_slice())?;
    keys.push(Keyed { name, key })?;
    Ok(())
}

/// Returns the keys of the tables whose names the other LDF doesn't have: the words of their entries.
pub(crate) fn keys<'a>(
    alloc: Global,
    facts: &LdfFacts<'a>,
    other: &LdfFacts<'_>,
    renames: &Renames<'a>,
) -> Result<Vec<Keyed<'a>>, AllocError>
    ensures { IfOk result (λ v. AreKeys all_table_names other.now v.items
        (table_keys (compared_data facts.now.ldf) (renames_data renames.now))) }
{
    let others = KnownNames::of(alloc, other.ldf.description.tables())?;
    let tables = facts.ldf.description.tables();
    let lines = text_tables(alloc, facts.ldf.source, tables)?;
    let numbers = numbers_of(alloc, lines.as_slice())?;
    let mut keys = Vec::new(alloc);
    for table in tables {
        add_key(
            alloc,
            &mut keys,
            (table, &others),
            &numbers,
            lines.as_slice(),
            renames,
        )?;
    }
    Ok(keys)
}
