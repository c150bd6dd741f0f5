//! The problems of an LDF that are reported.

ghost use Rattle.std.specs.Prelude.{◌≡◌, ◌++◌, ◌∷◌, [], codes, flat_map, map};
ghost use Rattle.std.specs.Fmt.{decimal};
ghost use Rattle.std.specs.Option.{option_map_or, option_to_list};
ghost use Rattle.lin_log.specs.Words.{spaced_word};
ghost use Rattle.lin_text.specs.Written.{Grows};
ghost use Rattle.lin_export.specs.CheckObject.{count_or_null, list_member, place_members, problem_line, problem_object};
ghost use Rattle.lin_export.specs.CheckObject.{problem_words};
ghost use Rattle.lin_export.specs.Csv.{after_comma};
ghost use Rattle.lin_export.specs.Found.{place_data, problem_data};
ghost use Rattle.lin_export.specs.Json.{escaped_text, member, null};
ghost use Rattle.lin_export.specs.Members.{member_shown};

use crate::json::{Member, put_first, put_list, put_member, put_members, put_separator};
use lin_log::{put_number, put_word};
use lin_parts::Location;
use lin_text::{Text, TextWriter};
use std::io::Write;

/// A problem of an LDF that is reported, as its line of `check --where` has it.
#[derive(Debug, Drop)]
pub struct Problem {
    /// `fault`, `finding` or `warning`.
    pub kind: &'static str,
    /// `None` for a problem of the whole file, which has no place and no token either.
    pub number: Option<u32>,
    pub name: &'static str,
    /// The time in microseconds that a short slot needs.
    pub needed_us: Option<u64>,
    pub place: Option<Location>,
    /// The token at the place, as it is shown.
    pub token: Option<Text>,
}

fn number_member(number: Option<u32>) -> Member<'static>
    ensures { member_shown result ≡ member (codes "number") (count_or_null number) }
{
    match number {
        Some(number) => Member::Number("number", u64::from(number)),
        None => Member::Null("number"),
    }
}

fn needed_member(needed_us: Option<u64>) -> Member<'static>
    ensures { member_shown result ≡ member (codes "needed_us") (count_or_null needed_us) }
{
    match needed_us {
        Some(needed) => Member::Number("needed_us", needed),
        None => Member::Null("needed_us"),
    }
}

/// A line and a column.
fn put_place<W: Write>(out: &mut TextWriter<'_, W>, place: Option<Location>)
    ensures { Grows W.contents out.old out.new (flat_map after_comma (place_members (place_data place))) }
{
    match place {
        Some(place) => put_members(
            out,
            &[
                Member::Number("line", place.line),
                Member::Number("column", place.column),
            ],
        ),
        None => put_members(out, &[Member::Null("line"), Member::Null("column")]),
    }
}

fn token_member(token: &Option<Text>) -> Member<'_>
    ensures { member_shown result ≡ member (codes "token")
        (option_map_or escaped_text token.now null) }
{
    match token {
        Some(token) => Member::Escaped("token", token.as_slice()),
        None => Member::Null("token"),
    }
}

fn put_problem<W: Write>(out: &mut TextWriter<'_, W>, problem: &Problem)
    ensures { Grows W.contents out.old out.new (problem_object (problem_data problem.now)) }
{
    put_first(out, "kind", problem.kind.as_bytes());
    put_members(
        out,
        &[
            number_member(problem.number),
            Member::Text("name", problem.name.as_bytes()),
            needed_member(problem.needed_us),
        ],
    );
    put_place(out, problem.place);
    put_member(out, token_member(&problem.token));
    out.put_byte(b'}');
}

/// The problems that are reported.
pub(super) fn put_problems<W: Write>(out: &mut TextWriter<'_, W>, problems: &[Problem])
    ensures { Grows W.contents out.old out.new
        (after_comma (list_member (codes "told") (map (λ p. problem_object (problem_data p)) problems.now))) }
{
    put_list(out, "told");
    for place in 0..problems.len() {
        put_separator(out, place);
        put_problem(out, &problems[place]);
    }
    out.put_byte(b']');
}

/// The time that a short slot needs.
fn put_needed<W: Write>(out: &mut TextWriter<'_, W>, needed_us: Option<u64>)
    ensures { Grows W.contents out.old out.new
        (flat_map spaced_word (map decimal (option_to_list needed_us))) }
{
    if let Some(needed) = needed_us {
        put_number(out, needed);
    }
}

/// The words of a line: what the problem is, its number and its name, and the time that a short slot
/// needs.
fn put_words<W: Write>(out: &mut TextWriter<'_, W>, problem: &Problem)
    ensures { Grows W.contents out.old out.new
        (flat_map spaced_word (problem_words (problem_data problem.now))) }
{
    match problem.number {
        Some(number) => {
            put_word(out, problem.kind);
            put_number(out, number);
            put_word(out, problem.name);
            put_needed(out, problem.needed_us);
        }
        None => put_word(out, problem.name),
    }
}

/// The line and the column, each after a colon.
fn put_line_place<W: Write>(out: &mut TextWriter<'_, W>, place: Option<Location>)
    ensures { Grows W.contents out.old out.new (option_map_or
        (λ p. 58 ∷ (decimal p.0 ++ 58 ∷ decimal p.1)) (place_data place) []) }
{
    if let Some(place) = place {
        out.put_numbered(b':', place.line);
        out.put_numbered(b':', place.column);
    }
}

/// The token, after a colon.
fn put_token<W: Write>(out: &mut TextWriter<'_, W>, token: &Option<Text>)
    ensures { Grows W.contents out.old out.new
        (option_map_or (λ t. 58 ∷ spaced_word t) token.now []) }
{
    if let Some(token) = token {
        out.put(b": ");
        out.put(token.as_slice());
    }
}

/// Puts the line of `check --where` of a problem: the name of the file, the place, the words, and the
/// token.
pub fn put_problem_line<W: Write>(out: &mut TextWriter<'_, W>, file: &str, problem: &Problem)
    ensures { Grows W.contents out.old out.new (problem_line file.now (problem_data problem.now)) }
{
    out.put_text(file);
    put_line_place(out, problem.place);
    out.put_byte(b':');
    put_words(out, problem);
    put_token(out, &problem.token);
    out.put_byte(b'\n');
}
