//! The problems of an LDF with their places and tokens, and `--where`: their lines in the form of
//! compilers, `FILE:LINE:COLUMN: WHAT: TOKEN`.

use crate::explaining::{place_of, put_shown};
use crate::fault::Fault;
use crate::finding_lines::remark_word;
use crate::meanings::FAULTS;
use lin_cluster::Finding;
use lin_export::{Problem, put_problem_line};
use lin_field::Remark;
use lin_ldf::{LdfFault, Location, Token, lex};
use lin_text::{Text, TextBuffer, TextWriter};
use std::alloc::{AllocError, Global};

/// The tokens of a text from some place on.
#[derive(Drop)]
struct Tokens<'a> {
    text: &'a [u8],
    rest: &'a [Token],
}

impl<'a> Tokens<'a> {
    fn new(text: &'a [u8], tokens: &'a [Token]) -> Tokens<'a> {
        Tokens { text, rest: tokens }
    }

    /// The bytes of the token that begins at a place; no bytes where none does. Those before the
    /// place are left behind.
    fn token_at(&mut self, place: Location) -> &'a [u8] {
        'passing: while let [first, rest @ ..] = self.rest {
            if first.line > place.line
                || (first.line == place.line && first.column >= place.column)
            {
                break 'passing;
            }
            self.rest = rest;
        }
        match self.rest.first() {
            Some(token) if token.line == place.line && token.column == place.column => {
                self.text.get(token.start..token.end).unwrap_or(&[])
            }
            _ => &[],
        }
    }
}

/// A token as it is shown.
pub(crate) fn shown_token(alloc: Global, token: &[u8]) -> Result<String, AllocError> {
    let mut shown = String::new(alloc);
    put_shown(&mut shown, token)?;
    Ok(shown)
}

/// The token at a place as it is shown, if a token begins there.
fn shown_at(
    alloc: Global,
    tokens: &mut Tokens<'_>,
    place: Location,
) -> Result<Option<Text>, AllocError> {
    let token = tokens.token_at(place);
    if token.is_empty() {
        return Ok(None);
    }
    let shown = shown_token(alloc, token)?;
    Ok(Some(Text::copied(alloc, shown.as_bytes())?))
}

/// A fault with its place and its token; `None` if there is no memory.
fn problem_of_fault(
    alloc: Global,
    tokens: &mut Tokens<'_>,
    fault: &LdfFault,
) -> Result<Option<Problem>, AllocError> {
    let Some((place, number)) = place_of(fault) else {
        return Ok(None);
    };
    let (name, _) = FAULTS
        .get(usize::from(number).wrapping_sub(1))
        .copied()
        .unwrap_or(("", ""));
    Ok(Some(Problem {
        kind: "fault",
        number: Some(u32::from(number)),
        name,
        needed_us: None,
        place: Some(place),
        token: shown_at(alloc, tokens, place)?,
    }))
}

fn problem_of_finding(
    alloc: Global,
    tokens: &mut Tokens<'_>,
    finding: &Finding,
    kind: &'static str,
) -> Result<Problem, AllocError> {
    let Finding {
        number,
        line,
        column,
        needed_us,
    } = *finding;
    let place = Location { line, column };
    // (that a description has no table is found at its first byte, and of no token)
    let token = if line == 1 && column == 1 {
        None
    } else {
        shown_at(alloc, tokens, place)?
    };
    Ok(Problem {
        kind,
        number: Some(u32::from(number)),
        name: finding.name(),
        needed_us: if needed_us > 0 { Some(needed_us) } else { None },
        place: Some(place),
        token,
    })
}

/// The tokens of a text; none where it has a byte that begins no token.
pub(crate) fn lexed(alloc: Global, text: &[u8]) -> Result<Vec<Token>, AllocError> {
    match lex(alloc, text) {
        Ok(tokens) => Ok(tokens),
        Err(LdfFault::OutOfMemory) => Err(AllocError),
        Err(_) => Ok(Vec::new(alloc)),
    }
}

/// The findings and the warnings of a text, with their places and tokens.
pub(crate) fn problems_of_remarks(
    alloc: Global,
    text: &[u8],
    remarks: &[Remark],
) -> Result<Vec<Problem>, AllocError> {
    let lexed = lexed(alloc, text)?;
    let mut tokens = Tokens::new(text, lexed.as_slice());
    let mut problems = Vec::new(alloc);
    for remark in remarks {
        problems.push(problem_of_finding(
            alloc,
            &mut tokens,
            &remark.finding,
            remark_word(remark),
        )?)?;
    }
    Ok(problems)
}

/// What is wrong with a text by its fault, with places and tokens.
pub(crate) fn problems_of_fault(
    alloc: Global,
    text: &[u8],
    fault: &Fault,
) -> Result<Vec<Problem>, AllocError> {
    let lexed = lexed(alloc, text)?;
    let mut tokens = Tokens::new(text, lexed.as_slice());
    let mut problems = Vec::new(alloc);
    match fault {
        Fault::Ldf(fault) => {
            if let Some(one) = problem_of_fault(alloc, &mut tokens, fault)? {
                problems.push(one)?;
            }
        }
        Fault::Findings(findings) => {
            for finding in findings.0.as_slice() {
                problems.push(problem_of_finding(alloc, &mut tokens, finding, "finding")?)?;
            }
        }
        _ => {}
    }
    Ok(problems)
}

/// Puts a line for each problem, with the file's name before the place.
pub(crate) fn put_places(
    out: &mut Vec<u8>,
    file: &str,
    problems: &[Problem],
) -> Result<(), AllocError> {
    let mut buffer = TextBuffer::empty();
    let mut lines = TextWriter::new(out, &mut buffer);
    for problem in problems {
        put_problem_line(&mut lines, file, problem);
    }
    match lines.finish() {
        Ok(()) => Ok(()),
        Err(_) => Err(AllocError),
    }
}
