//! The tests of a bench script.

ghost use Rattle.std.specs.Prelude.{◌≡◌, IfOk, count_by, option_map};
ghost use Rattle.std.specs.Str.{bytes_eq};
ghost use Rattle.lin_text.specs.Written.{Grows};
ghost use Rattle.lin_bench.specs.Tests.{AreNumbered, name_begun, test_names, test_text};

use crate::line::ScriptLine;
use crate::place::LinePlace;
use lin_text::{Many, Text, TextWriter};
use std::alloc::{AllocError, Global};
use std::io::Write;

/// The name of a test, and how many tests before it have the same name.
#[derive(Drop)]
pub struct TestName {
    pub name: Text,
    pub before: usize,
}

/// The name of the test that a line begins, if it does.
fn name_begun(line: &ScriptLine) -> Option<&[u8]>
    ensures { option_map (λ name. name.now) result ≡ name_begun line.now }
{
    match line {
        ScriptLine::Test(name) => Some(name.as_slice()),
        _ => None,
    }
}

/// How many of these tests have a name, by the last one that has it.
fn count_named(tests: &[TestName], name: &[u8]) -> usize
    requires { AreNumbered tests.now }
    ensures { result ≡ count_by (λ (t : TestName). bytes_eq t.name name.now) tests.now }
{
    let mut left = tests;
    while let [before @ .., last] = left {
        if last.name.as_slice() == name {
            return last.before + 1;
        }
        left = before;
    }
    0
}

/// Returns the names of the tests that these lines begin, in order. An error means out of memory.
pub fn test_names(
    alloc: Global,
    lines: &[(LinePlace, ScriptLine)],
) -> Result<Many<TestName>, AllocError>
    ensures { IfOk result (λ names. names ≡ test_names lines.now) }
{
    let mut names = Vec::new(alloc);
    for line in lines {
        if let Some(name) = name_begun(&line.1) {
            let before = count_named(names.as_slice(), name);
            names.push(TestName {
                name: Text::copied(alloc, name)?,
                before,
            })?;
        }
    }
    Ok(Many::new(names))
}

/// Puts the name of a test. The second one of a name ends with `#2`, the third one with `#3` and so on.
pub fn put_test_name<W: Write>(out: &mut TextWriter<'_, W>, test: &TestName)
    ensures { Grows W.contents out.old out.new (test_text test.now) }
{
    out.put(test.name.as_slice());
    if test.before > 0 {
        out.put_text(" #");
        out.put_number(test.before as u128 + 1);
    }
}
