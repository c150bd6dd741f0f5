//! Lines of a bench script that are listed.

ghost use Rattle.std.specs.Prelude.{◌≡◌, ◌==◌, ◌<◌, ◌||◌, ℕ, false, get_or, length, OnOk};
ghost use Rattle.lin_bench.specs.Listed.{listed_in};
ghost use Rattle.lin_bench.specs.Scripts.{is_same_line};
ghost use Rattle.lin_bench.specs.declared.place.LinePlace.{LinePlace};

use crate::place::LinePlace;
use std::alloc::{AllocError, Global};

/// Lists a line of a file. An error means out of memory.
fn list_line(lines: &mut Vec<bool>, line: usize) -> Result<(), AllocError>
    ensures { OnOk result
        ((k : ℕ) → get_or lines.new.items k false ≡ (line == k || get_or lines.old.items k false)) }
{
    while lines.len() <= line {
        lines.push(false)?;
    }
    lines[line] = true;
    Ok(())
}

/// Lines that are listed: for each file, which of its lines are, up to the last one that is.
#[derive(Drop)]
pub(crate) struct ListedLines {
    files: Vec<Vec<bool>>,
}

impl ListedLines {
    /// No lines.
    pub(crate) fn none(alloc: Global) -> ListedLines
        ensures { (p : LinePlace) → listed_in result p ≡ false }
    {
        ListedLines {
            files: Vec::new(alloc),
        }
    }

    /// Returns whether a line is listed.
    pub(crate) fn has(&self, place: LinePlace) -> bool
        ensures { result ≡ listed_in self.now place }
    {
        match self.files.as_slice().get(place.file) {
            Some(lines) => match lines.as_slice().get(place.line as usize) {
                Some(is_listed) => *is_listed,
                None => false,
            },
            None => false,
        }
    }

    /// Adds files up to one with a number. An error means out of memory.
    fn reach(&mut self, alloc: Global, file: usize) -> Result<(), AllocError>
        ensures long { OnOk result (file < length self.new.files.items) }
        ensures same { (p : LinePlace) → listed_in self.new p ≡ listed_in self.old p }
    {
        while self.files.len() <= file {
            self.files.push(Vec::new(alloc))?;
        }
        Ok(())
    }

    /// Lists a line. An error means out of memory.
    pub(crate) fn add(&mut self, alloc: Global, place: LinePlace) -> Result<(), AllocError>
        ensures { OnOk result ((p : LinePlace) → listed_in self.new p ≡ (is_same_line p place || listed_in self.old p)) }
    {
        self.reach(alloc, place.file)?;
        list_line(&mut self.files[place.file], place.line as usize)
    }
}
