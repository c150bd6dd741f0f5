//! The files of a bench script.

ghost use Rattle.std.specs.Prelude.{◌≡◌, IfOk, option_map};
ghost use Rattle.lin_bench.specs.Files.{file_name, find_file, folder, included_name, source_data, source_of};

use crate::parameters::GivenParameter;
use lin_text::{Many, Text};
use std::alloc::{AllocError, Global};

/// How many bytes a script has at most in all files together, each counted as often as it is included.
pub(crate) const MOST_BYTES: usize = 16_777_216;

/// What a file that a bench script includes has.
#[derive(Drop)]
pub enum FileText {
    Read(Many<u8>),
    /// It can't be read.
    Unread,
    /// It has more than 16,777,216 bytes.
    TooLong,
}

/// A file that a bench script includes.
#[derive(Drop)]
pub struct ScriptFile {
    /// The name by which it was opened.
    pub name: Text,
    pub text: FileText,
}

/// A bench script with its files and parameters.
#[derive(Clone, Copy)]
pub struct Source<'a> {
    /// The name by which its file was opened; empty for standard input.
    pub name: &'a [u8],
    /// Its text, of at most 16,777,216 bytes.
    pub text: &'a [u8],
    /// The files that its lines include.
    pub files: &'a [ScriptFile],
    /// The parameters that are given with it.
    pub given: &'a [GivenParameter<'a>],
}

/// Returns the folder of a file: its name up to the last `/`, empty without one.
fn folder(name: &[u8]) -> &[u8]
    ensures { result.now ≡ folder name.now }
{
    let mut left = name;
    while let [before @ .., last] = left {
        if *last == b'/' {
            return left;
        }
        left = before;
    }
    left
}

/// Returns the name by which a file is opened that a line of another file includes: a relative name starts at
/// the folder of that file. An error means out of memory.
pub(crate) fn included_name(
    alloc: Global,
    includer: &[u8],
    name: &[u8],
) -> Result<Vec<u8>, AllocError>
    ensures { IfOk result (λ v. v.items ≡ included_name includer.now name.now) }
{
    let mut whole = Vec::new(alloc);
    if !matches!(name, [b'/', ..]) {
        whole.extend_from_slice(folder(includer))?;
    }
    whole.extend_from_slice(name)?;
    Ok(whole)
}

/// Returns the number, from 1, of the first file with a name, and what it has.
pub(crate) fn find_file<'a>(files: &'a [ScriptFile], name: &[u8]) -> Option<(usize, &'a FileText)>
    ensures { option_map (λ f. (f.0, f.1.now)) result ≡ find_file files.now name.now }
{
    let mut left = files;
    let mut number = 1;
    while let [file, rest @ ..] = left {
        if file.name.as_slice() == name {
            return Some((number, &file.text));
        }
        left = rest;
        number += 1;
    }
    None
}

/// Returns the name of the file with a number; of the script's own one for 0.
pub fn file_name<'a>(script: &'a [u8], files: &'a [ScriptFile], number: usize) -> &'a [u8]
    ensures { result.now ≡ file_name script.now files.now number }
{
    if number == 0 || files.len() < number {
        return script;
    }
    files[number - 1].name.as_slice()
}

/// Returns the text of the file of a script with a number; of the script's own one for 0.
pub fn file_text<'a>(source: Source<'a>, number: usize) -> &'a [u8] {
    if number == 0 || source.files.len() < number {
        return source.text;
    }
    match &source.files[number - 1].text {
        FileText::Read(text) => text.as_slice(),
        FileText::Unread | FileText::TooLong => b"",
    }
}

impl<'a> Source<'a> {
    /// A script without files and parameters, from standard input.
    pub fn of(text: &'a [u8]) -> Source<'a>
        ensures { source_data result ≡ source_of text.now }
    {
        Source {
            name: b"",
            text,
            files: &[],
            given: &[],
        }
    }
}
