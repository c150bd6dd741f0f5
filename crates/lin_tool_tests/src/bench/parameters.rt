//! Lines of a bench script that are resolved while it is read.

use crate::clusters::cluster_of;
use crate::samples::DOOR_ZONE;
use lin_bench::{
    Extent, FileText, GivenParameter, LinePlace, ReadFault, Reason, ScriptFile, ScriptLine, Source,
    bad_lines, is_name, missing_file, read, test_names, uses_parameter,
};
use lin_text::{Many, Text};
use std::alloc::{AllocError, Global};
use std::test::Fail;

const SCRIPT: &[u8] =
    b"set x 2\nset y 1\nset long $x \\\n$y\\z \\ # a comment\n\n\nrepeat $x\nslots $y$x\nset y 3\nrepeat 2\ntest $long\nend\nend\nslots $x";

/// The lines of the script with these parameters.
fn lines_with(
    alloc: Global,
    given: &[GivenParameter<'_>],
) -> Result<Vec<(LinePlace, ScriptLine)>, Fail> {
    let cluster = cluster_of(alloc, DOOR_ZONE)?;
    let source = Source {
        given,
        ..Source::of(SCRIPT)
    };
    match read(alloc, &cluster, None, &[], source) {
        Ok(lines) => Ok(lines),
        Err(ReadFault::BadLine { .. }) => Err(Fail::from("a bad line")),
        Err(ReadFault::OutOfMemory) => Err(Fail::from("OutOfMemory")),
    }
}

/// The number of slots of a line, or 0 for a test.
fn slots_of(line: &ScriptLine) -> Option<u32> {
    match line {
        ScriptLine::Slots(slots) => match slots.extent {
            Extent::Count(count) => Some(count),
            Extent::Milliseconds(_) | Extent::Idle(_) => None,
        },
        ScriptLine::Test(_) => Some(0),
        _ => None,
    }
}

#[test]
fn lines_are_resolved(rt: HostRuntime) -> Result<(), Fail> {
    let lines = lines_with(rt.alloc(), &[])?;
    let places = [
        (8u64, 0usize, 12u32),
        (11, 1, 0),
        (11, 2, 0),
        (8, 2, 32),
        (11, 3, 0),
        (11, 4, 0),
        (14, 4, 2),
    ];
    assert!(rt; lines.len() == places.len());
    for (line, (number, test, count)) in lines.iter().zip(places.iter()) {
        assert!(rt; line.0.line == *number && line.0.test == *test);
        assert!(rt; slots_of(&line.1) == Some(*count));
    }
    let names = test_names(rt.alloc(), lines.as_slice())?;
    assert!(rt; names.as_slice().len() == 4);
    for (index, name) in names.as_slice().iter().enumerate() {
        assert!(rt; name.name.as_slice() == b"2 1\\z".as_slice() && name.before == index);
    }
    Ok(())
}

#[test]
fn given_parameters_stay(rt: HostRuntime) -> Result<(), Fail> {
    let given = [
        GivenParameter {
            name: b"y",
            text: b"4",
        },
        GivenParameter {
            name: b"y",
            text: b"5",
        },
    ];
    let lines = lines_with(rt.alloc(), &given)?;
    let counts = [42u32, 0, 0, 42, 0, 0, 2];
    assert!(rt; lines.len() == counts.len());
    for (line, count) in lines.iter().zip(counts.iter()) {
        assert!(rt; slots_of(&line.1) == Some(*count));
    }
    Ok(())
}

#[test]
fn bad_lines_are_listed_once(rt: HostRuntime) -> Result<(), Fail> {
    let alloc = rt.alloc();
    let cluster = cluster_of(alloc, DOOR_ZONE)?;
    let text = b"repeat 3\nslosts\nrepeat $z\nend\nend\nrepeat 2";
    let bad = bad_lines(alloc, &cluster, None, &[], Source::of(text))?;
    let numbers = [2u64, 3, 6];
    assert!(rt; bad.len() == numbers.len());
    for (line, number) in bad.iter().zip(numbers.iter()) {
        assert!(rt; line.0.line == *number);
    }
    Ok(())
}

#[test]
fn parameters_are_used(rt: HostRuntime) -> Result<(), Fail> {
    let alloc = rt.alloc();
    let cluster = cluster_of(alloc, DOOR_ZONE)?;
    for name in [b"x".as_slice(), b"y", b"long"] {
        assert!(rt; uses_parameter(alloc, &cluster, Source::of(SCRIPT), name)?);
    }
    for name in [b"z".as_slice(), b"lon", b"", b"set"] {
        assert!(rt; !uses_parameter(alloc, &cluster, Source::of(SCRIPT), name)?);
    }
    for (name, answer) in [
        (b"a_1".as_slice(), true),
        (b"_", true),
        (b"1a", false),
        (b"", false),
        (b"a-b", false),
    ] {
        assert!(rt; is_name(name) == answer);
    }
    Ok(())
}

const INCLUDER: &[u8] =
    b"slots 1\ninclude more.bench\nrepeat 2\ninclude sub/more.bench\nend\ntest A\n";

/// A file with a name and a text.
fn file(alloc: Global, name: &[u8], text: Option<&[u8]>) -> Result<ScriptFile, AllocError> {
    Ok(ScriptFile {
        name: Text::copied(alloc, name)?,
        text: match text {
            Some(text) => FileText::Read(Many::new(Vec::from_slice(alloc, text)?)),
            None => FileText::Unread,
        },
    })
}

/// The files that `INCLUDER` includes from its folder, the last of them with this text.
fn included(alloc: Global, last: &[u8]) -> Result<Vec<ScriptFile>, AllocError> {
    let mut files = Vec::new(alloc);
    files.push(file(alloc, b"tests/more.bench", Some(b"slots 2\n\ninclude /x"))?)?;
    files.push(file(alloc, b"/x", Some(b"slots 3"))?)?;
    files.push(file(alloc, b"tests/sub/more.bench", Some(last))?)?;
    Ok(files)
}

#[test]
fn first_missing_file_is_found(rt: HostRuntime) -> Result<(), Fail> {
    let alloc = rt.alloc();
    let cluster = cluster_of(alloc, DOOR_ZONE)?;
    let source = Source {
        name: b"tests/suite.bench",
        ..Source::of(INCLUDER)
    };
    let Some(name) = missing_file(alloc, &cluster, source)? else {
        return Err(Fail::from("no file is missing"));
    };
    assert!(rt; name.as_slice() == b"tests/more.bench".as_slice());
    Ok(())
}

#[test]
fn no_file_is_missing(rt: HostRuntime) -> Result<(), Fail> {
    let alloc = rt.alloc();
    let cluster = cluster_of(alloc, DOOR_ZONE)?;
    let files = included(alloc, b"\nslots 4\nrepeat 1")?;
    let source = Source {
        name: b"tests/suite.bench",
        files: files.as_slice(),
        ..Source::of(INCLUDER)
    };
    assert!(rt; missing_file(alloc, &cluster, source)?.is_none());
    Ok(())
}

#[test]
fn bad_line_of_a_file_has_its_place(rt: HostRuntime) -> Result<(), Fail> {
    let alloc = rt.alloc();
    let cluster = cluster_of(alloc, DOOR_ZONE)?;
    let files = included(alloc, b"\nslots 4\nrepeat 1")?;
    let source = Source {
        name: b"tests/suite.bench",
        files: files.as_slice(),
        ..Source::of(INCLUDER)
    };
    let bad = bad_lines(alloc, &cluster, None, &[], source)?;
    assert!(rt;
        bad.len() == 1
            && bad[0].0
                == LinePlace {
                    file: 3,
                    line: 3,
                    own: 4,
                    test: 0
                }
    );
    Ok(())
}

#[test]
fn files_are_read(rt: HostRuntime) -> Result<(), Fail> {
    let alloc = rt.alloc();
    let cluster = cluster_of(alloc, DOOR_ZONE)?;
    let files = included(alloc, b"\nslots 4")?;
    let source = Source {
        name: b"tests/suite.bench",
        files: files.as_slice(),
        ..Source::of(INCLUDER)
    };
    let Ok(lines) = read(alloc, &cluster, None, &[], source) else {
        return Err(Fail::from("a bad line"));
    };
    let places = [
        (0usize, 1u64, 1u64),
        (1, 1, 2),
        (2, 1, 2),
        (3, 2, 4),
        (3, 2, 4),
        (0, 6, 6),
    ];
    assert!(rt; lines.len() == places.len());
    for (line, (file, number, own)) in lines.iter().zip(places.iter()) {
        assert!(rt; line.0.file == *file && line.0.line == *number && line.0.own == *own);
    }
    Ok(())
}

#[test]
fn files_end_what_is_read(rt: HostRuntime) -> Result<(), Fail> {
    let alloc = rt.alloc();
    let cluster = cluster_of(alloc, DOOR_ZONE)?;
    let mut files = Vec::new(alloc);
    files.push(file(alloc, b"a", None)?)?;
    files.push(file(alloc, b"deep", Some(b"include deep\n"))?)?;
    let source = Source {
        files: files.as_slice(),
        ..Source::of(b"include deep\nslosts\nrepeat 2\ninclude a\nslosts\nend\nend")
    };
    let bad = bad_lines(alloc, &cluster, None, &[], source)?;
    assert!(rt; bad.len() == 3);
    assert!(rt; matches!(bad[0].1, Reason::IncludeDepth) && bad[0].0.file == 2);
    assert!(rt; bad[1].0.line == 2);
    assert!(rt; matches!(bad[2].1, Reason::Unread(_)) && bad[2].0.line == 4);
    Ok(())
}
