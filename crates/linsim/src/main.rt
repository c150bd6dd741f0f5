//! `linsim` simulates a LIN cluster with its schedules and its diagnostic transport. Here is its
//! command line; what it does is in `lin_tool`.
#![tactic(auto)]

mod arguments;

use crate::arguments::{Asked, Invalid, Request, read_words};
use clap::error::ErrorKind;
use lin_tool::{
    BadKinds, CampaignPlan, Fault, GivenParameter, KindsFault, Notes, PlayOptions, ScriptInput,
    write_fault,
};
use std::env::Env;
use std::fs::Files;
use std::io::{self, IsTerminal, Write};
use std::process::ExitCode;
use std::sync::Wait;
use std::thread::Threads;

/// The exit status of a wrong command line.
const COMMAND_LINE: u8 = 2;

/// Which of the standard streams are terminals.
#[derive(Clone, Copy)]
struct Terminals {
    input: bool,
    output: bool,
    error: bool,
}

impl Terminals {
    /// Whether a user sees standard error, and no output between its lines.
    fn are_rows_watched(self) -> bool {
        self.error && !self.output
    }
}

/// Does what is asked for; where standard error is watched, a run says there that it begins, and a
/// campaign how far it is. A play says there what is wrong with its script.
fn perform<
    'a,
    R: AllocGlobal + Files + Input + Print + Eprint + Threads + Wait + Copy + Send + 'static,
    W: Write,
>(
    rt: &R,
    request: Request<'a>,
    given: &[GivenParameter<'_>],
    scripts: &[&'a str],
    terminals: Terminals,
    notes: &mut Notes<'a>,
    errors: &mut W,
) -> Result<(), Fault> {
    match request {
        Request::Campaign {
            settings,
            plan,
            script,
        } => {
            let plan = CampaignPlan {
                is_watched: terminals.are_rows_watched(),
                ..plan
            };
            let script = ScriptInput {
                path: script,
                given,
            };
            lin_tool::run_campaign(rt, &settings, &plan, script, errors, notes)
        }
        Request::Check {
            file,
            reading,
            extras,
            lists,
        } => lin_tool::check(rt, file, reading, extras, lists, notes),
        Request::CheckObject {
            file,
            reading,
            extras,
        } => lin_tool::check_object(rt, file, reading, extras, notes),
        Request::CheckPlain(file) => lin_tool::check_plain(rt, file, notes),
        Request::Diff {
            old,
            new,
            reading,
            classes,
        } => lin_tool::diff(rt, (old, new), reading, classes, notes, errors),
        Request::Live(settings) => lin_tool::live(rt, &settings, errors, notes),
        Request::Play {
            settings,
            faults,
            report,
        } => {
            let options = PlayOptions {
                faults,
                given,
                report,
            };
            if scripts.len() > 1 {
                return lin_tool::play_scripts(rt, &settings, scripts, options, errors, notes);
            }
            lin_tool::play(rt, &settings, only_file(scripts), options, errors, notes)
        }
        Request::Replay(settings) => lin_tool::replay(rt, &settings, notes),
        Request::Compare(settings) => lin_tool::compare(rt, &settings, notes),
        Request::Run { settings, slots } => {
            lin_tool::run(rt, &settings, slots, terminals.error, notes)
        }
    }
}

/// The file of the only script; `None` for standard input.
fn only_file<'a>(scripts: &[&'a str]) -> Option<&'a str> {
    scripts.first().copied().filter(|path| *path != "-")
}

/// Whether a script or an LDF text is read from standard input.
fn is_read(request: Request<'_>, scripts: &[&str]) -> bool {
    match request {
        Request::Check { file, .. }
        | Request::CheckObject { file, .. }
        | Request::CheckPlain(file) => file == "-",
        Request::Diff { old, new, .. } => old == "-" || new == "-",
        Request::Play { .. } => scripts.is_empty() || scripts.iter().any(|path| *path == "-"),
        Request::Campaign { script, .. } => script.is_none(),
        Request::Live(_) | Request::Replay(_) | Request::Compare(_) | Request::Run { .. } => true,
    }
}

/// Does what is asked for, writes what is to be said of a fault on standard error, and gives the
/// exit status.
fn answer<
    R: AllocGlobal + Files + Input + Print + Eprint + Threads + Wait + Copy + Send + 'static,
    W: Write,
>(rt: &R, asked: Asked<'_>, terminals: Terminals, errors: &mut W) -> ExitCode {
    let Asked {
        request,
        wanted,
        levels,
        given,
        scripts,
    } = asked;
    let scripts = scripts.as_slice();
    if wanted.explained && terminals.input && is_read(request, scripts) {
        let _ = eprintln!(rt; "linsim: reading from the terminal; end with Ctrl-D");
    }
    let mut notes = Notes::new(rt.alloc(), wanted);
    notes.levels = levels;
    let done = perform(
        rt,
        request,
        given.as_slice(),
        scripts,
        terminals,
        &mut notes,
        errors,
    );
    let _ = notes.write(done.as_ref().err(), errors);
    ExitCode::from(notes.status(&done))
}

/// Prints what clap answers in place of matches, and gives the exit status.
fn refused<R: Print + Eprint>(rt: &R, error: &clap::Error) -> Result<ExitCode, Fault> {
    if error.kind() == ErrorKind::OutOfMemory {
        return Err(Fault::OutOfMemory);
    }
    let printed = error.print(rt);
    if error.use_stderr() {
        return Ok(ExitCode::from(COMMAND_LINE));
    }
    match printed {
        Ok(()) => Ok(ExitCode::SUCCESS),
        Err(_) => Err(Fault::WriteFailed),
    }
}

/// Prints why the value of an option that names kinds of warnings isn't valid, and gives the exit
/// status.
fn unknown_kinds<R: Eprint>(rt: &R, bad: BadKinds<'_>) -> Result<ExitCode, Fault> {
    let BadKinds { option, fault } = bad;
    let _ = match fault {
        KindsFault::OutOfMemory => return Err(Fault::OutOfMemory),
        KindsFault::Empty => eprintln!(rt; "error: --{option}: expected a kind of warnings"),
        KindsFault::Unknown(kind) => eprintln!(rt; "error: --{option} {kind}: no such warning"),
        KindsFault::NotReported(kind, needed) => eprintln!(rt;
            "error: --{option} {kind}: no warning of these options ({needed})"
        ),
    };
    Ok(ExitCode::from(COMMAND_LINE))
}

/// Prints that both LDFs of `diff` are standard input, and gives the exit status.
fn two_inputs<R: Eprint>(rt: &R) -> ExitCode {
    let _ = eprintln!(rt; "error: OLD and NEW are both standard input");
    ExitCode::from(COMMAND_LINE)
}

/// Prints why the value of `--part` isn't valid, and gives the exit status.
fn bad_part<R: Eprint>(rt: &R, part: &str) -> ExitCode {
    let _ = eprintln!(rt;
        "error: --part {part}: expected K/N, where K is from 1 to N, and N is at most 1000000"
    );
    ExitCode::from(COMMAND_LINE)
}

/// Prints why the value of `--set` isn't valid, and gives the exit status.
fn bad_parameter<R: Eprint>(rt: &R, word: &str) -> ExitCode {
    let _ = eprintln!(rt;
        "error: --set {word}: expected NAME=TEXT, where NAME is letters, digits and _, and doesn't begin with a digit"
    );
    ExitCode::from(COMMAND_LINE)
}

/// Prints that the log of several scripts can't be written, and gives the exit status.
fn several_scripts<R: Eprint>(rt: &R, format: &str) -> ExitCode {
    let _ = eprintln!(rt; "error: --to {format}: several scripts have no log; use --to junit");
    ExitCode::from(COMMAND_LINE)
}

/// The exit status where the words of the command line couldn't be read: for lack of memory, or
/// since one isn't UTF-8.
fn unread<R: Eprint>(rt: &R, error: &io::Error) -> Result<ExitCode, Fault> {
    if error.kind() == io::ErrorKind::OutOfMemory {
        return Err(Fault::OutOfMemory);
    }
    let _ = eprintln!(rt; "error: an argument isn't valid UTF-8");
    Ok(ExitCode::from(COMMAND_LINE))
}

fn run<
    R: AllocGlobal + Env + Files + Input + Print + Eprint + Threads + Wait + Copy + Send + 'static,
    W: Write,
>(rt: &R, terminals: Terminals, errors: &mut W) -> Result<ExitCode, Fault> {
    let alloc = rt.alloc();
    let words: Vec<String> = match std::env::args(rt) {
        Ok(all) => all.collect(alloc)?,
        Err(error) => return unread(rt, &error),
    };
    match read_words(alloc, words.as_slice()) {
        Ok(Some(asked)) => Ok(answer(rt, asked, terminals, errors)),
        Ok(None) => Ok(ExitCode::SUCCESS),
        Err(Invalid::Clap(error)) => refused(rt, &error),
        Err(Invalid::Kinds(bad)) => unknown_kinds(rt, bad),
        Err(Invalid::TwoInputs) => Ok(two_inputs(rt)),
        Err(Invalid::Part(part)) => Ok(bad_part(rt, part)),
        Err(Invalid::Parameter(word)) => Ok(bad_parameter(rt, word)),
        Err(Invalid::SeveralScripts(format)) => Ok(several_scripts(rt, format)),
        Err(Invalid::OutOfMemory) => Err(Fault::OutOfMemory),
    }
}

fn main(rt: HostRuntime) -> ExitCode {
    let terminals = Terminals {
        input: rt.stdin().is_terminal(),
        output: rt.stdout().is_terminal(),
        error: rt.stderr().is_terminal(),
    };
    let mut errors = rt.stderr();
    match run(&rt, terminals, &mut errors) {
        Ok(status) => status,
        Err(fault) => {
            let _ = write_fault(&fault, &mut errors);
            ExitCode::from(fault.status())
        }
    }
}
