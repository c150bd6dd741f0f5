//! The options and arguments of subcommands.

use clap::{Arg, ArgAction, value_parser};
use std::alloc::{AllocError, Global};

pub(crate) fn file<'a>(alloc: Global, help: &'a str) -> Arg<'a> {
    Arg::new(alloc, "file").value_name("FILE").help(help)
}

pub(crate) fn script<'a>(alloc: Global) -> Arg<'a> {
    Arg::new(alloc, "script").value_name("SCRIPT").help(
        "Bench script, or - for standard input [default: standard input]",
    )
}

pub(crate) fn scripts<'a>(alloc: Global) -> Arg<'a> {
    Arg::new(alloc, "script")
        .value_name("SCRIPT")
        .action(ArgAction::Append)
        .num_args(1..)
        .help("Bench scripts, or - for standard input [default: standard input]")
}

pub(crate) fn report<'a>(alloc: Global) -> Arg<'a> {
    Arg::new(alloc, "junit")
        .long("junit")
        .value_name("FILE")
        .help("Also write the JUnit report to FILE")
}

pub(crate) fn table<'a>(alloc: Global) -> Arg<'a> {
    Arg::new(alloc, "table").long("table").value_name("T").help(
        "Name of the schedule table to start with [default: the first one]",
    )
}

pub(crate) fn capacity<'a>(alloc: Global) -> Arg<'a> {
    Arg::new(alloc, "capacity")
        .long("capacity")
        .value_name("N")
        .value_parser(value_parser!(u16).range(1..=1024))
        .default_value("16")
        .help("Maximum number of waiting messages per host, 1 to 1024")
}

/// The values of `--to` of `replay` and `run`.
pub(crate) static FORMATS: [&str; 7] = ["log", "named", "csv", "jsonl", "pcap", "vcd", "html"];

/// The values of `--to` of `play`.
pub(crate) static PLAY_FORMATS: [&str; 8] = [
    "log", "named", "csv", "jsonl", "pcap", "vcd", "html", "junit",
];

/// The values of `--to` of `campaign`.
static ROW_FORMATS: [&str; 5] = ["text", "csv", "jsonl", "junit", "html"];

/// The values of `--faults`.
static FAULT_KINDS: [&str; 3] = ["damage", "absent", "gone"];

/// The values of `--deny` of `campaign`.
static DENIED_RESULTS: [&str; 2] = ["broken", "never"];

/// The values of `--to` of `live`.
pub(crate) static ANSWER_FORMATS: [&str; 3] = ["log", "named", "jsonl"];

pub(crate) fn format<'a>(alloc: Global, words: &'a [&'a str]) -> Arg<'a> {
    Arg::new(alloc, "to")
        .long("to")
        .value_name("FORMAT")
        .value_parser(words)
        .default_value("log")
        .help("Output format")
}

/// An option that isn't given together with the lists of `check`.
fn without_lists<'a>(option: Arg<'a>) -> Result<Arg<'a>, AllocError> {
    option
        .conflicts_with("frames")?
        .conflicts_with("map")?
        .conflicts_with("slots")?
        .conflicts_with("timing")
}

/// The value of `--to` of `check`.
static OBJECTS: [&str; 1] = ["json"];

pub(crate) fn object<'a>(alloc: Global) -> Result<Arg<'a>, AllocError> {
    let option = Arg::new(alloc, "to")
        .long("to")
        .value_name("FORMAT")
        .value_parser(OBJECTS.as_slice())
        .help("Write one object with all that was found instead of the list");
    without_lists(option)?
        .conflicts_with("signals")?
        .conflicts_with("plain")
}

/// An option without a value.
fn flag<'a>(alloc: Global, name: &'a str, help: &'a str) -> Arg<'a> {
    Arg::new(alloc, name)
        .long(name)
        .action(ArgAction::SetTrue)
        .help(help)
}

pub(crate) fn same<'a>(alloc: Global) -> Result<Arg<'a>, AllocError> {
    let help = "Write nothing, but check that the script is the log of its own steps";
    flag(alloc, "same", help).conflicts_with("to")
}

pub(crate) fn listed_frames<'a>(alloc: Global) -> Arg<'a> {
    let help = "Also list the frames and the position of each signal";
    flag(alloc, "frames", help)
}

pub(crate) fn listed_maps<'a>(alloc: Global) -> Arg<'a> {
    let help = "Also list the frames with the signal of each bit";
    flag(alloc, "map", help)
}

pub(crate) fn listed_slots<'a>(alloc: Global) -> Arg<'a> {
    let help = "Also list the slots with their required time, and the bus load of each table";
    flag(alloc, "slots", help)
}

pub(crate) fn listed_timing<'a>(alloc: Global) -> Arg<'a> {
    let help = "Also list the timing of each table: cycle, frames, latencies and transfer times";
    flag(alloc, "timing", help)
}

pub(crate) fn message_bytes<'a>(alloc: Global) -> Result<Arg<'a>, AllocError> {
    Arg::new(alloc, "bytes")
        .long("bytes")
        .value_name("N")
        .value_parser(value_parser!(u16).range(1..=4095))
        .help("Data bytes of the messages of --timing, 1 to 4095 [default: 6]")
        .requires_arg("timing")
}

pub(crate) fn places<'a>(alloc: Global) -> Arg<'a> {
    let help = "Report errors and warnings as FILE:LINE:COLUMN: MESSAGE: TOKEN";
    flag(alloc, "where", help)
}

pub(crate) fn script_places<'a>(alloc: Global) -> Arg<'a> {
    let help =
        "Report problems as FILE:LINE: MESSAGE, expectations with slot and time; report every bad line";
    flag(alloc, "where", help)
}

pub(crate) fn strict<'a>(alloc: Global) -> Arg<'a> {
    let help =
        "Also fail for unexpected refusals, leave without effect, no expectations; print a summary";
    flag(alloc, "strict", help)
}

pub(crate) fn explained_file<'a>(alloc: Global) -> Arg<'a> {
    let help = "Explain errors and warnings on standard error";
    flag(alloc, "explain", help)
}

pub(crate) fn explain<'a>(alloc: Global) -> Arg<'a> {
    let help = "Explain errors, warnings and refused steps on standard error";
    flag(alloc, "explain", help)
}

pub(crate) fn field<'a>(alloc: Global) -> Arg<'a> {
    let help =
        "Accept LIN 1.3, 2.0, J2602, ISO 17987 and old editors' LDF files; warn about each deviation";
    flag(alloc, "field", help)
}

pub(crate) fn compared_field<'a>(alloc: Global) -> Arg<'a> {
    let help = "Accept LIN 1.3, 2.0, J2602, ISO 17987 and old editors' LDF files";
    flag(alloc, "field", help)
}

pub(crate) fn plain<'a>(alloc: Global) -> Result<Arg<'a>, AllocError> {
    let help = "Write the LDF as LIN 2.2A text instead of the list (needs --field)";
    let option = flag(alloc, "plain", help).requires_arg("field")?;
    without_lists(option)?
        .conflicts_with("physical")?
        .conflicts_with("lint")?
        .conflicts_with("configuration")?
        .conflicts_with("signals")
}

pub(crate) fn physical<'a>(alloc: Global) -> Arg<'a> {
    let help = "Read the signal encodings and warn about errors in them";
    flag(alloc, "physical", help)
}

pub(crate) fn meanings<'a>(alloc: Global) -> Arg<'a> {
    let help =
        "Also write physical values and value texts; warn about errors in the signal encodings";
    flag(alloc, "physical", help)
}

pub(crate) fn configuration<'a>(alloc: Global) -> Arg<'a> {
    let help =
        "Send the requests of node configuration commands; warn about errors in the commands";
    flag(alloc, "configuration", help)
}

pub(crate) fn linted<'a>(alloc: Global) -> Arg<'a> {
    let help = "If the LDF has no errors, warn about unused declarations and disregarded LIN rules";
    flag(alloc, "lint", help)
}

/// An option with kinds of warnings as its value.
fn kinds<'a>(alloc: Global, name: &'a str, help: &'a str) -> Arg<'a> {
    Arg::new(alloc, name)
        .long(name)
        .value_name("KINDS")
        .help(help)
}

pub(crate) fn denied<'a>(alloc: Global) -> Arg<'a> {
    let help = "Exit with status 6 if a warning of these kinds is reported";
    kinds(alloc, "deny", help)
}

pub(crate) fn allowed<'a>(alloc: Global) -> Arg<'a> {
    let help = "Don't report warnings of these kinds";
    kinds(alloc, "allow", help)
}

pub(crate) fn listed_signals<'a>(alloc: Global) -> Result<Arg<'a>, AllocError> {
    let help = "Also list the physical values and texts of each signal (needs --physical)";
    flag(alloc, "signals", help).requires_arg("physical")
}

pub(crate) fn old_file<'a>(alloc: Global) -> Arg<'a> {
    Arg::new(alloc, "old")
        .value_name("OLD")
        .help("The old LDF file, or - for standard input")
        .required(true)
}

pub(crate) fn new_file<'a>(alloc: Global) -> Arg<'a> {
    Arg::new(alloc, "new")
        .value_name("NEW")
        .help("The new LDF file, or - for standard input")
        .required(true)
}

/// The classes of `--only` of `diff`.
static CLASSES: [&str; 5] = ["bytes", "timing", "meaning", "compatible", "names"];

pub(crate) fn only<'a>(alloc: Global) -> Arg<'a> {
    Arg::new(alloc, "only")
        .long("only")
        .value_name("CLASSES")
        .value_delimiter(',')
        .value_parser(CLASSES.as_slice())
        .help("List only differences of these classes, with commas between them")
}

pub(crate) fn slots<'a>(alloc: Global) -> Arg<'a> {
    Arg::new(alloc, "slots")
        .long("slots")
        .value_name("N")
        .value_parser(value_parser!(u32).range(1..=1_000_000))
        .required(true)
        .help("Number of slots to run, 1 to 1000000")
}

pub(crate) fn parameters<'a>(alloc: Global) -> Arg<'a> {
    Arg::new(alloc, "set")
        .long("set")
        .value_name("NAME=TEXT")
        .action(ArgAction::Append)
        .help("Set the parameter NAME of the script to TEXT; its lines don't change it")
}

pub(crate) fn faults<'a>(alloc: Global) -> Arg<'a> {
    Arg::new(alloc, "fault")
        .long("fault")
        .value_name("FAULTS")
        .help("Faults in slots: 17:damage, 17..19:damage or 17..:absent:NODE; + between faults")
}

/// An option with words as its values, with commas between them.
fn words<'a>(alloc: Global, name: &'a str, help: &'a str, words: &'a [&'a str]) -> Arg<'a> {
    Arg::new(alloc, name)
        .long(name)
        .value_name("KINDS")
        .value_delimiter(',')
        .value_parser(words)
        .help(help)
}

pub(crate) fn fault_kinds<'a>(alloc: Global) -> Arg<'a> {
    let help = "Single faults, with commas [default: damage,absent]";
    words(alloc, "faults", help, FAULT_KINDS.as_slice())
}

pub(crate) fn denied_results<'a>(alloc: Global) -> Arg<'a> {
    let help = "Exit with status 6 for broken rows, or lines never broken";
    words(alloc, "deny", help, DENIED_RESULTS.as_slice())
}

pub(crate) fn strict_rows<'a>(alloc: Global) -> Arg<'a> {
    let help = "Also fail for unexpected refusals, leave without effect, no expectations";
    flag(alloc, "strict", help)
}

pub(crate) fn pairs<'a>(alloc: Global) -> Arg<'a> {
    flag(alloc, "pairs", "Also play each two of the single faults")
}

pub(crate) fn random<'a>(alloc: Global) -> Arg<'a> {
    Arg::new(alloc, "random")
        .long("random")
        .value_name("N")
        .value_parser(value_parser!(u32).range(1..=1_000_000_000))
        .help("Also play N random sets of the single faults, 1 to 1000000000")
}

pub(crate) fn seed<'a>(alloc: Global) -> Result<Arg<'a>, AllocError> {
    Arg::new(alloc, "seed")
        .long("seed")
        .value_name("S")
        .value_parser(value_parser!(u64))
        .default_value("1")
        .help("Seed of the random sets, 64 bits")
        .requires_arg("random")
}

pub(crate) fn rate<'a>(alloc: Global) -> Result<Arg<'a>, AllocError> {
    Arg::new(alloc, "rate")
        .long("rate")
        .value_name("R")
        .value_parser(value_parser!(u16).range(1..=1000))
        .default_value("20")
        .help("How many of 1000 single faults are in a random set, 1 to 1000")
        .requires_arg("random")
}

pub(crate) fn part<'a>(alloc: Global) -> Arg<'a> {
    Arg::new(alloc, "part")
        .long("part")
        .value_name("K/N")
        .default_value("1/1")
        .help("Play only the K-th of N parts of the rows, N up to 1000000")
}

pub(crate) fn row_format<'a>(alloc: Global) -> Arg<'a> {
    Arg::new(alloc, "to")
        .long("to")
        .value_name("FORMAT")
        .value_parser(ROW_FORMATS.as_slice())
        .default_value("text")
        .help("Output format")
}
