//! The command line.

mod commands;
mod options;

use crate::arguments::commands::command;
use clap::ArgMatches;
use clap::parser::ValueSource;
use lin_tool::{
    BadKinds, CampaignPart, CampaignPlan, Classes, Encodings, Extras, Format, GivenParameter,
    Kinds, Levels, Lists, RandomSets, Reading, RowFormat, Settings, Wanted, is_name, read_levels,
};
use std::alloc::{AllocError, Global};

/// The parsed command line.
#[derive(Drop)]
pub(crate) struct Asked<'a> {
    pub request: Request<'a>,
    pub wanted: Wanted<'a>,
    pub levels: Levels,
    /// Parameters that are given with a script.
    pub given: Vec<GivenParameter<'a>>,
    /// The bench scripts of `play`, by the names that are given.
    pub scripts: Vec<&'a str>,
}

/// Why the command line isn't valid.
#[derive(Drop)]
pub(crate) enum Invalid<'a> {
    /// The answer of clap: an error, or a requested help or version text.
    Clap(clap::Error),
    /// A value that names kinds of warnings isn't valid.
    Kinds(BadKinds<'a>),
    /// Both LDFs of `diff` are standard input.
    TwoInputs,
    /// The value of `--part` isn't valid.
    Part(&'a str),
    /// A value of `--set` isn't valid.
    Parameter(&'a str),
    /// Several scripts, and this format of the log.
    SeveralScripts(&'a str),
    OutOfMemory,
}

/// The subcommand with its settings.
#[derive(Clone, Copy)]
pub(crate) enum Request<'a> {
    /// `linsim campaign FILE [SCRIPT] [--set NAME=TEXT].. [--faults KINDS] [--pairs] [--random N [--seed S] [--rate R]]
    /// [--part K/N] [--deny KINDS] [--to FORMAT] [--table T] [--capacity N] [--field]
    /// [--configuration] [--strict]`. `script` is `None` for standard input.
    Campaign {
        settings: Settings<'a>,
        plan: CampaignPlan,
        script: Option<&'a str>,
    },
    /// `linsim check FILE [--field] [--frames] [--map] [--slots] [--physical [--signals]]
    /// [--timing [--bytes N]] [--lint] [--configuration] [--deny KINDS] [--allow KINDS]`
    Check {
        file: &'a str,
        reading: Reading,
        extras: Extras,
        lists: Lists,
    },
    /// `linsim check FILE --to json [--field] [--physical] [--lint] [--configuration] [--deny KINDS]
    /// [--allow KINDS]`
    CheckObject {
        file: &'a str,
        reading: Reading,
        extras: Extras,
    },
    /// `linsim check FILE --field --plain [--deny KINDS] [--allow KINDS]`
    CheckPlain(&'a str),
    /// `linsim diff [--field] [--only CLASSES] OLD NEW`
    Diff {
        old: &'a str,
        new: &'a str,
        reading: Reading,
        classes: Classes,
    },
    /// `linsim live FILE [--table T] [--capacity N] [--to log|named|jsonl] [--field] [--physical]
    /// [--configuration]`
    Live(Settings<'a>),
    /// `linsim play FILE [SCRIPT].. [--set NAME=TEXT].. [--table T] [--capacity N] [--to FORMAT]
    /// [--junit FILE] [--physical] [--configuration] [--where] [--strict] [--fault FAULTS]`
    Play {
        settings: Settings<'a>,
        faults: Option<&'a str>,
        report: Option<&'a str>,
    },
    /// `linsim replay [FILE] [--table T] [--capacity N] [--to FORMAT] [--physical] [--configuration]`
    Replay(Settings<'a>),
    /// `linsim replay [FILE] [--table T] [--capacity N] [--configuration] --same`
    Compare(Settings<'a>),
    /// `linsim run FILE --slots N [--table T] [--capacity N] [--to FORMAT] [--physical]
    /// [--configuration]`
    Run {
        settings: Settings<'a>,
        slots: u32,
    },
}

/// Returns the format with this name, or the log for any other. A picture shows the name of the
/// LDF file.
fn format_of<'a>(word: Option<&str>, file: Option<&'a str>) -> Format<'a> {
    match word {
        Some("named") => Format::Named,
        Some("csv") => Format::Csv,
        Some("jsonl") => Format::Jsonl("-"),
        Some("pcap") => Format::Pcap,
        Some("vcd") => Format::Vcd,
        Some("html") => Format::Html(file.unwrap_or("built-in").as_bytes()),
        _ => Format::Log,
    }
}

/// Returns what standard error has to contain for `play`, and whether a report is wanted.
fn wanted_of_play<'a>(found: &ArgMatches<'a>) -> Wanted<'a> {
    let is_several = has_several(found);
    let is_placed = found.get_flag("where") || is_several;
    let is_reported = found.get_str("to") == Some("junit");
    let is_written = found.get_str("junit").is_some();
    Wanted {
        explained: found.get_flag("explain"),
        file: if is_placed {
            found.get_str("file")
        } else {
            None
        },
        script: if is_placed {
            Some(script_of(found))
        } else {
            None
        },
        report: if is_reported || is_written {
            Some(script_of(found))
        } else {
            None
        },
        is_report_kept: is_written || is_several,
    }
}

/// Returns what standard error has to contain: `[--explain]` of each subcommand, `[--where]` of
/// `check` and `play`. A campaign reports problems of its script with their places.
fn wanted_of<'a>(matches: &ArgMatches<'a>) -> Wanted<'a> {
    let Some((name, found)) = matches.subcommand() else {
        return Wanted::default();
    };
    if name == "diff" {
        return Wanted::default();
    }
    let explained = found.get_flag("explain");
    match name {
        "check" if found.get_flag("where") => Wanted {
            explained,
            file: found.get_str("file"),
            ..Wanted::default()
        },
        "play" => wanted_of_play(found),
        "campaign" => Wanted {
            explained,
            script: Some(script_of(found)),
            ..Wanted::default()
        },
        _ => Wanted {
            explained,
            ..Wanted::default()
        },
    }
}

/// Returns how the LDF file is read: `[--field]`.
fn reading_of(found: &ArgMatches<'_>) -> Reading {
    if found.get_flag("field") {
        Reading::Field
    } else {
        Reading::Plain
    }
}

/// Returns what is read in addition to the cluster: `[--physical]`, `[--lint]`, `[--configuration]`.
fn extras_of(found: &ArgMatches<'_>) -> Extras {
    Extras {
        encodings: if found.get_flag("physical") {
            Encodings::Told
        } else {
            Encodings::Unread
        },
        is_linted: found.get_flag("lint"),
        is_configured: found.get_flag("configuration"),
    }
}

/// Returns what the command lines of all subcommands that run a cluster set, with this format of the log.
fn common_settings_of<'a>(found: &ArgMatches<'a>, format: Format<'a>) -> Settings<'a> {
    Settings {
        file: found.get_str("file"),
        reading: reading_of(found),
        table: found.get_str("table"),
        capacity: found.get_one::<u16>("capacity").unwrap_or(16),
        format,
        is_physical: false,
        is_configured: found.get_flag("configuration"),
        is_strict: false,
    }
}

/// Returns the settings of `replay`, `run` and `live`.
fn settings_of<'a>(found: &ArgMatches<'a>) -> Settings<'a> {
    let format = format_of(found.get_str("to"), found.get_str("file"));
    Settings {
        is_physical: found.get_flag("physical"),
        ..common_settings_of(found, format)
    }
}

/// Returns the settings of `play`. A JUnit report and objects have the name of the script, as `--where`
/// does.
fn play_settings_of<'a>(found: &ArgMatches<'a>) -> Settings<'a> {
    let mut settings = settings_of(found);
    settings.is_strict = found.get_flag("strict");
    match found.get_str("to") {
        Some("junit") => settings.format = Format::Junit(script_of(found)),
        Some("jsonl") => settings.format = Format::Jsonl(script_of(found)),
        _ => {}
    }
    settings
}

/// Returns the settings of `campaign`, whose rows have formats of their own.
fn campaign_settings_of<'a>(found: &ArgMatches<'a>) -> Settings<'a> {
    Settings {
        is_strict: found.get_flag("strict"),
        ..common_settings_of(found, Format::Log)
    }
}

/// Returns whether an option has a word among its values.
fn has_word(found: &ArgMatches<'_>, option: &str, word: &str) -> bool {
    match found.get_strs(option) {
        Some(words) => words.iter().any(|other| *other == word),
        None => false,
    }
}

/// Returns the kinds of single faults: `[--faults]`.
fn kinds_of(found: &ArgMatches<'_>) -> Kinds {
    if found.get_strs("faults").is_none() {
        return Kinds {
            damage: true,
            absent: true,
            gone: false,
        };
    }
    Kinds {
        damage: has_word(found, "faults", "damage"),
        absent: has_word(found, "faults", "absent"),
        gone: has_word(found, "faults", "gone"),
    }
}

/// Returns the random sets: `[--random] [--seed] [--rate]`.
fn random_of(found: &ArgMatches<'_>) -> Option<RandomSets> {
    let Some(count) = found.get_one::<u32>("random") else {
        return None;
    };
    Some(RandomSets {
        count,
        seed: found.get_one::<u64>("seed").unwrap_or(1),
        rate: found.get_one::<u16>("rate").unwrap_or(20),
    })
}

/// Returns the part of the rows: `[--part]`; `None` if it isn't one of at most 1,000,000.
fn part_of(text: &str) -> Option<CampaignPart> {
    let (number, count) = text.split_once('/')?;
    let part = CampaignPart {
        number: number.parse::<u32>().ok()?,
        count: count.parse::<u32>().ok()?,
    };
    if 1 <= part.number && part.number <= part.count && part.count <= 1_000_000 {
        Some(part)
    } else {
        None
    }
}

fn row_format_of(word: Option<&str>) -> RowFormat {
    match word {
        Some("csv") => RowFormat::Csv,
        Some("jsonl") => RowFormat::Jsonl,
        Some("junit") => RowFormat::Junit,
        Some("html") => RowFormat::Html,
        _ => RowFormat::Text,
    }
}

/// Returns the plan of a campaign.
///
/// # Errors
/// `Part`.
fn plan_of<'a>(found: &ArgMatches<'a>) -> Result<CampaignPlan, Invalid<'a>> {
    let part = found.get_str("part").unwrap_or("1/1");
    Ok(CampaignPlan {
        kinds: kinds_of(found),
        pairs: found.get_flag("pairs"),
        random: random_of(found),
        part: match part_of(part) {
            Some(part) => part,
            None => return Err(Invalid::Part(part)),
        },
        format: row_format_of(found.get_str("to")),
        denies_broken: has_word(found, "deny", "broken"),
        denies_never: has_word(found, "deny", "never"),
        is_watched: false,
    })
}

/// Returns the format of the log, if the command line names one.
fn given_format<'a>(found: &ArgMatches<'a>) -> Option<&'a str> {
    match found.value_source("to") {
        Some(ValueSource::CommandLine) => found.get_str("to"),
        _ => None,
    }
}

/// Whether several scripts are named.
fn has_several(found: &ArgMatches<'_>) -> bool {
    match found.get_strs("script") {
        Some(scripts) => scripts.len() > 1,
        None => false,
    }
}

/// Returns the names of the bench scripts of `play`: their files as they are given.
///
/// # Errors
/// `SeveralScripts`, `OutOfMemory`.
fn scripts_of<'a>(alloc: Global, matches: &ArgMatches<'a>) -> Result<Vec<&'a str>, Invalid<'a>> {
    let mut scripts = Vec::new(alloc);
    let Some(("play", found)) = matches.subcommand() else {
        return Ok(scripts);
    };
    if let Some(format) = given_format(found)
        && format != "junit"
        && has_several(found)
    {
        return Err(Invalid::SeveralScripts(format));
    }
    let Some(names) = found.get_strs("script") else {
        return Ok(scripts);
    };
    for name in names {
        if scripts.push(*name).is_err() {
            return Err(Invalid::OutOfMemory);
        }
    }
    Ok(scripts)
}

/// Returns the name of the bench script: its file as it was given, `-` for standard input.
fn script_of<'a>(found: &ArgMatches<'a>) -> &'a str {
    found.get_str("script").unwrap_or("-")
}

/// Returns the number of data bytes of messages that the timing of tables is wanted for.
fn timing_of(found: &ArgMatches<'_>) -> Option<u16> {
    if found.get_flag("timing") {
        Some(found.get_one::<u16>("bytes").unwrap_or(6))
    } else {
        None
    }
}

/// Whether a class of differences is listed.
fn is_listed(only: Option<&[&str]>, class: &str) -> bool {
    match only {
        Some(only) => only.iter().any(|word| *word == class),
        None => true,
    }
}

/// Returns the classes of differences that are listed: `[--only]`.
fn classes_of(found: &ArgMatches<'_>) -> Classes {
    let only = found.get_strs("only");
    Classes {
        bytes: is_listed(only, "bytes"),
        timing: is_listed(only, "timing"),
        meaning: is_listed(only, "meaning"),
        compatible: is_listed(only, "compatible"),
        names: is_listed(only, "names"),
    }
}

/// Returns the file of the bench script; `None` for standard input.
fn script_file_of<'a>(found: &ArgMatches<'a>) -> Option<&'a str> {
    found.get_str("script").filter(|path| *path != "-")
}

fn request_of<'a>(matches: &ArgMatches<'a>) -> Option<Request<'a>> {
    match matches.subcommand() {
        Some(("check", found)) if found.get_flag("plain") => {
            Some(Request::CheckPlain(found.get_str("file").unwrap_or("")))
        }
        Some(("check", found)) if found.get_str("to").is_some() => Some(Request::CheckObject {
            file: found.get_str("file").unwrap_or(""),
            reading: reading_of(found),
            extras: extras_of(found),
        }),
        Some(("check", found)) => Some(Request::Check {
            file: found.get_str("file").unwrap_or(""),
            reading: reading_of(found),
            extras: extras_of(found),
            lists: Lists {
                frames: found.get_flag("frames"),
                maps: found.get_flag("map"),
                slots: found.get_flag("slots"),
                signals: found.get_flag("signals"),
                timing: timing_of(found),
            },
        }),
        Some(("diff", found)) => Some(Request::Diff {
            old: found.get_str("old").unwrap_or(""),
            new: found.get_str("new").unwrap_or(""),
            reading: reading_of(found),
            classes: classes_of(found),
        }),
        Some(("live", found)) => Some(Request::Live(settings_of(found))),
        Some(("play", found)) => Some(Request::Play {
            settings: play_settings_of(found),
            faults: found.get_str("fault"),
            report: found.get_str("junit"),
        }),
        Some(("replay", found)) if found.get_flag("same") => {
            Some(Request::Compare(settings_of(found)))
        }
        Some(("replay", found)) => Some(Request::Replay(settings_of(found))),
        Some(("run", found)) => Some(Request::Run {
            settings: settings_of(found),
            slots: found.get_one::<u32>("slots").unwrap_or(1),
        }),
        _ => None,
    }
}

/// Returns which warnings are reported, and which of these are denied: `[--deny]` and `[--allow]` of
/// `check`.
fn levels_of<'a>(alloc: Global, matches: &ArgMatches<'a>) -> Result<Levels, Invalid<'a>> {
    let Some(("check", found)) = matches.subcommand() else {
        return Ok(Levels::new(alloc));
    };
    let denied = found.get_str("deny");
    let allowed = found.get_str("allow");
    match read_levels(alloc, denied, allowed, reading_of(found), extras_of(found)) {
        Ok(levels) => Ok(levels),
        Err(bad) => Err(Invalid::Kinds(bad)),
    }
}

/// Returns a parameter that is given with a script; `None` if it has no name or no text.
fn parameter_of(word: &str) -> Option<GivenParameter<'_>> {
    let (name, text) = word.split_once('=')?;
    let has_field = text
        .as_bytes()
        .iter()
        .any(|byte| *byte != b' ' && *byte != b'\t');
    if is_name(name.as_bytes()) && has_field {
        Some(GivenParameter {
            name: name.as_bytes(),
            text: text.as_bytes(),
        })
    } else {
        None
    }
}

/// Returns the parameters that are given with a script: `[--set]`. The last one of a name is the first.
///
/// # Errors
/// `Parameter`, `OutOfMemory`.
fn given_of<'a>(
    alloc: Global,
    matches: &ArgMatches<'a>,
) -> Result<Vec<GivenParameter<'a>>, Invalid<'a>> {
    let mut given = Vec::new(alloc);
    let words = match matches.subcommand() {
        Some(("play", found)) => found.get_strs("set"),
        Some(("campaign", found)) => found.get_strs("set"),
        _ => None,
    };
    let Some(words) = words else {
        return Ok(given);
    };
    for word in words.iter().rev() {
        let Some(parameter) = parameter_of(*word) else {
            return Err(Invalid::Parameter(*word));
        };
        if given.push(parameter).is_err() {
            return Err(Invalid::OutOfMemory);
        }
    }
    Ok(given)
}

/// Parses the command line, of which the first word is the program's name.
///
/// # Errors
/// `Clap`: an invalid command line, a requested help or version text, or out of memory. `Kinds`, also
/// if memory for the kinds runs out. `Part`. `Parameter`. `SeveralScripts`. `TwoInputs`.
pub(crate) fn read_words<'a>(
    alloc: Global,
    words: &'a [String],
) -> Result<Option<Asked<'a>>, Invalid<'a>> {
    let command = match command(alloc) {
        Ok(command) => command,
        Err(error) => return Err(Invalid::Clap(clap::Error::from(error))),
    };
    let matches = match command.try_get_matches_from(words) {
        Ok(matches) => matches,
        Err(error) => return Err(Invalid::Clap(error)),
    };
    let request = match matches.subcommand() {
        Some(("campaign", found)) => Request::Campaign {
            settings: campaign_settings_of(found),
            plan: plan_of(found)?,
            script: script_file_of(found),
        },
        _ => match request_of(&matches) {
            Some(request) => request,
            None => return Ok(None),
        },
    };
    if let Request::Diff {
        old: "-",
        new: "-",
        ..
    } = request
    {
        return Err(Invalid::TwoInputs);
    }
    Ok(Some(Asked {
        request,
        wanted: wanted_of(&matches),
        levels: levels_of(alloc, &matches)?,
        given: given_of(alloc, &matches)?,
        scripts: scripts_of(alloc, &matches)?,
    }))
}
