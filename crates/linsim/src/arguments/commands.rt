//! The subcommands.

use crate::arguments::options::{
    ANSWER_FORMATS, FORMATS, PLAY_FORMATS, allowed, capacity, compared_field, configuration,
    denied, denied_results, explain, explained_file, fault_kinds, faults, field, file, format,
    linted, listed_frames, listed_maps, listed_signals, listed_slots, listed_timing, meanings,
    message_bytes, new_file, object, old_file, only, pairs, parameters, part, physical, places,
    plain, random, rate, report, row_format, same, script, script_places, scripts, seed, slots,
    strict, strict_rows, table,
};
use clap::Command;
use std::alloc::{AllocError, Global};

const STATUS_NOTE: &str =
    "Exit status: 0 success; 1 invalid input; 2 invalid command line; 3 out of memory; 4 read or write error;\n5 a limit of the run was reached; 6 an expectation failed or each fault changed no slot (play, live), the log\ndiffers (replay --same), the LDF files differ (diff), a denied warning is reported (check --deny), or a campaign\nhas a denied result (campaign --deny).\nEach error is one line on standard error. With --explain, more lines explain it.";

const REPLAY_NOTE: &str =
    "The script is read from standard input. A log is a script too, so this command also converts logs.\n\nThe built-in cluster has the commander cem, the responder door (NAD 1) and the schedule table diag, with a master\nrequest and a slave response of 10 ms each.\n\nExample: linsim replay door.ldf --to csv < door.script > door.csv";

const RUN_NOTE: &str =
    "The script is read from standard input and has only send, write and close steps, each by its host's own port. The\nhosts execute them while the slots run, so their positions in the log differ from run to run. Every log can be\nreplayed.\n\nExample: linsim run door.ldf --slots 100 < hosts.script > door.log";

const PLAY_NOTE: &str =
    "Lines of a bench script:\n  the steps of replay's scripts, by name or number\n  slot, slot hurt BYTES, slot leave NODE.., slots N, slots N ms, slots idle\n  slots N until FORM, slots N while FORM, slots N leave NODE..\n  expect FORM, forget\n  test NAME, include FILE, set NAME TEXT, repeat N, end\n  when NODE PATTERN answer BYTES, when NODE PATTERN silent, when NODE PATTERN off, state NODE NAME,\n  timeouts N ms, timeouts ldf, every N ms STEP, on FORM do STEP, node NODE off, response_errors on,\n  services on\n\nValues are numbers, or physical values and texts after = or ~: write Temp = 5 degC.\n\nThe log is written first, then one line on standard error for each expectation that failed. The format junit is a\ntest report instead of the log. Several scripts are played in order, as with --where. Then only\n--to junit writes to standard output.\n\nExample: linsim play door.ldf door.bench --where > door.log";

const CAMPAIGN_NOTE: &str =
    "The script is played as it is, and once under each single fault: damage corrupts the only response of a slot, absent\nomits the response of a node in a slot, gone omits its responses from that slot on. Each play is one row of the output.\n\nAfter the rows, standard error has one line for each line of the script with an expectation: how many rows break it.\nlinsim play --fault FAULTS writes the complete log of a row.\n\nExample: linsim campaign door.ldf door.bench --faults damage,absent,gone";

const LIVE_NOTE: &str =
    "Each line of standard input is answered before the next one is read. The answer is the log of that line, then one\nline that begins with #: ok, is VALUE, expected WHAT: GOT, refused NUMBER NAME, bad line: REASON or slot limit.\nWith --to jsonl, the answer is JSON objects, the last one of the type answer.\n\nQuestions: ? signal NODE SIGNAL, ? waiting NODE, ? idle, ? time, ? asleep, ? next, ? slot, ? rules,\n? nodes, ? version.\n\nMarks: mark NAME sets a mark, and back NAME goes back to it. The mark start is the beginning of the session.\n\nExample: linsim live door.ldf < door.bench";

const CHECK_NOTE: &str =
    "Standard output has one line per item: node NUMBER NAME NAD (- for none), signal NUMBER NAME, and\ntable NUMBER NAME ENTRIES.\n\nStandard error has one line per problem. A syntax error is ldf LINE:COLUMN fault NUMBER NAME; only the first is\nreported. An error in the description is LINE:COLUMN finding NUMBER NAME. A warning of --field, --physical, --lint\nor --configuration is LINE:COLUMN warning NUMBER NAME, and doesn't change the exit status without --deny. A file of\nmore than 4,194,304 bytes is ldf too long.\n\nKINDS is one or more of these, with commas between them: all, a number, FROM-TO, the name of a warning. A warning\nthat is allowed isn't reported, even if it is denied too.\n\nExample: linsim check door.ldf --lint --deny all --allow 54,OffTimeBase";

const DIFF_NOTE: &str =
    "Each line is CLASS OLDPLACE NEWPLACE SUBJECT: OLDVALUE -> NEWVALUE. A place is FILE:LINE:COLUMN, or - for none. The\nvalue - is none. OLD is checked first; only the first file with errors is reported. The exit status is 6 if there is\na line.\n\nClasses:\n  bytes       a node made for OLD may misread, miss or not answer something\n  timing      the same bytes at other times\n  meaning     the same bytes at the same times mean something else\n  compatible  additions that no node of OLD looks at\n  names       names, versions and notes\n\nExample: linsim diff old.ldf new.ldf --only bytes,timing";

fn replay<'a>(alloc: Global) -> Result<Command<'a>, AllocError> {
    Command::new(alloc, "replay")
        .about("Run a script of steps and write the log")
        .after_help(REPLAY_NOTE)
        .arg(file(alloc, "LDF file [default: the built-in cluster]"))?
        .arg(table(alloc))?
        .arg(capacity(alloc))?
        .arg(format(alloc, FORMATS.as_slice()))?
        .arg(same(alloc)?)?
        .arg(field(alloc))?
        .arg(meanings(alloc))?
        .arg(configuration(alloc))?
        .arg(explain(alloc))
}

fn check<'a>(alloc: Global) -> Result<Command<'a>, AllocError> {
    Command::new(alloc, "check")
        .about("Check an LDF file and list its nodes, signals and schedule tables")
        .after_help(CHECK_NOTE)
        .arg(file(alloc, "LDF file, or - for standard input").required(true))?
        .arg(listed_frames(alloc))?
        .arg(listed_maps(alloc))?
        .arg(listed_slots(alloc))?
        .arg(listed_signals(alloc)?)?
        .arg(listed_timing(alloc))?
        .arg(message_bytes(alloc)?)?
        .arg(field(alloc))?
        .arg(physical(alloc))?
        .arg(linted(alloc))?
        .arg(configuration(alloc))?
        .arg(plain(alloc)?)?
        .arg(object(alloc)?)?
        .arg(denied(alloc))?
        .arg(allowed(alloc))?
        .arg(places(alloc))?
        .arg(explained_file(alloc))
}

fn diff<'a>(alloc: Global) -> Result<Command<'a>, AllocError> {
    Command::new(alloc, "diff")
        .about("Compare two LDF files and list their differences by what they mean on the bus")
        .after_help(DIFF_NOTE)
        .arg(old_file(alloc))?
        .arg(new_file(alloc))?
        .arg(compared_field(alloc))?
        .arg(only(alloc))
}

fn run<'a>(alloc: Global) -> Result<Command<'a>, AllocError> {
    Command::new(alloc, "run")
        .about("Run each host and each node in a thread of its own and write the log")
        .after_help(RUN_NOTE)
        .arg(file(alloc, "LDF file").required(true))?
        .arg(slots(alloc))?
        .arg(table(alloc))?
        .arg(capacity(alloc))?
        .arg(format(alloc, FORMATS.as_slice()))?
        .arg(field(alloc))?
        .arg(meanings(alloc))?
        .arg(configuration(alloc))?
        .arg(explain(alloc))
}

fn play<'a>(alloc: Global) -> Result<Command<'a>, AllocError> {
    Command::new(alloc, "play")
        .about("Run a bench script and check its expectations")
        .after_help(PLAY_NOTE)
        .arg(file(alloc, "LDF file").required(true))?
        .arg(scripts(alloc))?
        .arg(table(alloc))?
        .arg(capacity(alloc))?
        .arg(faults(alloc))?
        .arg(parameters(alloc))?
        .arg(format(alloc, PLAY_FORMATS.as_slice()))?
        .arg(report(alloc))?
        .arg(field(alloc))?
        .arg(meanings(alloc))?
        .arg(configuration(alloc))?
        .arg(script_places(alloc))?
        .arg(strict(alloc))?
        .arg(explain(alloc))
}

fn campaign<'a>(alloc: Global) -> Result<Command<'a>, AllocError> {
    Command::new(alloc, "campaign")
        .about("Run a bench script under each single fault and list which expectations fail")
        .after_help(CAMPAIGN_NOTE)
        .arg(file(alloc, "LDF file").required(true))?
        .arg(script(alloc))?
        .arg(parameters(alloc))?
        .arg(fault_kinds(alloc))?
        .arg(pairs(alloc))?
        .arg(random(alloc))?
        .arg(seed(alloc)?)?
        .arg(rate(alloc)?)?
        .arg(part(alloc))?
        .arg(denied_results(alloc))?
        .arg(table(alloc))?
        .arg(capacity(alloc))?
        .arg(row_format(alloc))?
        .arg(field(alloc))?
        .arg(configuration(alloc))?
        .arg(strict_rows(alloc))?
        .arg(explain(alloc))
}

fn live<'a>(alloc: Global) -> Result<Command<'a>, AllocError> {
    Command::new(alloc, "live")
        .about("Run the lines of a bench script interactively")
        .after_help(LIVE_NOTE)
        .arg(file(alloc, "LDF file").required(true))?
        .arg(table(alloc))?
        .arg(capacity(alloc))?
        .arg(format(alloc, ANSWER_FORMATS.as_slice()))?
        .arg(field(alloc))?
        .arg(meanings(alloc))?
        .arg(configuration(alloc))?
        .arg(explain(alloc))
}

/// The program's command line, with its subcommands.
pub(crate) fn command<'a>(alloc: Global) -> Result<Command<'a>, AllocError> {
    Command::new(alloc, "linsim")
        .version("0.2.0")
        .about("Simulate a LIN cluster: its schedule tables, signals and diagnostic messages")
        .after_help(STATUS_NOTE)
        .subcommand_required(true)
        .subcommand(campaign(alloc)?)?
        .subcommand(check(alloc)?)?
        .subcommand(diff(alloc)?)?
        .subcommand(live(alloc)?)?
        .subcommand(play(alloc)?)?
        .subcommand(replay(alloc)?)?
        .subcommand(run(alloc)?)
}
