//! `linsim` as a static library for C, whose header is `linsim.h`: whole runs, and handles, which make
//! one line of a script or of a bench script at a time.
#![tactic(auto)]

ghost use Rattle.std.specs.Prelude.{◌≡◌, ℕ, List, length};
ghost use base.Fml.{Share};
ghost use types.Logic.{sem};
ghost use denote.Array.{Array};
ghost use denote.Builtin.{u8};
ghost use denote.RawPtr.{lies_at};
ghost use Rattle.std.specs.declared.option.Option.TheVariants.{None};
ghost use Rattle.linsim_c.specs.BenchSettings.{IsSized};
ghost use Rattle.linsim_c.specs.Lines.{MakesAtHandle, TellsNewest};
ghost use Rattle.linsim_c.specs.Opening.{Opens, OpensBench};
ghost use Rattle.linsim_c.specs.Replaying.{AnswersReplay};
ghost use Rattle.linsim_c.specs.Statuses.{IsCall};
ghost use Rattle.linsim_c.specs.Version.{GivesVersion, version_report};

mod bench_settings;
mod box_parts;
mod entry_texts;
mod fault;
mod handle;
mod handle_opening;
mod kept;
mod ldf_cluster;
mod line_call;
mod replaying;
mod session_bench;
mod settings;
mod version;
mod written_text;

use entry_texts::put;
use fault::{Report, told};
use handle::Handle;
use settings::Settings;
use std::alloc::Global;
use std::slice::from_raw_parts;

/// Writes the version as text at the beginning of `out`, and its length and number to the report.
#[unsafe(no_mangle)]
pub extern "C" fn linsim_version(out: &mut [u8], report: &mut Report) -> u32
    ensures text { GivesVersion result out.old out.new }
    ensures report { report.new ≡ version_report }
{
    told(put(version::TEXT, version::NUMBER, out), report)
}

/// Makes the steps of a script over the cluster of an LDF text, and writes the text of their log at
/// the beginning of `out`.
#[unsafe(no_mangle)]
pub extern "C" fn linsim_replay(
    alloc: Global,
    ldf: &[u8],
    settings: &Settings,
    script: &[u8],
    out: &mut [u8],
    report: &mut Report,
) -> u32
    ensures { IsCall (λ a. AnswersReplay a ldf.now settings.now script.now out.old out.new)
        result report.new }
{
    told(replaying::replay(alloc, ldf, settings, script, out), report)
}

/// Opens a core with an empty log on the cluster of an LDF, if the handle has no session.
#[unsafe(no_mangle)]
pub extern "C" fn linsim_open(
    alloc: Global,
    ldf: &[u8],
    settings: &Settings,
    handle: &mut Handle,
    report: &mut Report,
) -> u32
    ensures { IsCall (λ a. Opens handle.old.value handle.new.value a ldf.now settings.now)
        result report.new }
{
    told(handle_opening::open(alloc, ldf, settings, handle), report)
}

/// Opens a bench on the cluster of an LDF, if the handle has no session.
fn open_bench(
    alloc: Global,
    ldf: &[u8],
    settings: &[u8],
    handle: &mut Handle,
    report: &mut Report,
) -> u32
    ensures { IsCall (λ a. OpensBench handle.old.value handle.new.value a ldf.now settings.now)
        result report.new }
{
    told(
        handle_opening::open_bench(alloc, ldf, settings, handle),
        report,
    )
}

/// Opens a bench on the cluster of an LDF, if the handle has no session. The settings are as many
/// bytes as their first 8 say, and at least these 8.
#[unsafe(no_mangle)]
pub unsafe extern "C" fn linsim_open_bench(
    alloc: Global,
    ldf: &[u8],
    settings: *const u8,
    handle: &mut Handle,
    report: &mut Report,
) -> u32
    ghost g: { Share × List ℕ }
    requires* { sem 𝓛 (lies_at (Array u8 (length g.1)) g.0 settings g.1) ∗ ⌜ IsSized g.1 ⌝ }
    ensures* { sem 𝓛 (lies_at (Array u8 (length g.1)) g.0 settings g.1)
        ∗ ⌜ IsCall (λ a. OpensBench handle.old.value handle.new.value a ldf.now g.1)
        result report.new ⌝ }
{
    let size = bench_settings::read_size(from_raw_parts(settings, 8));
    open_bench(alloc, ldf, from_raw_parts(settings, size), handle, report)
}

/// Makes a line on the session of a handle, and writes its text at the beginning of `out`: that of the
/// line's entry, and nothing for a line that says no step; or the answer to the line of a bench script.
#[unsafe(no_mangle)]
pub extern "C" fn linsim_line(
    alloc: Global,
    handle: &mut Handle,
    line: &[u8],
    out: &mut [u8],
    report: &mut Report,
) -> u32
    ensures { IsCall (λ a. MakesAtHandle handle.old.value handle.new.value a line.now out.old out.new)
        result report.new }
{
    told(line_call::make(alloc, handle, line, out), report)
}

/// Writes the text of the newest entry of the log, or the newest answer, at the beginning of `out`;
/// nothing if there is none.
#[unsafe(no_mangle)]
pub extern "C" fn linsim_newest(
    alloc: Global,
    handle: &mut Handle,
    out: &mut [u8],
    report: &mut Report,
) -> u32
    ensures { IsCall (λ a. TellsNewest handle.old.value handle.new.value a out.old out.new)
        result report.new }
{
    told(line_call::tell_newest(alloc, handle, out), report)
}

/// Frees the session, if the handle has one.
#[unsafe(no_mangle)]
pub extern "C" fn linsim_close(alloc: Global, handle: &mut Handle)
    ensures { handle.new.value ≡ None }
{
    let _kept = handle.take(alloc);
}
