//! Each format with writers that fail, that take a few bytes a write or none, with an empty log,
//! and with long names.

ghost use Rattle.std.specs.Prelude.{Some};

use crate::clusters::{expect_bytes, replaced, run};
use crate::samples;
use lin_core::Core;
use lin_export::{ExportFault, write_csv, write_first_slots, write_named, write_pcap, write_vcd};
use lin_tool::{Format, Shown, write_shown};
use std::alloc::Global;
use std::io::{Error, ErrorKind, Write};
use std::process::Abort;
use std::test::Fail;

/// How many bytes a write takes at most.
const MOST: usize = 16;

/// Takes a few bytes a write, and after some writes fails in one way or takes nothing; it counts
/// the writes.
#[derive(Drop)]
struct Refusing {
    taken: Vec<u8>,
    good: usize,
    calls: usize,
    kind: Option<ErrorKind>,
}

impl Write for Refusing {
    ghost contents = { λ w. Some w.taken.items };

    fn write(&mut self, buf: &[u8]) -> std::io::Result<usize> {
        self.calls = self.calls.saturating_add(1);
        if self.good == 0 {
            return match self.kind {
                Some(kind) => Err(Error::from(kind)),
                None => Ok(0),
            };
        }
        self.good -= 1;
        let count = buf.len().min(MOST);
        if self.taken.extend_from_slice(&buf[..count]).is_err() {
            return Err(Error::from(ErrorKind::OutOfMemory));
        }
        Ok(count)
    }

    fn flush(&mut self) -> std::io::Result<()> {
        Ok(())
    }
}

#[derive(Clone, Copy)]
enum Form {
    Named,
    Csv,
    Jsonl,
    Pcap,
    Vcd,
    FirstSlots,
}

const FORMS: [Form; 6] = [
    Form::Named,
    Form::Csv,
    Form::Jsonl,
    Form::Pcap,
    Form::Vcd,
    Form::FirstSlots,
];

fn name_of(form: Form) -> &'static str {
    match form {
        Form::Named => "named",
        Form::Csv => "csv",
        Form::Jsonl => "jsonl",
        Form::Pcap => "pcap",
        Form::Vcd => "vcd",
        Form::FirstSlots => "first slots",
    }
}

fn write_form<W: Write>(
    form: Form,
    alloc: Global,
    core: &Core,
    writer: &mut W,
) -> Result<(), ExportFault> {
    let cluster = core.cluster();
    let log = core.log();
    match form {
        Form::Named => write_named(alloc, cluster, None, log, writer),
        Form::Csv => write_csv(alloc, cluster, None, log, writer),
        Form::Jsonl => {
            let shown = Shown {
                format: Format::Jsonl("-"),
                coded: None,
                table: 0,
                capacity: 16,
                judgements: &[],
                tests: &[],
                script: None,
                files: &[],
            };
            write_shown(alloc, &shown, core, writer)
        }
        Form::Pcap => write_pcap(alloc, cluster, log, writer),
        Form::Vcd => write_vcd(alloc, cluster, None, log, writer),
        Form::FirstSlots => write_first_slots(alloc, cluster, log, writer),
    }
}

/// After some writes the writer fails: it has taken a beginning of the text, and isn't asked again.
fn expect_beginning(
    rt: &impl Abort,
    alloc: Global,
    form: Form,
    core: &Core,
    good: usize,
    kind: Option<ErrorKind>,
) -> Result<(), Fail> {
    let mut text = Vec::new(alloc);
    write_form(form, alloc, core, &mut text)?;
    let mut writer = Refusing {
        taken: Vec::new(alloc),
        good,
        calls: 0,
        kind,
    };
    let written = write_form(form, alloc, core, &mut writer);
    let name = name_of(form);
    assert!(rt;
        matches!(written, Err(ExportFault::WriteFailed)),
        "{name} after {good}"
    );
    assert!(rt;
        writer.calls == good.saturating_add(1),
        "{name} after {good}"
    );
    assert!(rt;
        writer.taken.len() == good.saturating_mul(MOST),
        "{name} after {good}"
    );
    assert!(rt;
        text.as_slice().starts_with(writer.taken.as_slice()),
        "{name} after {good}"
    );
    Ok(())
}

#[test]
fn writers_that_fail(rt: HostRuntime) -> Result<(), Fail> {
    let first = run(rt.alloc(), samples::BUILT_IN, samples::FIRST_LOG)?;
    for form in FORMS {
        let mut text = Vec::new(rt.alloc());
        write_form(form, rt.alloc(), &first, &mut text)?;
        for good in 0..text.len().div_ceil(MOST) {
            expect_beginning(&rt, rt.alloc(), form, &first, good, Some(ErrorKind::Other))?;
        }
    }
    let keys = run(rt.alloc(), samples::LIGHTS, samples::KEYS_LOG)?;
    for form in FORMS {
        for (good, kind) in [
            (0, None),
            (0, Some(ErrorKind::BrokenPipe)),
            (2, Some(ErrorKind::StorageFull)),
            (1, Some(ErrorKind::Interrupted)),
        ] {
            expect_beginning(&rt, rt.alloc(), form, &keys, good, kind)?;
        }
    }
    Ok(())
}

#[test]
fn a_few_bytes_a_write(rt: HostRuntime) -> Result<(), Fail> {
    let core = run(rt.alloc(), samples::BUILT_IN, samples::FIRST_LOG)?;
    for form in FORMS {
        let mut text = Vec::new(rt.alloc());
        write_form(form, rt.alloc(), &core, &mut text)?;
        let mut writer = Refusing {
            taken: Vec::new(rt.alloc()),
            good: text.len(),
            calls: 0,
            kind: None,
        };
        write_form(form, rt.alloc(), &core, &mut writer)?;
        expect_bytes(
            &rt,
            &writer.taken,
            &text,
            "a few bytes a write",
            name_of(form),
        );
    }
    Ok(())
}

#[test]
fn empty_log(rt: HostRuntime) -> Result<(), Fail> {
    let core = run(rt.alloc(), samples::BUILT_IN, b"")?;
    let mut named = Vec::new(rt.alloc());
    write_form(Form::Named, rt.alloc(), &core, &mut named)?;
    expect_bytes(&rt, &named, b"", "an empty log", "named");
    let mut csv = Vec::new(rt.alloc());
    write_form(Form::Csv, rt.alloc(), &core, &mut csv)?;
    let columns = b"slot,time_us,delay_us,table,entry,kind,frame,header,nodes,seen,data,checksum\n";
    expect_bytes(&rt, &csv, columns, "an empty log", "csv");
    let mut pcap = Vec::new(rt.alloc());
    write_form(Form::Pcap, rt.alloc(), &core, &mut pcap)?;
    assert!(rt; pcap.len() == 24 && samples::FIRST_PCAP.starts_with(pcap.as_slice()));
    let mut vcd = Vec::new(rt.alloc());
    write_form(Form::Vcd, rt.alloc(), &core, &mut vcd)?;
    assert!(rt; samples::FIRST_VCD.starts_with(vcd.as_slice()));
    assert!(rt; vcd.as_slice().ends_with(b"$end\n"));
    let mut first = Vec::new(rt.alloc());
    write_form(Form::FirstSlots, rt.alloc(), &core, &mut first)?;
    assert!(rt;
        first
            .as_slice()
            .starts_with(b"<table>\n<tr><th>slot<th>time_us")
    );
    assert!(rt; first.as_slice().ends_with(b"<th>checksum\n</table>\n"));
    Ok(())
}

/// A name of 1,000 bytes.
const LONG: [u8; 1000] = [b'n'; 1000];

/// A run of a cluster in which a name is a long one.
fn renamed(alloc: Global, ldf: &[u8], name: &[u8], log: &[u8]) -> Result<Core, Fail> {
    let ldf = replaced(alloc, ldf, name, &LONG)?;
    run(alloc, &ldf, log)
}

/// Such a run is written as the one with the short name is, but for the name.
fn expect_renamed(
    rt: &impl Abort,
    alloc: Global,
    form: Form,
    core: &Core,
    text: &[u8],
    name: &[u8],
) -> Result<(), Fail> {
    let mut found = Vec::new(alloc);
    write_form(form, alloc, core, &mut found)?;
    let want = replaced(alloc, text, name, &LONG)?;
    expect_bytes(rt, &found, &want, "a long name", name_of(form));
    Ok(())
}

/// A run, and what it is written as in some formats with a long name in place of a short one.
fn expect_long_name(
    rt: &impl Abort,
    alloc: Global,
    ldf: &[u8],
    name: &[u8],
    log: &[u8],
    texts: &[(Form, &[u8])],
) -> Result<(), Fail> {
    let core = renamed(alloc, ldf, name, log)?;
    for (form, text) in texts {
        expect_renamed(rt, alloc, *form, &core, text, name)?;
    }
    Ok(())
}

#[test]
fn names_of_1000_bytes(rt: HostRuntime) -> Result<(), Fail> {
    expect_long_name(
        &rt,
        rt.alloc(),
        samples::BUILT_IN,
        b"door",
        samples::FIRST_LOG,
        &[
            (Form::Named, samples::FIRST_NAMED),
            (Form::Pcap, samples::FIRST_PCAP),
            (Form::Vcd, samples::FIRST_VCD),
        ],
    )?;
    expect_long_name(
        &rt,
        rt.alloc(),
        samples::LIGHTS,
        b"lkey",
        samples::KEYS_LOG,
        &[
            (Form::Named, samples::KEYS_NAMED),
            (Form::Csv, samples::KEYS_CSV),
            (Form::Vcd, samples::KEYS_VCD),
        ],
    )
}
