//! The slot that ended last, found anew and from what was found before.

ghost use Rattle.std.specs.Prelude.{IfOk, IfSome};
ghost use Rattle.lin_export.specs.LastSlot.{IsKeptOf};

use crate::clusters::{expect_bytes, run};
use crate::samples;
use lin_core::Core;
use lin_export::{LastSlot, put_last_slot, put_last_slot_value};
use lin_text::{TextBuffer, TextWriter};
use std::alloc::Global;
use std::process::Abort;
use std::test::Fail;

/// The last slot of a core's log as words and as a value, with what was found in a log before.
fn expect_last(
    rt: &impl Abort,
    alloc: Global,
    core: &Core,
    known: Option<LastSlot>,
    words: &[u8],
    value: &[u8],
) -> Result<Option<LastSlot>, Fail>
    requires { IfSome known (IsKeptOf core.now.cluster core.now.log) }
    ensures { IfOk result (λ last. IfSome last (IsKeptOf core.now.cluster core.now.log)) }
{
    let last = LastSlot::find(alloc, core.cluster(), core.log(), known)?;
    let mut text = Vec::new(alloc);
    let mut buffer = TextBuffer::empty();
    let mut out = TextWriter::new(&mut text, &mut buffer);
    put_last_slot(&mut out, core.cluster(), last.as_ref());
    out.finish()?;
    expect_bytes(rt, &text, words, "last slot", "words");
    let mut object = Vec::new(alloc);
    let mut buffer = TextBuffer::empty();
    let mut out = TextWriter::new(&mut object, &mut buffer);
    put_last_slot_value(&mut out, core.cluster(), last.as_ref());
    out.finish()?;
    expect_bytes(rt, &object, value, "last slot", "value");
    Ok(last)
}

#[test]
fn the_last_slot_of_logs(rt: HostRuntime) -> Result<(), Fail> {
    let alloc = rt.alloc();
    let empty = run(alloc, samples::LIGHTS, b"")?;
    expect_last(&rt, alloc, &empty, None, b" none", b"null")?;
    let core = run(alloc, samples::LIGHTS, samples::KEYS_LOG)?;
    let words = b" 4 40000 Main 2 Light good 52D5";
    let value =
        b"{\"slot\":4,\"time_us\":40000,\"table\":\"Main\",\"entry\":2,\"frame\":\"Light\",\"seen\":\"good\",\"data\":\"52D5\"}";
    let found = expect_last(&rt, alloc, &core, None, words, value)?;
    expect_last(&rt, alloc, &core, found, words, value)?;
    Ok(())
}
