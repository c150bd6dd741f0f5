//! Steps that are refused, and for which reason where several hold.

use super::{ANSWER, OPEN, SEND, behind};
use crate::samples::joined;
use std::alloc::Global;
use std::process::Abort;
use std::test::Fail;

/// A text with 4,096 bytes in place of each `LONG`, none of which stands first.
fn with_long(alloc: Global, text: &str) -> Result<Vec<u8>, Fail> {
    let long = vec![in alloc; b'5'; 8192]?;
    let mut out = Vec::new(alloc);
    for part in text.split("LONG") {
        if !out.is_empty() {
            out.extend_from_slice(&long)?;
        }
        out.extend_from_slice(part.as_bytes())?;
    }
    Ok(out)
}

/// Steps after a run that are all refused, which changes nothing.
fn expect_refused(
    rt: &impl Abort,
    alloc: Global,
    capacity: usize,
    run: &[&[u8]],
    refused: &str,
) -> Result<(), Fail> {
    let mut run = joined(alloc, run)?;
    let (before, entries) = behind(rt, alloc, capacity, &run)?;
    run.extend_from_slice(with_long(alloc, refused)?.as_slice())?;
    let (after, all) = behind(rt, alloc, capacity, &run)?;
    assert!(rt; after == before);
    let count = refused.split("> refused ").count().saturating_sub(1);
    assert!(rt; all == entries.saturating_add(count));
    Ok(())
}

const SENDS: &str =
    "h0 send 0 1 -\n> refused 7\nh0 send 0 1 LONG\n> refused 7\nh0 send 0 0 01\n> refused 6\nh0 send 0 9 -\n> refused 1\n";

const WITHOUT_A_SLOT: &str = "n1 send 9 1 -
> refused 1
h1 send 0 9 -
> refused 1
bus send 2 1 01
> refused 1
h0 send 1 1 LONG
> refused 6
h0 send 1 0 LONG
> refused 7
h1 send 0 0 -
> refused 6
bus send 1 1 01
> refused 6
h1 send 0 1 -
> refused 7
n0 send 0 1 LONG
> refused 7
h1 send 0 1 01
> refused 14
n0 send 0 1 01
> refused 14
h0 open
> refused 14
n0 open
> refused 14
h0 answer 2
> refused 1
n1 answer 0
> refused 13
h0 finish
> refused 13
bus finish
> refused 13
";

const FULL: &str = "h1 send 0 1 LONG\n> refused 7\nh1 send 0 1 01\n> refused 9\n";

const UNANSWERED: &str = "bus open
> refused 12
h0 open
> refused 12
n0 answer 2
> refused 1
h0 answer 0
> refused 14
n1 answer 0
> refused 14
n1 answer 1
> refused 14
bus answer 1
> refused 14
h0 finish
> refused 14
n0 finish
> refused 14
";

const ANSWERED: &str = "n1 answer 0
> refused 14
bus answer 1
> refused 14
bus answer 0
> refused 15
n0 answer 0
> refused 15
";

/// Capacities, runs, and steps after them that are refused.
const ROWS: &[(usize, &[&[u8]], &str)] = &[
    (16, &[], SENDS),
    (1, &[], WITHOUT_A_SLOT),
    (1, &[b"bus send 0 1 01\n> accepted 0 1\n"], FULL),
    (16, &[SEND, OPEN], UNANSWERED),
    (16, &[SEND, OPEN, ANSWER], ANSWERED),
];

#[test]
fn refused_steps(rt: HostRuntime) -> Result<(), Fail> {
    for (capacity, run, refused) in ROWS {
        expect_refused(&rt, rt.alloc(), *capacity, run, refused)?;
    }
    Ok(())
}
