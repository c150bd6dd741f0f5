//! The rows of a campaign.

ghost use Rattle.lin_tool.specs.campaign.Rows.{IsPart};

use crate::clusters::{cluster_of, expect_bytes};
use crate::samples::BUILT_IN;
use lin_text::Many;
use lin_tool::{
    CampaignPart, CampaignPlan, Fault, Format, Kinds, Notes, Opened, PlannedCampaign, Reading,
    RowFormat, Settings, Wanted, campaign_script,
};
use std::alloc::Global;
use std::process::Abort;
use std::test::Fail;

/// A request in one frame, and an empty slot for a response.
const REQUEST: &[u8] = b"send cem door 3E\nslots 2\nexpect message cem door 3E\n";

const ROWS: &[u8] =
    b"-: tolerated\n0:damage (diag 0 MasterReq): 1 unmet in line 3; lost cem 1 damaged\n0:absent:cem (diag 0 MasterReq): 1 unmet in line 3\n0..:absent:cem (diag 0 MasterReq): 1 unmet in line 3\n";

const COUNTS: &[u8] =
    b"-:3: 3 of 3: message cem door 3E (always broken)\ncampaign: 3 rows, 0 tolerated, 3 broken, 0 at the slot limit, 0 with faults that missed; worst 0:damage, 1 line\n";

/// What the campaign of the request writes, and its counts.
fn campaign(
    alloc: Global,
    plan: &CampaignPlan,
) -> Result<(Result<(), Fault>, Vec<u8>, Vec<u8>), Fail>
    requires { IsPart plan.now.part }
{
    let cluster = cluster_of(alloc, BUILT_IN)?;
    if cluster.tables() == 0 {
        return Err(Fail::from("no table"));
    }
    let opened = Opened {
        cluster,
        table: 0,
        coded: None,
        limits: Many::new(Vec::new(alloc)),
        settings: Settings {
            file: None,
            reading: Reading::Plain,
            table: None,
            capacity: 16,
            format: Format::Log,
            is_physical: false,
            is_configured: false,
            is_strict: false,
        },
    };
    let mut reader = REQUEST;
    let mut rows = Vec::new(alloc);
    let mut counts = Vec::new(alloc);
    let mut notes = Notes::new(alloc, Wanted::default());
    let planned = PlannedCampaign { opened, plan };
    let done = campaign_script(
        alloc,
        planned,
        &mut reader,
        &mut rows,
        &mut counts,
        &mut notes,
    );
    Ok((done, rows, counts))
}

#[test]
fn rows_of_a_campaign(rt: HostRuntime) -> Result<(), Fail> {
    let plan = CampaignPlan {
        kinds: Kinds {
            damage: true,
            absent: true,
            gone: true,
        },
        pairs: false,
        random: None,
        part: CampaignPart {
            number: 1,
            count: 1,
        },
        format: RowFormat::Text,
        denies_broken: false,
        denies_never: true,
        is_watched: false,
    };
    let (done, rows, counts) = campaign(rt.alloc(), &plan)?;
    assert!(rt; done.is_ok());
    expect_bytes(&rt, rows.as_slice(), ROWS, "a request", "rows");
    expect_bytes(&rt, counts.as_slice(), COUNTS, "a request", "counts");
    let denied = CampaignPlan {
        denies_broken: true,
        ..plan
    };
    let (done, rows, _counts) = campaign(rt.alloc(), &denied)?;
    assert!(rt; matches!(done, Err(Fault::Denied)));
    expect_bytes(&rt, rows.as_slice(), ROWS, "a denied campaign", "rows");
    Ok(())
}
