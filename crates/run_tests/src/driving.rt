//! What `drive` makes of the stream, by a filter and a plain column.
ghost use Rattle.std.specs.Prelude.{◌≤◌};
ghost use Rattle.fan_out.specs.promise.Counts.{most_workers};

use crate::own::{OwnStream, own_columns};
use data_types::RowFault;
use edge_io::OpenGate;
use pipe_top::{DriveFault, Workers, drive};
use stage_plan::{StageText, read_stage, type_plan};
use std::alloc::Global;
use std::process::Abort;
use std::test::Fail;
use std::thread::Threads;
use stream_face::NoTap;
use unit_pass::{SUPPLY, open_desk};

/// The stage of a text.
fn stage_of(rt: &impl Abort, alloc: Global, text: &str) -> StageText {
    match read_stage(alloc, text) {
        Ok(stage) => stage,
        Err(_fault) => panic!(rt; "the stage is read"),
    }
}

/// What `drive` makes of the stream by these workers. All units are back.
fn driven<R: Abort + Threads + Sync>(
    rt: &R,
    alloc: Global,
    bad: bool,
    workers: u32,
) -> Result<Result<Vec<u8>, DriveFault>, Fail>
    requires workers { (1 ≤ workers) × (workers ≤ most_workers) }
{
    let mut stages = Vec::with_capacity(alloc, 2)?;
    stages.push_reserved(stage_of(rt, alloc, "filter=n,gt,1"));
    stages.push_reserved(stage_of(rt, alloc, "plain=k"));
    let Ok(columns) = own_columns(alloc) else {
        panic!(rt; "there is memory");
    };
    let Ok(plan) = type_plan(alloc, columns, stages.as_slice()) else {
        panic!(rt; "the stages fit the columns");
    };
    assert!(rt; plan.steps.len() <= 16);
    let (desk, mut pass) = open_desk();
    let source = OwnStream::new(bad);
    let text = drive(
        rt,
        alloc,
        source,
        plan,
        b"",
        Workers { count: workers },
        &mut pass,
        &mut NoTap,
        &OpenGate,
    );
    assert_eq!(rt; pass.units(), SUPPLY);
    let _audit = desk.close(pass);
    Ok(text)
}

#[test]
fn text_is_that_of_the_trees(rt: HostRuntime) -> Result<(), Fail> {
    for workers in [1, 4] {
        let Ok(text) = driven(&rt, rt.alloc(), false, workers)? else {
            panic!(rt; "the stream ends well, and there is memory");
        };
        assert_eq!(rt; text.as_slice(), b"k,n\ny,2\nx,3\n".as_slice());
    }
    Ok(())
}

#[test]
fn record_at_fault_is_that_of_the_ending(rt: HostRuntime) -> Result<(), Fail> {
    let Err(fault) = driven(&rt, rt.alloc(), true, 1)? else {
        panic!(rt; "the stream ends at a record");
    };
    assert_eq!(rt;
        fault,
        DriveFault::Row(RowFault::Ragged { row: 4, found: 1 })
    );
    Ok(())
}
