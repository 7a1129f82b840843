//! Each fault's line, as it is written and as it is shown.
use edge_io::MemSink;
use run_model::{PlanRule, RunFault, StageFault, TypesRule, WordsFault, write_diagnostics};
use std::alloc::Global;
use std::process::Abort;
use std::test::Fail;
use unit_pass::Audit;

/// Expects this line of a fault, also where its text is shown.
fn expect_line(rt: &impl Abort, alloc: Global, fault: RunFault, line: &[u8]) -> Result<(), Fail> {
    let audit = Audit {
        blocks: 0,
        nodes: 0,
        left: 0,
    };
    let Ok(mut errs) = MemSink::new(alloc, 100, 9, Vec::new(alloc)) else {
        return Err(Fail::from("memory"));
    };
    let told = write_diagnostics(&mut errs, Some(fault), &audit, false);
    let shown = format!(in alloc; "arrowpipe: {fault}\n")?;
    let has_line = told.is_ok() && errs.taken() == line && shown.as_bytes() == line;
    assert!(rt; has_line, "the line of {fault:?}");
    Ok(())
}

// Each row has a fault, and its line.

static LINES: [(RunFault, &[u8]); 25] = [
    (
        RunFault::Words(WordsFault::Refused),
        b"arrowpipe: words refused\n",
    ),
    (
        RunFault::Words(WordsFault::TooManyStages),
        b"arrowpipe: words: more than 16 stages\n",
    ),
    (
        RunFault::Stage {
            stage: 1,
            rule: StageFault::UnknownStage,
        },
        b"arrowpipe: stage 1: unknown stage\n",
    ),
    (
        RunFault::Stage {
            stage: 16,
            rule: StageFault::BadArguments,
        },
        b"arrowpipe: stage 16: bad arguments\n",
    ),
    (
        RunFault::Stage {
            stage: 2,
            rule: StageFault::NoMemory,
        },
        b"arrowpipe: stage 2: out of memory\n",
    ),
    (
        RunFault::Plan {
            stage: 1,
            rule: PlanRule::NoColumn,
        },
        b"arrowpipe: stage 1: no such column\n",
    ),
    (
        RunFault::Plan {
            stage: 2,
            rule: PlanRule::SameName,
        },
        b"arrowpipe: stage 2: same name twice\n",
    ),
    (
        RunFault::Plan {
            stage: 3,
            rule: PlanRule::WrongType,
        },
        b"arrowpipe: stage 3: wrong column type\n",
    ),
    (
        RunFault::Plan {
            stage: 4,
            rule: PlanRule::BadConstant,
        },
        b"arrowpipe: stage 4: bad constant\n",
    ),
    (
        RunFault::Plan {
            stage: 17,
            rule: PlanRule::NestedOutput,
        },
        b"arrowpipe: stage 17: nested column in the output\n",
    ),
    (
        RunFault::Plan {
            stage: 5,
            rule: PlanRule::NoColumns,
        },
        b"arrowpipe: stage 5: no column left\n",
    ),
    (
        RunFault::Plan {
            stage: 6,
            rule: PlanRule::TooWide,
        },
        b"arrowpipe: stage 6: too many columns\n",
    ),
    (
        RunFault::Schema {
            entry: 1,
            rule: TypesRule::BadEntry,
        },
        b"arrowpipe: schema entry 1: not a column type\n",
    ),
    (
        RunFault::Schema {
            entry: 12,
            rule: TypesRule::Twice,
        },
        b"arrowpipe: schema entry 12: named before\n",
    ),
    (RunFault::NoHeader, b"arrowpipe: no header\n"),
    (
        RunFault::TooManyColumns { count: 1025 },
        b"arrowpipe: header has 1025 columns\n",
    ),
    (
        RunFault::HeaderText { column: 3 },
        b"arrowpipe: header column 3: not UTF-8\n",
    ),
    (
        RunFault::HeaderTwice { column: 2 },
        b"arrowpipe: header column 2: named before\n",
    ),
    (
        RunFault::HeaderUnknown { entry: 1 },
        b"arrowpipe: schema entry 1: no such column\n",
    ),
    (
        RunFault::Ragged { row: 10, found: 0 },
        b"arrowpipe: record 10: 0 fields\n",
    ),
    (
        RunFault::Field { row: 5, column: 2 },
        b"arrowpipe: record 5, column 2: not a value of its type\n",
    ),
    (
        RunFault::InputTooLong,
        b"arrowpipe: input longer than 1073741824 bytes\n",
    ),
    (RunFault::ReadFault, b"arrowpipe: read failed\n"),
    (
        RunFault::WriteFault { taken: 4 },
        b"arrowpipe: write failed after 4 bytes\n",
    ),
    (RunFault::NoMemory, b"arrowpipe: out of memory\n"),
];

#[test]
fn each_fault_has_its_line(rt: HostRuntime) -> Result<(), Fail> {
    for (fault, line) in &LINES {
        expect_line(&rt, rt.alloc(), *fault, *line)?;
    }
    Ok(())
}
