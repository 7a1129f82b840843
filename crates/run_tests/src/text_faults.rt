//! The texts of faults that no text causes: out of memory, pairs too long to be written, and records at fault.
use col_build::PushFault;
use data_types::RowFault;
use fmt_string::FormatFault;
use run_model::WordsError;
use schema_check::SchemaFault;
use schema_meta::{MetaFault, MetaWriteFault};
use stage_plan::{PlanFault, StageFault, TypesFault};
use std::test::Fail;

#[test]
fn want_of_memory_has_one_text(rt: HostRuntime) -> Result<(), Fail> {
    let alloc = rt.alloc();
    let texts = [
        FormatFault::NoMemory.to_string(alloc)?,
        MetaFault::NoMemory.to_string(alloc)?,
        MetaWriteFault::NoMemory.to_string(alloc)?,
        StageFault::NoMemory.to_string(alloc)?,
        TypesFault::NoMemory.to_string(alloc)?,
        PlanFault::NoMemory.to_string(alloc)?,
        WordsError::NoMemory.to_string(alloc)?,
        SchemaFault::NoMemory.to_string(alloc)?,
        PushFault::NoMemory.to_string(alloc)?,
    ];
    for text in &texts {
        assert_eq!(rt; text.as_str(), "out of memory");
    }
    Ok(())
}

#[test]
fn a_pair_that_is_too_long_is_named(rt: HostRuntime) -> Result<(), Fail> {
    let fault = MetaWriteFault::TooLong(1).to_string(rt.alloc())?;
    assert_eq!(rt; fault.as_str(), "TooLong at pair 1");
    Ok(())
}

#[test]
fn faults_of_records_have_their_texts(rt: HostRuntime) -> Result<(), Fail> {
    let faults = [
        (RowFault::Ragged { row: 3, found: 1 }, "record 3: 1 fields"),
        (
            RowFault::Field { row: 7, column: 2 },
            "record 7, column 2: not a value of its type",
        ),
    ];
    for (fault, text) in faults {
        assert_eq!(rt; fault.to_string(rt.alloc())?.as_str(), text);
    }
    Ok(())
}
