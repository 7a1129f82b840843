//! Faults of headers and bodies as they are printed.
use csv_read::{BodyFault, HeaderFault};
use data_types::RowFault;
use std::test::Fail;

/// A fault of a header, and its text.
static OF_HEADERS: [(HeaderFault, &str); 6] = [
    (HeaderFault::NoHeader, "no header"),
    (
        HeaderFault::TooManyColumns { count: 1025 },
        "header has 1025 columns",
    ),
    (
        HeaderFault::NotText { column: 2 },
        "header column 2: not UTF-8",
    ),
    (
        HeaderFault::Twice { column: 3 },
        "header column 3: named before",
    ),
    (
        HeaderFault::Unknown { entry: 4 },
        "schema entry 4: no such column",
    ),
    (HeaderFault::NoMemory, "out of memory"),
];

/// A fault of a body, and its text.
static OF_BODIES: [(BodyFault, &str); 3] = [
    (
        BodyFault::Row(RowFault::Ragged { row: 2, found: 3 }),
        "record 2: 3 fields",
    ),
    (
        BodyFault::Row(RowFault::Field { row: 3, column: 1 }),
        "record 3, column 1: not a value of its type",
    ),
    (BodyFault::NoMemory, "out of memory"),
];

#[test]
fn faults_have_their_texts(rt: HostRuntime) -> Result<(), Fail> {
    let alloc = rt.alloc();
    for (fault, wanted) in &OF_HEADERS {
        assert_eq!(rt;
            fault.to_string(alloc)?.as_str(),
            *wanted,
            "the text of {fault:?}"
        );
    }
    for (fault, wanted) in &OF_BODIES {
        assert_eq!(rt;
            fault.to_string(alloc)?.as_str(),
            *wanted,
            "the text of {fault:?}"
        );
    }
    Ok(())
}
