//! Why a schema isn't that of a run-end encoded array.
ghost use Rattle.std.specs.Prelude.{◌≡◌};
ghost use Rattle.run_ends.specs.declared.schema_fault.RunsSchemaFault.TheVariants as faults;

use root_check::{ChildKindsFault, OwnSchemaFault};
use schema_check::SchemaFault;
use schema_meta::MetaFault;
use std::alloc::{AllocError, AllocFailed};

/// Why a schema isn't that of a run-end encoded array, tried from the first to the last. An out-of-memory is never inside
/// another fault.
#[derive(Clone, Copy, Debug, PartialEq, Eq)]
pub enum RunsSchemaFault {
    /// The schema is released.
    Released,
    /// Its format isn't `+r`.
    Format,
    /// Its metadata is present and refused.
    Meta(MetaFault),
    /// It has a dictionary.
    Dictionary,
    /// It hasn't two children.
    ChildCount { found: u64 },
    /// The first child at fault, by its number from 0, and its first fault. The way to the node at fault begins at the child,
    /// which is on level 1.
    Child { child: u32, fault: SchemaFault },
    /// The first child isn't of format `s`, `i` or `l`, or has a dictionary.
    EndsType,
    /// Memory ran out; the schema may be in order or not.
    NoMemory,
}

impl From<AllocError> for RunsSchemaFault {
    ghost from_gives = { λ _ e. e ≡ faults.NoMemory };

    fn from(_e: AllocError) -> RunsSchemaFault {
        RunsSchemaFault::NoMemory
    }
}

impl<T: Drop> From<AllocFailed<T>> for RunsSchemaFault {
    ghost from_gives = { λ _ e. e ≡ faults.NoMemory };

    fn from(_e: AllocFailed<T>) -> RunsSchemaFault {
        RunsSchemaFault::NoMemory
    }
}

impl From<OwnSchemaFault> for RunsSchemaFault {
    ghost use Rattle.run_ends.specs.SchemaParts.{own_refused};

    ghost from_gives = { λ fault given. given ≡ own_refused fault };

    fn from(fault: OwnSchemaFault) -> RunsSchemaFault {
        match fault {
            OwnSchemaFault::Meta(fault) => RunsSchemaFault::Meta(fault),
            OwnSchemaFault::Dictionary => RunsSchemaFault::Dictionary,
        }
    }
}

impl From<ChildKindsFault> for RunsSchemaFault {
    ghost use Rattle.run_ends.specs.SchemaParts.{kids_refused};

    ghost from_gives = { λ fault given. given ≡ kids_refused fault };

    fn from(fault: ChildKindsFault) -> RunsSchemaFault {
        match fault {
            ChildKindsFault::Child { child, fault } => RunsSchemaFault::Child { child, fault },
            ChildKindsFault::NoMemory => RunsSchemaFault::NoMemory,
        }
    }
}
