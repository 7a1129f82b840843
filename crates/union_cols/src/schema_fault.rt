//! Why a schema isn't that of a union.
ghost use Rattle.std.specs.Prelude.{◌≡◌};
ghost use Rattle.union_cols.specs.declared.schema_fault.UnionSchemaFault.TheVariants as faults;

use root_check::{ChildKindsFault, OwnSchemaFault};
use schema_check::SchemaFault;
use schema_meta::MetaFault;
use std::alloc::{AllocError, AllocFailed};

/// Why a schema isn't that of a union, tried from the first to the last. An out-of-memory is never inside another fault.
#[derive(Clone, Copy, Debug, PartialEq, Eq)]
pub enum UnionSchemaFault {
    /// The schema is released.
    Released,
    /// Its format isn't `+us:` or `+ud:` and distinct ids from 0 to 127, joined by commas. The place counts bytes from 0.
    Format { place: usize },
    /// Its metadata is present and refused.
    Meta(MetaFault),
    /// It has a dictionary.
    Dictionary,
    /// It hasn't as many children as ids.
    ChildCount { found: u64, needed: u64 },
    /// The first child at fault, by its number from 0, and its first fault. The way to the node at fault begins at the child,
    /// which is on level 1.
    Child { child: u32, fault: SchemaFault },
    /// Memory ran out; the schema may be a union's or not.
    NoMemory,
}

impl From<AllocError> for UnionSchemaFault {
    ghost from_gives = { λ _ e. e ≡ faults.NoMemory };

    fn from(_e: AllocError) -> UnionSchemaFault {
        UnionSchemaFault::NoMemory
    }
}

impl<T: Drop> From<AllocFailed<T>> for UnionSchemaFault {
    ghost from_gives = { λ _ e. e ≡ faults.NoMemory };

    fn from(_e: AllocFailed<T>) -> UnionSchemaFault {
        UnionSchemaFault::NoMemory
    }
}

impl From<OwnSchemaFault> for UnionSchemaFault {
    ghost use Rattle.union_cols.specs.SchemaParts.{own_refused};

    ghost from_gives = { λ fault given. given ≡ own_refused fault };

    fn from(fault: OwnSchemaFault) -> UnionSchemaFault {
        match fault {
            OwnSchemaFault::Meta(fault) => UnionSchemaFault::Meta(fault),
            OwnSchemaFault::Dictionary => UnionSchemaFault::Dictionary,
        }
    }
}

impl From<ChildKindsFault> for UnionSchemaFault {
    ghost use Rattle.union_cols.specs.SchemaParts.{kids_refused};

    ghost from_gives = { λ fault given. given ≡ kids_refused fault };

    fn from(fault: ChildKindsFault) -> UnionSchemaFault {
        match fault {
            ChildKindsFault::Child { child, fault } => UnionSchemaFault::Child { child, fault },
            ChildKindsFault::NoMemory => UnionSchemaFault::NoMemory,
        }
    }
}
