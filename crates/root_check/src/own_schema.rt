//! What the schema of such a root must meet besides its format.
ghost use Rattle.std.specs.Prelude.{◌≡◌, Result};
ghost use Rattle.tree_model.specs.promise.TreeParts.{IsLive, dictionary_of};
ghost use Rattle.raw_schema.specs.promise.Members.{SchemaTree, members_of};
ghost use Rattle.root_check.specs.promise.Schemas.{OwnSchemaReads};

use raw_schema::RawSchema;
use schema_meta::{MetaFault, check_meta};

/// What the schema of a root whose type has no dictionary must meet besides its format. The rules are tried in this order.
#[derive(Clone, Copy, Debug, PartialEq, Eq)]
pub enum OwnSchemaFault {
    /// Its metadata is present and refused. The fault is never an out-of-memory.
    Meta(MetaFault),
    /// It has a dictionary.
    Dictionary,
}

/// Whether a live schema's metadata, if it has any, spells pairs, and whether it has no dictionary ("The Arrow C Data
/// Interface", "The ArrowSchema structure"). Takes no memory.
pub fn check_own_schema(schema: &RawSchema) -> Result<(), OwnSchemaFault>
    requires { IsLive schema.now }
    ensures { OwnSchemaReads schema.now result }
{
    if let Some(bytes) = schema.metadata() {
        if let Err(fault) = check_meta(bytes) {
            return Err(OwnSchemaFault::Meta(fault));
        }
    }
    match schema.dictionary() {
        None => Ok(()),
        Some(_) => Err(OwnSchemaFault::Dictionary),
    }
}
