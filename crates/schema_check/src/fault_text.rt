//! The texts of faults of schemas: where the node stands, and which rule it breaks.
ghost use Rattle.std.specs.Prelude.{◌≡◌, Some};
ghost use Rattle.schema_check.specs.promise.FaultTexts.{schema_rule_text};
ghost use Rattle.schema_check.specs.FaultTexts.{schema_fault_text};

use crate::rule::SchemaRule;
use crate::schema::SchemaFault;
use std::fmt;

impl SchemaRule {
    /// The rule's name, without the fault that it holds.
    pub fn name(self) -> &'static str
        ensures { result.now ≡ schema_rule_text self }
    {
        match self {
            SchemaRule::Released => "Released",
            SchemaRule::Format(_) => "Format",
            SchemaRule::Meta(_) => "Meta",
            SchemaRule::ChildCount => "ChildCount",
            SchemaRule::DictIndexType => "DictIndexType",
            SchemaRule::MapShape => "MapShape",
            SchemaRule::Deep => "Deep",
        }
    }
}

impl fmt::Display for SchemaRule {
    ghost output = { λ rule. Some (schema_rule_text rule) };

    fn fmt<W: fmt::Write>(&self, f: &mut fmt::Formatter<W>) -> fmt::Result {
        f.write_str(self.name())
    }
}

impl fmt::Display for SchemaFault {
    ghost output = { λ fault. Some (schema_fault_text fault) };

    fn fmt<W: fmt::Write>(&self, f: &mut fmt::Formatter<W>) -> fmt::Result {
        match self {
            SchemaFault::At { path, rule } => write!(f, "{path}: schema: {rule}"),
            SchemaFault::NoMemory => f.write_str("out of memory"),
        }
    }
}

impl std::error::Error for SchemaFault {}
