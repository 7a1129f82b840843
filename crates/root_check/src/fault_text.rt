//! The texts of faults.
ghost use Rattle.std.specs.Prelude.{Some};
ghost use Rattle.root_check.specs.FaultTexts.{own_rule_text, own_fault_text, child_fault_text, own_schema_fault_text, kids_fault_text};

use crate::children::FaultyChild;
use crate::kids::ChildKindsFault;
use crate::own::{OwnFault, OwnRule};
use crate::own_schema::OwnSchemaFault;
use std::fmt;

impl fmt::Display for OwnRule {
    ghost output = { λ rule. Some (own_rule_text rule) };

    fn fmt<W: fmt::Write>(&self, f: &mut fmt::Formatter<W>) -> fmt::Result {
        f.write_str(match self {
            OwnRule::Released => "Released",
            OwnRule::NegativeLength => "NegativeLength",
            OwnRule::NegativeOffset => "NegativeOffset",
            OwnRule::BufferCount => "BufferCount",
            OwnRule::ChildCount => "ChildCount",
            OwnRule::Dictionary => "Dictionary",
            OwnRule::NullCount => "NullCount",
        })
    }
}

impl fmt::Display for OwnFault {
    ghost output = { λ fault. Some (own_fault_text fault) };

    fn fmt<W: fmt::Write>(&self, f: &mut fmt::Formatter<W>) -> fmt::Result {
        let OwnFault { rule, numbers } = self;
        write!(
            f,
            "{rule} at {}: {}, {}",
            numbers.place, numbers.left, numbers.right
        )
    }
}

impl std::error::Error for OwnFault {}

impl fmt::Display for FaultyChild {
    ghost output = { λ fault. Some (child_fault_text fault) };

    fn fmt<W: fmt::Write>(&self, f: &mut fmt::Formatter<W>) -> fmt::Result {
        write!(f, "child {}: {}", self.child, self.fault)
    }
}

impl std::error::Error for FaultyChild {}

impl fmt::Display for OwnSchemaFault {
    ghost output = { λ fault. Some (own_schema_fault_text fault) };

    fn fmt<W: fmt::Write>(&self, f: &mut fmt::Formatter<W>) -> fmt::Result {
        match self {
            OwnSchemaFault::Meta(fault) => write!(f, "Meta: {fault}"),
            OwnSchemaFault::Dictionary => f.write_str("Dictionary"),
        }
    }
}

impl std::error::Error for OwnSchemaFault {}

impl fmt::Display for ChildKindsFault {
    ghost output = { λ fault. Some (kids_fault_text fault) };

    fn fmt<W: fmt::Write>(&self, f: &mut fmt::Formatter<W>) -> fmt::Result {
        match self {
            ChildKindsFault::Child { child, fault } => write!(f, "child {child}: {fault}"),
            ChildKindsFault::NoMemory => f.write_str("out of memory"),
        }
    }
}

impl std::error::Error for ChildKindsFault {}
