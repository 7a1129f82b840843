//! The texts of faults.
ghost use Rattle.std.specs.Prelude.{Some};
ghost use Rattle.union_cols.specs.FaultTexts.{union_rule_text, union_fault_text, union_schema_text, tag_fault_text};

use crate::rule::{UnionFault, UnionRule};
use crate::schema_fault::UnionSchemaFault;
use crate::tag_fault::TagFault;
use std::fmt;

impl fmt::Display for UnionRule {
    ghost output = { λ rule. Some (union_rule_text rule) };

    fn fmt<W: fmt::Write>(&self, f: &mut fmt::Formatter<W>) -> fmt::Result {
        f.write_str(match self {
            UnionRule::Released => "Released",
            UnionRule::NegativeLength => "NegativeLength",
            UnionRule::NegativeOffset => "NegativeOffset",
            UnionRule::BufferCount => "BufferCount",
            UnionRule::ChildCount => "ChildCount",
            UnionRule::Dictionary => "Dictionary",
            UnionRule::NullCount => "NullCount",
            UnionRule::BufferAbsent => "BufferAbsent",
            UnionRule::BufferShort => "BufferShort",
            UnionRule::BadTypeId => "BadTypeId",
            UnionRule::Child(_) => "Child",
            UnionRule::ChildShort => "ChildShort",
            UnionRule::OffsetRange => "OffsetRange",
            UnionRule::WindowTooLong => "WindowTooLong",
        })
    }
}

impl fmt::Display for UnionFault {
    ghost output = { λ fault. Some (union_fault_text fault) };

    fn fmt<W: fmt::Write>(&self, f: &mut fmt::Formatter<W>) -> fmt::Result {
        let UnionFault {
            rule,
            place,
            left,
            right,
        } = self;
        match rule {
            UnionRule::Child(fault) => write!(f, "child {place}: {fault}"),
            _ => write!(f, "{rule} at {place}: {left}, {right}"),
        }
    }
}

impl std::error::Error for UnionFault {}

impl fmt::Display for UnionSchemaFault {
    ghost output = { λ fault. Some (union_schema_text fault) };

    fn fmt<W: fmt::Write>(&self, f: &mut fmt::Formatter<W>) -> fmt::Result {
        match self {
            UnionSchemaFault::Released => f.write_str("Released"),
            UnionSchemaFault::Format { place } => write!(f, "Format at {place}"),
            UnionSchemaFault::Meta(fault) => write!(f, "Meta: {fault}"),
            UnionSchemaFault::Dictionary => f.write_str("Dictionary"),
            UnionSchemaFault::ChildCount { found, needed } => {
                write!(f, "ChildCount: {found}, {needed}")
            }
            UnionSchemaFault::Child { child, fault } => write!(f, "child {child}: {fault}"),
            UnionSchemaFault::NoMemory => f.write_str("out of memory"),
        }
    }
}

impl std::error::Error for UnionSchemaFault {}

impl fmt::Display for TagFault {
    ghost output = { λ fault. Some (tag_fault_text fault) };

    fn fmt<W: fmt::Write>(&self, f: &mut fmt::Formatter<W>) -> fmt::Result {
        match self {
            TagFault::Columns { count } => write!(f, "Columns: {count}"),
            TagFault::TooLong => f.write_str("TooLong"),
            TagFault::NoMemory => f.write_str("out of memory"),
        }
    }
}

impl std::error::Error for TagFault {}
