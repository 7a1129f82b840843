//! The texts of faults.
ghost use Rattle.std.specs.Prelude.{Some};
ghost use Rattle.run_ends.specs.FaultTexts.{runs_rule_text, runs_fault_text, runs_schema_text, code_fault_text};

use crate::code_fault::CodeFault;
use crate::rule::{RunsFault, RunsRule};
use crate::schema_fault::RunsSchemaFault;
use std::fmt;

impl fmt::Display for RunsRule {
    ghost output = { λ rule. Some (runs_rule_text rule) };

    fn fmt<W: fmt::Write>(&self, f: &mut fmt::Formatter<W>) -> fmt::Result {
        f.write_str(match self {
            RunsRule::Released => "Released",
            RunsRule::NegativeLength => "NegativeLength",
            RunsRule::NegativeOffset => "NegativeOffset",
            RunsRule::BufferCount => "BufferCount",
            RunsRule::ChildCount => "ChildCount",
            RunsRule::Dictionary => "Dictionary",
            RunsRule::NullCount => "NullCount",
            RunsRule::Child(_) => "Child",
            RunsRule::EndsNull => "EndsNull",
            RunsRule::EndsFall => "EndsFall",
            RunsRule::ValuesShort => "ValuesShort",
            RunsRule::EndsShort => "EndsShort",
            RunsRule::WindowTooLong => "WindowTooLong",
        })
    }
}

impl fmt::Display for RunsFault {
    ghost output = { λ fault. Some (runs_fault_text fault) };

    fn fmt<W: fmt::Write>(&self, f: &mut fmt::Formatter<W>) -> fmt::Result {
        let RunsFault {
            rule,
            place,
            left,
            right,
        } = self;
        match rule {
            RunsRule::Child(fault) => write!(f, "child {place}: {fault}"),
            _ => write!(f, "{rule} at {place}: {left}, {right}"),
        }
    }
}

impl std::error::Error for RunsFault {}

impl fmt::Display for RunsSchemaFault {
    ghost output = { λ fault. Some (runs_schema_text fault) };

    fn fmt<W: fmt::Write>(&self, f: &mut fmt::Formatter<W>) -> fmt::Result {
        match self {
            RunsSchemaFault::Released => f.write_str("Released"),
            RunsSchemaFault::Format => f.write_str("Format"),
            RunsSchemaFault::Meta(fault) => write!(f, "Meta: {fault}"),
            RunsSchemaFault::Dictionary => f.write_str("Dictionary"),
            RunsSchemaFault::ChildCount { found } => write!(f, "ChildCount: {found}, 2"),
            RunsSchemaFault::Child { child, fault } => write!(f, "child {child}: {fault}"),
            RunsSchemaFault::EndsType => f.write_str("EndsType"),
            RunsSchemaFault::NoMemory => f.write_str("out of memory"),
        }
    }
}

impl std::error::Error for RunsSchemaFault {}

impl fmt::Display for CodeFault {
    ghost output = { λ fault. Some (code_fault_text fault) };

    fn fmt<W: fmt::Write>(&self, f: &mut fmt::Formatter<W>) -> fmt::Result {
        f.write_str(match self {
            CodeFault::WrongKind => "WrongKind",
            CodeFault::TooLong => "TooLong",
            CodeFault::NoMemory => "out of memory",
        })
    }
}

impl std::error::Error for CodeFault {}
