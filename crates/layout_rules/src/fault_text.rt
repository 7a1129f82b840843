//! The texts of faults of arrays: where the node stands, which rule it breaks, and the rule's place and numbers.
ghost use Rattle.std.specs.Prelude.{◌≡◌, Some};
ghost use Rattle.layout_rules.specs.promise.FaultTexts.{rule_text, layout_fault_text};

use crate::rule::{LayoutFault, LayoutRule};
use std::fmt;

impl LayoutRule {
    /// The rule's name.
    pub fn name(self) -> &'static str
        ensures { result.now ≡ rule_text self }
    {
        match self {
            LayoutRule::Released => "Released",
            LayoutRule::NegativeLength => "NegativeLength",
            LayoutRule::NegativeOffset => "NegativeOffset",
            LayoutRule::BufferCount => "BufferCount",
            LayoutRule::ChildCount => "ChildCount",
            LayoutRule::Dictionary => "Dictionary",
            LayoutRule::BufferAbsent => "BufferAbsent",
            LayoutRule::BufferShort => "BufferShort",
            LayoutRule::OffsetsFall => "OffsetsFall",
            LayoutRule::ChildShort => "ChildShort",
            LayoutRule::NullCount => "NullCount",
            LayoutRule::NotText => "NotText",
            LayoutRule::IndexRange => "IndexRange",
            LayoutRule::TopNulls => "TopNulls",
            LayoutRule::WindowTooLong => "WindowTooLong",
            LayoutRule::TopKind => "TopKind",
            LayoutRule::ViewPlace => "ViewPlace",
            LayoutRule::ViewPrefix => "ViewPrefix",
        }
    }
}

impl fmt::Display for LayoutRule {
    ghost output = { λ rule. Some (rule_text rule) };

    fn fmt<W: fmt::Write>(&self, f: &mut fmt::Formatter<W>) -> fmt::Result {
        f.write_str(self.name())
    }
}

impl fmt::Display for LayoutFault {
    ghost output = { λ fault. Some (layout_fault_text fault) };

    fn fmt<W: fmt::Write>(&self, f: &mut fmt::Formatter<W>) -> fmt::Result {
        let LayoutFault {
            path,
            rule,
            place,
            left,
            right,
        } = self;
        write!(f, "{path}: {rule} at {place}: {left}, {right}")
    }
}

impl std::error::Error for LayoutFault {}
