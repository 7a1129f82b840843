//! The rules of unions, and the fault where one fails.
use layout_check::LayoutFault;
use root_check::{FaultyChild, OwnFault, OwnRule};

/// What a union's array must meet ("Arrow Columnar Format", "Union Layout"). The rules are tried from the first to the last. A
/// fault's place is 0 where none is named here. The places up to the window's end are its offset and its length together.
#[derive(Clone, Copy, Debug, PartialEq, Eq)]
pub enum UnionRule {
    /// The array is released.
    Released,
    /// The length is below 0: the length, and 0.
    NegativeLength,
    /// The offset is below 0: the offset, and 0.
    NegativeOffset,
    /// A sparse union hasn't 1 buffer, or a dense one 2: found and needed.
    BufferCount,
    /// The number of children isn't that of the ids: found and needed.
    ChildCount,
    /// A dictionary is there: 1, and 0.
    Dictionary,
    /// The null count is neither 0 nor -1: the count, and 0. A union has no nulls of its own.
    NullCount,
    /// A buffer is absent, and bytes of it are needed: at the buffer, 0 and the need.
    BufferAbsent,
    /// A buffer is shorter than its need: at the buffer, its length and the need, in bytes.
    BufferShort,
    /// No child has an item's id: at the item, the id, which is a byte with a sign, and 0.
    BadTypeId,
    /// A child has a fault, the first one by number: at the child, 0 and 0. The way to the node at fault begins at the child.
    Child(LayoutFault),
    /// A child of a sparse union has too few items: at the child, its length and the need.
    ChildShort,
    /// An item's offset in a dense union is no place of its child: at the item, the offset and the child's length.
    OffsetRange,
    /// There are more than 2^40 places up to the window's end: their number, and 2^40.
    WindowTooLong,
}

/// The first rule that fails, with its place and its numbers.
#[derive(Clone, Copy, Debug, PartialEq, Eq)]
pub struct UnionFault {
    /// The rule that fails.
    pub rule: UnionRule,
    /// The place that the rule names, and 0 where it names none.
    pub place: u64,
    /// The first number that the rule names.
    pub left: i128,
    /// The second one.
    pub right: i128,
}

impl From<OwnFault> for UnionFault {
    ghost use Rattle.std.specs.Prelude.{◌≡◌};
    ghost use Rattle.union_cols.specs.UnionAnswers.{found_of};
    ghost use Rattle.union_cols.specs.UnionRules.{faulty_of, own_of};

    ghost from_gives = { λ fault given. found_of given ≡ own_of fault };

    fn from(fault: OwnFault) -> UnionFault {
        let rule = match fault.rule {
            OwnRule::Released => UnionRule::Released,
            OwnRule::NegativeLength => UnionRule::NegativeLength,
            OwnRule::NegativeOffset => UnionRule::NegativeOffset,
            OwnRule::BufferCount => UnionRule::BufferCount,
            OwnRule::ChildCount => UnionRule::ChildCount,
            OwnRule::Dictionary => UnionRule::Dictionary,
            OwnRule::NullCount => UnionRule::NullCount,
        };
        UnionFault {
            rule,
            place: fault.numbers.place,
            left: fault.numbers.left,
            right: fault.numbers.right,
        }
    }
}

impl From<FaultyChild> for UnionFault {
    ghost use Rattle.std.specs.Prelude.{◌≡◌};
    ghost use Rattle.root_check.specs.Founds.{child_fault_of};
    ghost use Rattle.union_cols.specs.UnionAnswers.{found_of};
    ghost use Rattle.union_cols.specs.UnionRules.{faulty_of};

    ghost from_gives = { λ fault given. found_of given ≡ faulty_of (child_fault_of fault) };

    fn from(fault: FaultyChild) -> UnionFault {
        UnionFault {
            rule: UnionRule::Child(fault.fault),
            place: fault.child,
            left: 0,
            right: 0,
        }
    }
}
