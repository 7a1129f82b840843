//! The rules of run-end encoded arrays, and the fault where one fails.
use layout_check::LayoutFault;
use root_check::{OwnFault, OwnRule};

/// What a run-end encoded array must meet ("Arrow Columnar Format", "Run-End Encoded Layout"). The rules are tried from the first
/// to the last. A fault's place is 0 where none is named here. The places up to the window's end are its offset and its length
/// together. Ends are counted by the items of the first child's own window.
#[derive(Clone, Copy, Debug, PartialEq, Eq)]
pub enum RunsRule {
    /// The array is released.
    Released,
    /// The length is below 0: the length, and 0.
    NegativeLength,
    /// The offset is below 0: the offset, and 0.
    NegativeOffset,
    /// There are buffers: their number, and 0.
    BufferCount,
    /// There aren't two children: their number, and 2.
    ChildCount,
    /// A dictionary is there: 1, and 0.
    Dictionary,
    /// The null count is neither 0 nor -1: the count, and 0. Nulls are among the values alone.
    NullCount,
    /// A child has a fault, the first one by number: at the child, 0 and 0. The way to the node at fault begins at the child.
    Child(LayoutFault),
    /// An end is null: at the end, 0 and 0.
    EndsNull,
    /// An end isn't above the one before, which is 0 for the first: at the end, the one before and it.
    EndsFall,
    /// There are fewer values than ends: the two numbers.
    ValuesShort,
    /// The last end, or 0 without ends, is below the number of places up to the window's end: the two.
    EndsShort,
    /// There are more than 2^40 places up to the window's end: their number, and 2^40.
    WindowTooLong,
}

/// The first rule that fails, with its place and its numbers.
#[derive(Clone, Copy, Debug, PartialEq, Eq)]
pub struct RunsFault {
    /// The rule that fails.
    pub rule: RunsRule,
    /// The place that the rule names, and 0 where it names none.
    pub place: u64,
    /// The first number that the rule names.
    pub left: i128,
    /// The second one.
    pub right: i128,
}

impl From<OwnFault> for RunsFault {
    ghost use Rattle.std.specs.Prelude.{◌≡◌};
    ghost use Rattle.run_ends.specs.RunAnswers.{found_of};
    ghost use Rattle.run_ends.specs.RunRules.{own_of};

    ghost from_gives = { λ fault given. found_of given ≡ own_of fault };

    fn from(fault: OwnFault) -> RunsFault {
        let rule = match fault.rule {
            OwnRule::Released => RunsRule::Released,
            OwnRule::NegativeLength => RunsRule::NegativeLength,
            OwnRule::NegativeOffset => RunsRule::NegativeOffset,
            OwnRule::BufferCount => RunsRule::BufferCount,
            OwnRule::ChildCount => RunsRule::ChildCount,
            OwnRule::Dictionary => RunsRule::Dictionary,
            OwnRule::NullCount => RunsRule::NullCount,
        };
        RunsFault {
            rule,
            place: fault.numbers.place,
            left: fault.numbers.left,
            right: fault.numbers.right,
        }
    }
}
