//! The rule that fails at a node, without the way to it.
ghost use Rattle.std.specs.Prelude.{◌≡◌, None, OnOk};
ghost use Rattle.layout_rules.specs.Found.{fault_of};
ghost use Rattle.layout_check.specs.FoundAt.{fault_there, found_at};
ghost use Rattle.layout_rules.specs.promise.Walk.{fault_at};
ghost use Rattle.data_types.specs.promise.Ways.{Steps, steps_of};

use data_types::Path;
use layout_rules::{LayoutFault, LayoutRule, Numbers};

/// The rule that fails at a node, with the rule's place and numbers. It has no way to the node, so that it is small: a walk has
/// one for all its nodes.
#[derive(Clone, Copy)]
pub(crate) struct Failing {
    pub(crate) rule: LayoutRule,
    pub(crate) numbers: Numbers,
}

impl Failing {
    /// The fault of the rule at this node.
    pub(crate) fn at(self, path: &Path) -> LayoutFault
        ensures { fault_of result ≡ fault_there (steps_of path.now) self }
    {
        LayoutFault {
            path: *path,
            rule: self.rule,
            place: self.numbers.place,
            left: self.numbers.left,
            right: self.numbers.right,
        }
    }
}

/// A rule's answer at a node.
pub(crate) fn ruled(rule: LayoutRule, fault: Option<Numbers>) -> Result<(), Failing>
    ensures fault { (path : Steps) → found_at path result ≡ fault_at path rule fault }
    ensures passed { OnOk result (fault ≡ None) }
{
    match fault {
        None => Ok(()),
        Some(numbers) => Err(Failing { rule, numbers }),
    }
}
