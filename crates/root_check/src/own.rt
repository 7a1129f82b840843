//! The rules on a root's own numbers, and on how many parts it has.
ghost use Rattle.std.specs.Prelude.{◌≡◌, None, not, ◌&&◌, pos, negsuc, ◌≤ℤ◌, IfErr, OnOk, length, Option};
ghost use Rattle.std.specs.Ordering.{int_eq};
ghost use Rattle.tree_model.specs.promise.TreeParts.{IsLive, children_of, dictionary_of};
ghost use Rattle.raw_array.specs.promise.Members.{ArrayTree, members_of};
ghost use Rattle.layout_rules.specs.promise.Rules.{fault_if, one_if};
ghost use Rattle.root_check.specs.promise.OwnRules.{own_fault};
ghost use Rattle.root_check.specs.OwnRules.{own_found, fault_among, number_rules, part_rules};
ghost use Rattle.root_check.specs.OwnRules.{OwnHolds};
ghost use Rattle.root_check.specs.Founds.{found_own};

use layout_check::{Numbers, negative, wrong_count};
use raw_array::RawArray;

/// What a root must meet whose type has no validity bitmap and no dictionary. The rules are tried from the first to the last.
/// A fault's place is 0.
#[derive(Clone, Copy, Debug, PartialEq, Eq)]
pub enum OwnRule {
    /// The array is released.
    Released,
    /// The length is below 0: the length, and 0.
    NegativeLength,
    /// The offset is below 0: the offset, and 0.
    NegativeOffset,
    /// The number of buffers isn't the type's: found and needed.
    BufferCount,
    /// The number of children isn't the type's: found and needed.
    ChildCount,
    /// A dictionary is there: 1, and 0.
    Dictionary,
    /// The null count is neither 0 nor -1: the count, and 0.
    NullCount,
}

/// The first rule that fails, with its numbers.
#[derive(Clone, Copy, Debug, PartialEq, Eq)]
pub struct OwnFault {
    /// The rule that fails.
    pub rule: OwnRule,
    /// The numbers that the rule names.
    pub numbers: Numbers,
}

/// The rules on a root's own numbers and parts: it has this many buffers and this many children, and no dictionary ("The Arrow C
/// Data Interface", "The ArrowArray structure"). Takes no memory.
pub fn check_own(array: &RawArray, buffers: usize, children: usize) -> Result<(), OwnFault>
    ensures fault { found_own result ≡ own_fault buffers children array.now }
    ensures passed { OnOk result (OwnHolds buffers children array.now) }
{
    if array.is_released() {
        let none = Numbers {
            place: 0,
            left: 0,
            right: 0,
        };
        return ruled(OwnRule::Released, Some(none));
    }
    check_numbers(array, buffers, children)?;
    check_parts(array, buffers, children)
}

/// The rules on the root's own numbers.
fn check_numbers(array: &RawArray, buffers: usize, children: usize) -> Result<(), OwnFault>
    requires { IsLive array.now }
    ensures fault { found_own result ≡ fault_among number_rules buffers children array.now }
    ensures length { OnOk result (pos 0 ≤ℤ (members_of array.now).length) }
    ensures offset { OnOk result (pos 0 ≤ℤ (members_of array.now).offset) }
{
    ruled(OwnRule::NegativeLength, negative(array.length()))?;
    ruled(OwnRule::NegativeOffset, negative(array.offset()))
}

/// The rules on how many parts the root has, and on its nulls.
fn check_parts(array: &RawArray, buffers: usize, children: usize) -> Result<(), OwnFault>
    requires { IsLive array.now }
    ensures fault { found_own result ≡ fault_among part_rules buffers children array.now }
    ensures buffers { OnOk result (length (members_of array.now).buffers ≡ buffers) }
    ensures children { OnOk result (length (children_of array.now) ≡ children) }
    ensures plain { OnOk result (one_if (dictionary_of array.now) ≡ 0) }
{
    let found = array.n_buffers() as usize;
    ruled(OwnRule::BufferCount, wrong_count(found, buffers))?;
    let found = array.n_children() as usize;
    ruled(OwnRule::ChildCount, wrong_count(found, children))?;
    let found = dictionary_count(array);
    ruled(OwnRule::Dictionary, wrong_count(found, 0))?;
    ruled(OwnRule::NullCount, nulls_wrong(array.null_count()))
}

/// 1 where there is a dictionary, and 0 where there is none.
fn dictionary_count(array: &RawArray) -> usize
    requires { IsLive array.now }
    ensures { result ≡ one_if (dictionary_of array.now) }
{
    match array.dictionary() {
        Some(_) => 1,
        None => 0,
    }
}

/// A count of nulls that is known and not 0, of a type without a validity bitmap: the count, and 0.
fn nulls_wrong(nulls: i64) -> Option<Numbers>
    ensures { result ≡ fault_if (not (int_eq nulls (pos 0)) && not (int_eq nulls (negsuc 0))) 0 nulls (pos 0) }
{
    if nulls == 0 || nulls == -1 {
        return None;
    }
    Some(Numbers {
        place: 0,
        left: i128::from(nulls),
        right: 0,
    })
}

/// A rule's answer.
fn ruled(rule: OwnRule, fault: Option<Numbers>) -> Result<(), OwnFault>
    ensures fault { found_own result ≡ own_found rule fault }
    ensures passed { OnOk result (fault ≡ None) }
{
    match fault {
        None => Ok(()),
        Some(numbers) => Err(OwnFault { rule, numbers }),
    }
}
