//! Which items of a column pass a test.
ghost use Rattle.std.specs.Prelude.{◌≡◌, ◌≢◌, ◌-◌, ◌<◌, ◌≤◌, ℕ, List, true, false, IfNone, IfOk, IfSome};
ghost use Rattle.data_types.specs.promise.Value.{Value, Bytes, is_null};
ghost use Rattle.arr_import.specs.Cols.{window_of};
ghost use Rattle.arr_import.specs.Window.{item_at};
ghost use Rattle.stage_model.specs.promise.Stages.{compared, passes};
ghost use Rattle.stage_model.specs.promise.Typing.{compares};
ghost use Rattle.stage_model.specs.declared.stage.Const.{Const as AConst};
ghost use Rattle.stage_model.specs.declared.stage.Const.TheVariants as consts;
ghost use Rattle.stage_filter.specs.Kept.{equality, kept_numbers, order_passes};

use arr_import::{Col, ValueRef};
use stage_model::{Const, Test};
use std::alloc::Global;
use std::cmp::Ordering;
use unit_pass::NoMemory;

// ---- nulls

/// Whether an item is null.
fn is_null(items: &Col<'_>, i: u32) -> bool
    requires { i < (window_of items.now).count }
    ensures { result ≡ is_null (item_at (window_of items.now) i) }
{
    match items.value(i64::from(i)) {
        ValueRef::Null => true,
        _ => false,
    }
}

/// Whether an item passes a test that takes no constant.
#[inline(always)]
fn null_passes(items: &Col<'_>, i: u32, test: Test) -> bool
    requires inside { i < (window_of items.now).count }
    requires test { compares test ≡ false }
    ensures { (constant : AConst) → result ≡ passes test constant (item_at (window_of items.now) i) }
{
    match test {
        Test::Null => is_null(items, i),
        Test::Valid => !is_null(items, i),
        _ => unreachable!(),
    }
}

/// The numbers of the items that pass a test that takes no constant.
fn kept_by_null(
    alloc: Global,
    items: &Col<'_>,
    from: u32,
    to: u32,
    test: Test,
) -> Result<Vec<u32>, NoMemory>
    requires order { from ≤ to }
    requires inside { to ≤ (window_of items.now).count }
    requires test { compares test ≡ false }
    ensures { IfOk result (λ kept. (constant : AConst) → kept.items ≡ kept_numbers test constant (window_of items.now) from (to - from)) }
{
    let mut kept = Vec::new(alloc);
    for i in from..to {
        if null_passes(items, i, test) {
            kept.push(i)?;
        }
    }
    Ok(kept)
}

// ---- comparisons

/// Whether a value passes that compares so to the constant.
#[inline(always)]
fn order_passes(test: Test, order: Ordering) -> bool
    ensures { result ≡ order_passes test order }
{
    match test {
        Test::Eq => order.is_eq(),
        Test::Ne => order.is_ne(),
        Test::Lt => order.is_lt(),
        Test::Le => order.is_le(),
        Test::Gt => order.is_gt(),
        Test::Ge => order.is_ge(),
        Test::Null | Test::Valid => false,
    }
}

/// Whether a value passes that compares so to the constant, or in no way.
#[inline(always)]
fn comparison_passes(test: Test, order: Option<Ordering>) -> bool
    requires { compares test ≡ true }
    ensures { (constant : AConst) (value : Value) → order ≡ compared value constant → result ≡ passes test constant value }
{
    match order {
        Some(order) => order_passes(test, order),
        None => false,
    }
}

/// How an item compares to a truth value; a null, and an item of another kind, in no way.
#[inline(always)]
fn truth_order(items: &Col<'_>, i: u32, constant: bool) -> Option<Ordering>
    requires { i < (window_of items.now).count }
    ensures { result ≡ compared (item_at (window_of items.now) i) (consts.Truth constant) }
{
    match items.truth(i64::from(i)) {
        Some(truth) => Some(truth.cmp(&constant)),
        None => None,
    }
}

/// The numbers of the items that pass a comparison with a truth value.
fn kept_by_truth(
    alloc: Global,
    items: &Col<'_>,
    from: u32,
    to: u32,
    test: Test,
    constant: bool,
) -> Result<Vec<u32>, NoMemory>
    requires order { from ≤ to }
    requires inside { to ≤ (window_of items.now).count }
    requires test { compares test ≡ true }
    ensures { IfOk result (λ kept. kept.items ≡ kept_numbers test (consts.Truth constant) (window_of items.now) from (to - from)) }
{
    let mut kept = Vec::new(alloc);
    for i in from..to {
        if comparison_passes(test, truth_order(items, i, constant)) {
            kept.push(i)?;
        }
    }
    Ok(kept)
}

/// How an item compares to a whole number; a null, and an item of another kind, in no way.
#[inline(always)]
fn whole_order(items: &Col<'_>, i: u32, constant: &i128) -> Option<Ordering>
    requires { i < (window_of items.now).count }
    ensures { result ≡ compared (item_at (window_of items.now) i) (consts.Whole constant.now) }
{
    match items.whole(i64::from(i)) {
        Some(number) => Some(number.cmp(constant)),
        None => None,
    }
}

/// The numbers of the items that pass a comparison with a whole number.
fn kept_by_whole(
    alloc: Global,
    items: &Col<'_>,
    from: u32,
    to: u32,
    test: Test,
    constant: &i128,
) -> Result<Vec<u32>, NoMemory>
    requires order { from ≤ to }
    requires inside { to ≤ (window_of items.now).count }
    requires test { compares test ≡ true }
    ensures { IfOk result (λ kept. kept.items ≡ kept_numbers test (consts.Whole constant.now) (window_of items.now) from (to - from)) }
{
    let mut kept = Vec::new(alloc);
    for i in from..to {
        if comparison_passes(test, whole_order(items, i, constant)) {
            kept.push(i)?;
        }
    }
    Ok(kept)
}

/// How an item compares to bytes; a null, and an item of another kind, in no way.
#[inline(always)]
fn bytes_order(items: &Col<'_>, i: u32, constant: &[u8]) -> Option<Ordering>
    requires { i < (window_of items.now).count }
    ensures { result ≡ compared (item_at (window_of items.now) i) (consts.Bytes constant.now) }
{
    match items.bytes(i64::from(i)) {
        Some(bytes) => Some(bytes.cmp(constant)),
        None => None,
    }
}

/// The numbers of the items that pass a comparison with bytes, each by how it compares to them.
fn kept_by_order(
    alloc: Global,
    items: &Col<'_>,
    from: u32,
    to: u32,
    test: Test,
    constant: &[u8],
) -> Result<Vec<u32>, NoMemory>
    requires order { from ≤ to }
    requires inside { to ≤ (window_of items.now).count }
    requires test { compares test ≡ true }
    ensures { IfOk result (λ kept. kept.items ≡ kept_numbers test (consts.Bytes constant.now) (window_of items.now) from (to - from)) }
{
    let mut kept = Vec::new(alloc);
    for i in from..to {
        if comparison_passes(test, bytes_order(items, i, constant)) {
            kept.push(i)?;
        }
    }
    Ok(kept)
}

/// The bytes of an item; none of a null, and of an item of another kind.
#[inline(always)]
fn bytes_at<'a>(items: &Col<'a>, i: u32) -> Option<&'a [u8]>
    requires { i < (window_of items.now).count }
    ensures some { IfSome result (λ bytes. item_at (window_of items.now) i ≡ Bytes bytes.now) }
    ensures none { IfNone result ((bytes : List ℕ) → item_at (window_of items.now) i ≢ Bytes bytes) }
{
    items.bytes(i64::from(i))
}

/// Whether bytes are those of the constant, or aren't where others are asked for.
#[inline(always)]
fn are_asked(bytes: &[u8], equal: bool, constant: &[u8]) -> bool
    ensures { result ≡ passes (equality equal) (consts.Bytes constant.now) (Bytes bytes.now) }
{
    let same = bytes == constant;
    if equal { same } else { !same }
}

/// Whether an item is bytes as they are asked for; a null, and an item of another kind, isn't.
#[inline(always)]
fn equality_passes(items: &Col<'_>, i: u32, equal: bool, constant: &[u8]) -> bool
    requires { i < (window_of items.now).count }
    ensures { result ≡ passes (equality equal) (consts.Bytes constant.now) (item_at (window_of items.now) i) }
{
    match bytes_at(items, i) {
        Some(bytes) => are_asked(bytes, equal, constant),
        None => false,
    }
}

/// The numbers of the items that are the same bytes as a constant, or of those that are others.
fn kept_by_equality(
    alloc: Global,
    items: &Col<'_>,
    from: u32,
    to: u32,
    equal: bool,
    constant: &[u8],
) -> Result<Vec<u32>, NoMemory>
    requires order { from ≤ to }
    requires inside { to ≤ (window_of items.now).count }
    ensures { IfOk result (λ kept. kept.items ≡ kept_numbers (equality equal) (consts.Bytes constant.now) (window_of items.now) from (to - from)) }
{
    let mut kept = Vec::new(alloc);
    for i in from..to {
        if equality_passes(items, i, equal, constant) {
            kept.push(i)?;
        }
    }
    Ok(kept)
}

/// The numbers of the items that pass a comparison with bytes. No order is looked for where they need only be the same or not.
fn kept_by_bytes(
    alloc: Global,
    items: &Col<'_>,
    from: u32,
    to: u32,
    test: Test,
    constant: &[u8],
) -> Result<Vec<u32>, NoMemory>
    requires order { from ≤ to }
    requires inside { to ≤ (window_of items.now).count }
    requires test { compares test ≡ true }
    ensures { IfOk result (λ kept. kept.items ≡ kept_numbers test (consts.Bytes constant.now) (window_of items.now) from (to - from)) }
{
    match test {
        Test::Eq => kept_by_equality(alloc, items, from, to, true, constant),
        Test::Ne => kept_by_equality(alloc, items, from, to, false, constant),
        _ => kept_by_order(alloc, items, from, to, test, constant),
    }
}

// ---- any test

/// The numbers of the items that pass, of those from one number to another. Each kind of constant has a loop of its own.
pub(crate) fn kept_rows(
    alloc: Global,
    items: &Col<'_>,
    from: u32,
    to: u32,
    test: Test,
    constant: &Const,
) -> Result<Vec<u32>, NoMemory>
    requires order { from ≤ to }
    requires inside { to ≤ (window_of items.now).count }
    ensures { IfOk result (λ kept. kept.items ≡ kept_numbers test constant.now (window_of items.now) from (to - from)) }
{
    match test {
        Test::Null | Test::Valid => kept_by_null(alloc, items, from, to, test),
        _ => match constant {
            Const::None => Ok(Vec::new(alloc)),
            Const::Truth(constant) => kept_by_truth(alloc, items, from, to, test, *constant),
            Const::Whole(constant) => kept_by_whole(alloc, items, from, to, test, constant),
            Const::Bytes(constant) => {
                kept_by_bytes(alloc, items, from, to, test, constant.as_slice())
            }
        },
    }
}
