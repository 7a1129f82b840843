//! Holds of one block, let go one after the other and in two threads, and the mark of a text.
ghost use Rattle.std.specs.Prelude.{◌≡◌, ◌+◌, ◌<◌, ◌≤◌, length, IsSome, None, MatchOption};
ghost use Rattle.unit_pass.specs.declared.pass.TheConstants.{SUPPLY};

use crate::{AMOUNT, BufView, Hold, Left, LetGo, make, make_text};
use std::alloc::Global;
use std::test::Fail;
use std::thread;
use std::thread::Threads;
use unit_pass::{NoMemory, Pass, open_desk};

/// What two holds of one block tell: their amounts, and what the second still reads once the first has let go.
#[derive(Debug, PartialEq, Drop)]
struct Told {
    amounts: [u64; 2],
    first: LetGo,
    read_on: bool,
    part: bool,
    second: LetGo,
    gave: [u64; 2],
}

/// Lets go of the first hold, reads through the second, and lets go of that.
fn one_after_the_other(first: Hold, second: Hold, pass: &mut Pass) -> Told
    requires bytes { length second.bytes ≡ 3 }
    requires units { pass.old.units + 2 ≤ SUPPLY }
    ensures units { pass.new.units ≡ pass.old.units + 2 }
{
    let amounts = [first.amount(), second.amount()];
    let first = first.let_go(pass);
    let read_on = second.bytes() == [1u8, 2, 3].as_slice();
    let view = BufView {
        hold: second,
        start: 1,
        len: 2,
    };
    let part = view.bytes() == [2u8, 3].as_slice();
    let BufView {
        hold,
        start: _,
        len: _,
    } = view;
    let second = hold.let_go(pass);
    Told {
        amounts,
        first: first.answer(),
        read_on,
        part,
        second: second.answer(),
        gave: [first.gave(), second.gave()],
    }
}

fn tell(alloc: Global, bytes: Vec<u8>, pass: &mut Pass) -> Option<Told>
    requires bytes { length bytes.items ≡ 3 }
    requires units { pass.old.units ≡ SUPPLY }
    ensures units { pass.new.units ≡ SUPPLY }
{
    let mut first = make(alloc, bytes, pass).ok()?;
    let Ok(second) = first.take(pass) else {
        let _left = first.let_go(pass);
        return None;
    };
    Some(one_after_the_other(first, second, pass))
}

#[test]
fn second_hold_reads_on_and_frees(rt: HostRuntime) -> Result<(), Fail> {
    let bytes = vec![in rt.alloc(); 1u8, 2, 3]?;
    let (desk, mut pass) = open_desk();
    let told = tell(rt.alloc(), bytes, &mut pass);
    let audit = desk.close(pass);
    assert_eq!(rt; audit.blocks, 1);
    assert_eq!(rt;
        told,
        Some(Told {
            amounts: [4294967295, 1],
            first: LetGo::Kept,
            read_on: true,
            part: true,
            second: LetGo::Freed,
            gave: [4294967295, 1]
        })
    );
    Ok(())
}

/// Ends the hold that lies here.
fn end(place: &mut Option<Hold>, pass: &mut Pass) -> Option<Left>
    requires { pass.old.units < SUPPLY }
    ensures empty { place.new ≡ None }
    ensures units { MatchOption place.old (pass.new.units ≡ pass.old.units) (λ _. pass.new.units ≡ pass.old.units + 1) }
{
    match place.take() {
        Some(hold) => Some(hold.let_go(pass)),
        None => None,
    }
}

fn nothing(place: Option<Hold>)
    requires { place ≡ None }
{
    let None = place else { unreachable!() };
}

/// Two holds of one block let go in two threads.
fn end_both(
    rt: &impl Threads,
    one: Hold,
    other: Hold,
    pass: &mut Pass,
    theirs: &mut Pass,
) -> (Option<Left>, Option<Left>)
    requires mine { pass.old.units < SUPPLY }
    requires theirs { theirs.old.units < SUPPLY }
    ensures mine { pass.new.units ≡ pass.old.units + 1 }
    ensures theirs { theirs.new.units ≡ theirs.old.units + 1 }
{
    let mut one = Some(one);
    let mut other = Some(other);
    let both = thread::join_mut(
        rt,
        &mut || end(&mut one, theirs),
        &mut || end(&mut other, pass),
    );
    nothing(one);
    nothing(other);
    both
}

fn freed(left: &Option<Left>) -> bool {
    match left {
        Some(left) => left.answer() == LetGo::Freed,
        None => false,
    }
}

/// Makes a block, takes a second hold, and tells which of the two frees it.
fn who_frees(
    rt: &impl Threads,
    alloc: Global,
    bytes: Vec<u8>,
    pass: &mut Pass,
    theirs: &mut Pass,
) -> Option<(bool, bool)>
    requires mine { (2 ≤ pass.old.units) × (pass.old.units < SUPPLY) }
    requires theirs { theirs.old.units < SUPPLY }
    ensures units { pass.new.units + theirs.new.units ≡ pass.old.units + theirs.old.units }
{
    let Ok(mut hold) = make(alloc, bytes, pass) else {
        return None;
    };
    let Ok(second) = hold.take(pass) else {
        let _left = hold.let_go(pass);
        return None;
    };
    let (one, other) = end_both(rt, hold, second, pass, theirs);
    Some((freed(&one), freed(&other)))
}

#[test]
fn one_of_two_threads_frees(rt: HostRuntime) -> Result<(), Fail> {
    let bytes = vec![in rt.alloc(); 1u8, 2, 3]?;
    let (desk, mut pass) = open_desk();
    let mut theirs = pass.split(1);
    let frees = who_frees(&rt, rt.alloc(), bytes, &mut pass, &mut theirs);
    pass.join(theirs);
    desk.close(pass);
    assert!(rt; frees.is_some_and(|(one, other)| one != other));
    Ok(())
}

/// Whether a second hold, a view of the whole block and one of a part tell that it is marked as text.
fn marks(mut first: Hold, pass: &mut Pass) -> Option<[bool; 3]>
    requires bytes { length first.bytes ≡ 3 }
    requires amount { 2 ≤ first.amount }
    requires units { (1 ≤ pass.old.units) × (pass.old.units < SUPPLY) }
    ensures units { pass.new.units ≡ pass.old.units + 1 }
{
    let Ok(second) = first.take(pass) else {
        let _left = first.let_go(pass);
        return None;
    };
    let _left = first.let_go(pass);
    let marked = second.is_text();
    let whole = BufView::whole(second);
    let all = whole.is_text();
    let BufView {
        hold,
        start: _,
        len: _,
    } = whole;
    let part = BufView {
        hold,
        start: 1,
        len: 2,
    };
    let some = part.is_text();
    let _left = part.let_go(pass);
    Some([marked, all, some])
}

/// The marks of a text of three bytes that is made a block of as text, or as bytes alone.
fn marks_of(alloc: Global, text: &str, as_text: bool, pass: &mut Pass) -> Option<[bool; 3]>
    requires bytes { length text.now ≡ 3 }
    requires units { pass.old.units ≡ SUPPLY }
    ensures units { pass.new.units ≡ SUPPLY }
{
    let bytes = Vec::from_slice(alloc, text.as_bytes()).ok()?;
    let made = if as_text {
        make_text(alloc, bytes, pass)
    } else {
        make(alloc, bytes, pass)
    };
    match made {
        Ok(hold) => marks(hold, pass),
        Err((_bytes, NoMemory)) => None,
    }
}

#[test]
fn whole_of_a_marked_block_is_text(rt: HostRuntime) -> Result<(), Fail> {
    let (desk, mut pass) = open_desk();
    let marked = marks_of(rt.alloc(), "あ", true, &mut pass);
    let unmarked = marks_of(rt.alloc(), "abc", false, &mut pass);
    let audit = desk.close(pass);
    assert_eq!(rt; audit.blocks, 2);
    assert_eq!(rt; marked, Some([true, true, false]));
    assert_eq!(rt; unmarked, Some([false; 3]));
    Ok(())
}
