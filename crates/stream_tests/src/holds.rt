//! Three holds of one block, let go in threads of their own in each order.
use buf_block::{Hold, LetGo, make};
use std::alloc::Global;
use std::process::Abort;
use std::sync::atomic::{AtomicU64, Ordering};
use std::test::Fail;
use std::thread;
use std::thread::Threads;
use unit_pass::{NoMemory, Pass, SUPPLY, open_desk};

/// What a holder answered: whether its turn came, whether it still read the bytes then, and whether it freed the block.
#[derive(Clone, Copy, Debug, PartialEq, Drop)]
struct Told {
    turn_came: bool,
    read: bool,
    freed: bool,
}

/// A hold with the units of its thread and its turn, counted from 0, and what it answered.
struct Holder {
    hold: Option<Hold>,
    pass: Pass,
    turn: u64,
    told: Option<Told>,
}

/// Waits for the holder's turn, reads the block, lets go of it, and passes the turn on.
fn let_go_in_turn(holder: &mut Holder, turns: &AtomicU64) {
    let mut turn_came = false;
    for _ in 0..1_000_000 {
        if turns.load(Ordering::SeqCst) == holder.turn {
            turn_came = true;
            break;
        }
        thread::yield_now();
    }
    if holder.pass.units() < SUPPLY {
        if let Some(hold) = holder.hold.take() {
            let read = hold.bytes() == [1u8, 2, 3].as_slice();
            let freed = hold.let_go(&mut holder.pass).answer() == LetGo::Freed;
            holder.told = Some(Told {
                turn_came,
                read,
                freed,
            });
        }
    }
    turns.fetch_add(1, Ordering::SeqCst);
}

/// A holder that hasn't answered.
fn waiting(hold: Hold, pass: &mut Pass, turn: u64) -> Holder {
    Holder {
        hold: Some(hold),
        pass: pass.split(0),
        turn,
        told: None,
    }
}

/// A second hold of a block.
fn another(rt: &impl Abort, hold: &mut Hold, pass: &mut Pass) -> Hold {
    assert!(rt; hold.amount() >= 2 && pass.units() >= 1);
    match hold.take(pass) {
        Ok(hold) => hold,
        Err(NoMemory) => panic!(rt; "no memory"),
    }
}

/// The one hold of a new block of the bytes 1, 2 and 3.
fn block(rt: &impl Abort, alloc: Global, pass: &mut Pass) -> Hold {
    let Ok(bytes) = Vec::from_slice(alloc, &[1u8, 2, 3]) else {
        panic!(rt; "no memory");
    };
    assert!(rt; pass.units() >= 1);
    match make(alloc, bytes, pass) {
        Ok(hold) => hold,
        Err(_refused) => panic!(rt; "no memory"),
    }
}

/// The holders of one block, each with its turn.
fn three_holders(rt: &impl Abort, alloc: Global, turns: [u64; 3], pass: &mut Pass) -> Vec<Holder> {
    let Ok(mut holders) = Vec::with_capacity(alloc, 3) else {
        panic!(rt; "no memory");
    };
    let mut first = block(rt, alloc, pass);
    let second = another(rt, &mut first, pass);
    let third = another(rt, &mut first, pass);
    holders.push_reserved(waiting(first, pass, turns[0]));
    holders.push_reserved(waiting(second, pass, turns[1]));
    holders.push_reserved(waiting(third, pass, turns[2]));
    holders
}

/// Takes in what a holder has left, and gives what it answered.
fn ended(rt: &impl Abort, holder: Option<Holder>, pass: &mut Pass) -> Option<Told> {
    let Some(
        Holder {
            hold,
            pass: theirs,
            turn: _,
            told,
        },
    ) = holder
    else {
        panic!(rt; "no holder");
    };
    let None = hold else {
        panic!(rt; "a hold is left");
    };
    assert!(rt; pass.units() + theirs.units() <= SUPPLY);
    pass.join(theirs);
    told
}

/// Takes in what three holders have left, and gives what they answered, by number.
fn three_told(rt: &impl Abort, holders: Vec<Holder>, pass: &mut Pass) -> [Option<Told>; 3] {
    let mut holders = holders;
    let third = ended(rt, holders.pop(), pass);
    let second = ended(rt, holders.pop(), pass);
    let first = ended(rt, holders.pop(), pass);
    assert!(rt; holders.is_empty());
    holders.destroy_empty();
    [first, second, third]
}

/// What the three holders of a block answered, by number.
fn told_by_turns<R: Threads + Abort + Sync>(
    rt: &R,
    alloc: Global,
    turns: [u64; 3],
) -> [Option<Told>; 3] {
    let (desk, mut pass) = open_desk();
    let mut holders = three_holders(rt, alloc, turns, &mut pass);
    let turn = AtomicU64::new(0);
    thread::for_each_mut(
        rt,
        holders.as_mut_slice(),
        3,
        &|_, holder: &mut Holder| { let_go_in_turn(holder, &turn) },
    );
    let told = three_told(rt, holders, &mut pass);
    assert!(rt; pass.units() == SUPPLY);
    let audit = desk.close(pass);
    assert_eq!(rt; audit.blocks, 1);
    told
}

#[test]
fn last_of_three_threads_frees_in_each_order(rt: HostRuntime) -> Result<(), Fail> {
    let orders = [
        ([0u64, 1, 2], [false, false, true]),
        ([0, 2, 1], [false, true, false]),
        ([1, 0, 2], [false, false, true]),
        ([1, 2, 0], [false, true, false]),
        ([2, 0, 1], [true, false, false]),
        ([2, 1, 0], [true, false, false]),
    ];
    for (turns, frees) in orders {
        let told = told_by_turns(&rt, rt.alloc(), turns);
        let expected = frees.map(|freed| {
            Some(Told {
                turn_came: true,
                read: true,
                freed,
            })
        });
        assert_eq!(rt; told, expected, "turns {turns:?}");
    }
    Ok(())
}
