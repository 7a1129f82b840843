//! Items that come ahead of who takes them.
use crate::{Ahead, Given, Maker};
use std::alloc::Global;
use std::sync::Arc;
use std::sync::atomic::{AtomicU64, Ordering};
use std::test::Fail;
use std::thread;

/// What a test and its maker tell each other.
#[derive(Drop)]
struct Signals {
    // Raised by the test, once the first item is taken.
    flag: AtomicU64,
    // Set by the maker, as it begins the third item.
    mark: AtomicU64,
    // Whether the maker saw the flag then.
    seen: AtomicU64,
}

/// Whether this is raised at one of this many looks.
fn is_raised(signal: &AtomicU64) -> bool {
    for _ in 0..1_000_000 {
        if signal.load(Ordering::SeqCst) == 1 {
            return true;
        }
        thread::yield_now();
    }
    false
}

/// Gives the numbers of a list, last first. As it begins the third of four it sets its mark, looks for the flag and notes
/// whether it saw it.
#[derive(Drop)]
struct Numbers {
    left: Vec<u64>,
    signals: Arc<Signals>,
}

impl Maker for Numbers {
    ghost use Rattle.std.specs.Prelude.{reverse};

    type Item = u64;

    ghost coming = { λ m. reverse m.left.items };

    ghost spent = { λ _. Unit {0} };

    fn make(&mut self) -> Given<u64> {
        if self.left.len() == 2 {
            self.signals.mark.store(1, Ordering::SeqCst);
            if is_raised(&self.signals.flag) {
                self.signals.seen.store(1, Ordering::SeqCst);
            }
        }
        match self.left.pop() {
            Some(number) => Given::Item(number),
            None => Given::Done,
        }
    }
}

/// The four numbers 10, 20, 30 and 40, with the signals.
fn four_numbers(alloc: Global, signals: &Arc<Signals>) -> Result<Numbers, Fail> {
    Ok(Numbers {
        left: vec![in alloc; 40, 30, 20, 10]?,
        signals: Arc::try_clone(signals)?,
    })
}

fn new_signals(alloc: Global) -> Result<Arc<Signals>, Fail> {
    Ok(Arc::new(
        alloc,
        Signals {
            flag: AtomicU64::new(0),
            mark: AtomicU64::new(0),
            seen: AtomicU64::new(0),
        },
    )?)
}

/// An item as a number; 0 where none is left, 1 where memory ran out.
fn number_of(given: Given<u64>) -> u64 {
    match given {
        Given::Item(number) => number,
        Given::Done => 0,
        Given::NoMemory => 1,
    }
}

// The second round runs while the caller has the first item, and before it asks for the third: a body that makes it inside the
// first call, or only when its items are asked for, is seen here alone.
#[test]
fn the_second_round_runs_beside_the_caller(rt: HostRuntime) -> Result<(), Fail> {
    let alloc = rt.alloc();
    let signals = new_signals(alloc)?;
    let numbers = four_numbers(alloc, &signals)?;
    let mut ahead = Ahead::start(alloc, &rt, numbers, 2)?;
    let first = number_of(ahead.next());
    signals.flag.store(1, Ordering::SeqCst);
    let second = number_of(ahead.next());
    let marked = is_raised(&signals.mark);
    let third = number_of(ahead.next());
    let fourth = number_of(ahead.next());
    let end = [number_of(ahead.next()), number_of(ahead.next())];
    ahead.close();
    let seen = signals.seen.load(Ordering::SeqCst);
    assert_eq!(rt;
        (first, second, third, fourth, end),
        (10, 20, 30, 40, [0, 0])
    );
    assert_eq!(rt; (seen, marked), (1, true));
    Ok(())
}

// What is left when an `Ahead` is closed is dropped, also while a round runs.
#[test]
fn an_ahead_may_be_closed_at_any_item(rt: HostRuntime) -> Result<(), Fail> {
    let alloc = rt.alloc();
    for taken in 0..6u32 {
        let signals = new_signals(alloc)?;
        signals.flag.store(1, Ordering::SeqCst);
        let numbers = four_numbers(alloc, &signals)?;
        let mut ahead = Ahead::start(alloc, &rt, numbers, 1)?;
        let mut sum = 0u64;
        for _ in 0..taken {
            sum = number_of(ahead.next()).saturating_add(sum);
        }
        ahead.close();
        let wanted = [0, 10, 30, 60, 100, 100];
        assert_eq!(rt; sum, wanted[taken as usize], "{taken} items");
        assert_eq!(rt; Arc::strong_count(&signals), 1, "{taken} items");
    }
    Ok(())
}

/// Gives this many sevens, and runs out of memory for one more.
#[derive(Drop)]
struct Sevens {
    left: u64,
}

impl Maker for Sevens {
    ghost use Rattle.std.specs.Prelude.{◌≡◌, ◌+◌, replicate};

    type Item = u64;

    ghost coming = { λ m. replicate (m.left + 1) 7 };

    ghost spent = { λ m. m.left ≡ 0 };

    fn make(&mut self) -> Given<u64> {
        if self.left == 0 {
            return Given::NoMemory;
        }
        self.left -= 1;
        Given::Item(7)
    }
}

#[test]
fn want_of_memory_comes_behind_the_items_and_stays(rt: HostRuntime) -> Result<(), Fail> {
    for ahead in [1u32, 2, 3, 64] {
        let mut ahead = Ahead::start(rt.alloc(), &rt, Sevens { left: 3 }, ahead)?;
        let items = [
            number_of(ahead.next()),
            number_of(ahead.next()),
            number_of(ahead.next()),
        ];
        let end = [number_of(ahead.next()), number_of(ahead.next())];
        ahead.close();
        assert_eq!(rt; (items, end), ([7, 7, 7], [1, 1]));
    }
    Ok(())
}
