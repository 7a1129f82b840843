//! The items of a maker, made in a thread ahead of the caller who takes them.
ghost use Rattle.std.specs.Prelude.{◌≡◌, ◌≤◌, true, IfOk};
ghost use Rattle.ahead_ring.specs.Coming.{Gives, RanOut};
ghost use Rattle.ahead_ring.specs.declared.maker.Given.TheVariants.{NoMemory as Refused};

use crate::maker::{Given, Maker};
use crate::round::Ending;
use crate::rounds::{Idle, Rounds, advance};
use rtrb::{Consumer, RingBuffer};
use std::alloc::Global;
use std::marker::Model;
use std::snapshot::Snapshot;
use std::thread::Threads;
use unit_pass::NoMemory;

/// The items of a maker, made a round ahead of who takes them, in a thread beside the caller's. It must be spent by
/// [`close`](Ahead::close), since its thread is to be joined.
pub struct Ahead<R: Threads + Drop, M: Maker + Send + Drop + 'static>
where
    M::Item: Send + 'static,
{
    rt: R,
    consumer: Consumer<M::Item>,
    rounds: Rounds<M>,
    // The maker as it was at the start. It has no bytes: clauses tell by it which items are to come, also where memory ran out.
    whole: Snapshot<M>,
    // How many items a round has at most.
    most: usize,
}

impl<R: Threads + Drop, M: Maker + Send + Drop + 'static> Model for Ahead<R, M>
where
    M::Item: Send + 'static,
{
    ghost use Rattle.std.specs.Prelude.{◌≡◌, ◌≢◌, ◌≤◌, ◌++◌, drop, length, None, IfSome};
    ghost use mathlib.Core.List.{IsPrefix};
    ghost use Rattle.rtrb.specs.Ring.{sent, received, known_items};
    ghost use Rattle.ahead_ring.specs.Coming.{Coming, GotOf, IsBeside, RanOut, is_refused};
    ghost use Rattle.ahead_ring.specs.declared.round.Ending.TheVariants.{Full};

    ghost Value = { Coming M.Item };

    ghost view = { λ s. record {
      coming = drop (length (received s.consumer)) (M.coming s.whole.value);
      refused = is_refused (known_items s.consumer) s.rounds.ending;
    } };

    ghost invariant = { λ s. (1 ≤ s.most)
        × IfSome s.rounds.flight (λ f. IsBeside s.most f.child.promise.producer.value s.consumer × (f.child.promise.most ≡ s.most)
        × (M.coming s.whole.value ≡ sent f.child.promise.producer.value ++ M.coming f.child.promise.maker.value))
        × IfSome s.rounds.idle (λ i. IsBeside s.most i.producer s.consumer × (M.coming s.whole.value ≡ sent i.producer ++ M.coming i.maker))
        × (s.rounds.ending ≡ Full → s.rounds.flight ≡ None → s.rounds.idle ≢ None)
        × GotOf (RanOut M.spent) s.rounds.ending (M.coming s.whole.value) (received s.consumer ++ known_items s.consumer)
        × IsPrefix (received s.consumer ++ known_items s.consumer) (M.coming s.whole.value) };
}

impl<R: Threads + Drop, M: Maker + Send + Drop + 'static> Ahead<R, M>
where
    M::Item: Send + 'static,
{
    /// Makes the ring, with places for twice `ahead` items, and keeps the runtime. Nothing is made yet: the first call of
    /// [`next`](Ahead::next) runs the first round in its caller's thread. `NoMemory` comes only where memory runs out, and the maker
    /// is dropped then.
    pub fn start(alloc: Global, rt: R, maker: M, ahead: u32) -> Result<Ahead<R, M>, NoMemory>
        requires { 1 ≤ ahead }
        ensures { IfOk result (λ made. made.coming ≡ M.coming maker) }
    {
        let most = ahead as usize;
        let (producer, consumer) = RingBuffer::new(alloc, 2 * most)?;
        let whole = Snapshot::of(&maker);
        let rounds = Rounds {
            flight: None,
            idle: Some(Idle { maker, producer }),
            ending: Ending::Full,
        };
        Ok(Ahead {
            rt,
            consumer,
            rounds,
            whole,
            most,
        })
    }

    /// The first of the items that are to come, which leaves them, or `Done` exactly where none is. `NoMemory` comes where the maker
    /// itself answered so, behind all items that it made before, and stays; no item is lost by it.
    ///
    /// It takes an item that is known to be in the ring. Where none is, it waits for the end of the round that runs, and starts the
    /// next one, unless the maker has answered `Done` or `NoMemory`. Where no thread can be started it runs the round itself.
    pub fn next(&mut self) -> Given<M::Item>
        ensures gives { Gives (RanOut M.spent) result self.old self.new }
        ensures again { self.old.refused ≡ true → result ≡ Refused }
    {
        advance(
            &self.rt,
            &mut self.rounds,
            &self.whole,
            &mut self.consumer,
            self.most,
        );
        if self.consumer.cached_slots() > 0 {
            return Given::Item(self.consumer.pop_known());
        }
        match self.rounds.ending {
            Ending::Full => unreachable!(),
            Ending::Done => Given::Done,
            Ending::NoMemory => Given::NoMemory,
        }
    }

    /// Waits for the end of the round that runs, and drops what is left. It can't be refused.
    pub fn close(self) {
        let Ahead {
            rt,
            consumer: _,
            rounds,
            whole: _,
            most: _,
        } = self;
        let Rounds {
            flight,
            idle: _,
            ending: _,
        } = rounds;
        if let Some(flight) = flight {
            let _back = flight.land(&rt);
        }
    }
}
