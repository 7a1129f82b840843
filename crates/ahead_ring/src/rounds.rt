//! The rounds, one after another: when no item of one is left, the next is joined and the one behind it started.
ghost use Rattle.std.specs.Prelude.{◌≡◌, ◌≢◌, ◌≤◌, ◌*◌, ◌++◌, [], length, None, Some, IfSome};
ghost use mathlib.Core.List.{IsPrefix};
ghost use Rattle.rtrb.specs.Ring.{sent, received, known_free, known_items, producer_capacity, IsPair};
ghost use Rattle.ahead_ring.specs.Coming.{GotOf, IsBeside, IsRound, RanOut, SentOf};
ghost use Rattle.ahead_ring.specs.declared.round.Ending.TheVariants.{Full};

use crate::flight::Flight;
use crate::maker::Maker;
use crate::round::{Back, Ending, round};
use rtrb::{Consumer, Producer};
use std::mem;
use std::snapshot::Snapshot;
use std::thread::Threads;

/// A maker between two rounds, with its end of the ring.
#[derive(Drop)]
pub(crate) struct Idle<M: Maker + Drop> {
    pub(crate) maker: M,
    pub(crate) producer: Producer<M::Item>,
}

/// The rounds of a maker: the one that runs, or the maker where none runs and more are to come.
pub(crate) struct Rounds<M: Maker + Send + Drop + 'static>
where
    M::Item: Send + 'static,
{
    pub(crate) flight: Option<Flight<M>>,
    pub(crate) idle: Option<Idle<M>>,
    // Why the last joined round ended.
    pub(crate) ending: Ending,
}

/// Joins a round when no item of the one before is left. Its items are known then, and there are places for as many again.
fn join_round<R: Threads, M: Maker + Send + Drop + 'static>(
    rt: &R,
    flight: Flight<M>,
    consumer: &mut Consumer<M::Item>,
    most: usize,
) -> Back<M>
where
    M::Item: Send + 'static,
    requires most { flight.child.promise.most ≡ most }
    requires beside { IsBeside most flight.child.promise.producer.value consumer.old }
    requires empty { known_items consumer.old ≡ [] }
    ensures pushed { IsRound (RanOut M.spent) most result.ending (M.coming flight.child.promise.maker.value) (sent flight.child.promise.producer.value)
        (M.coming result.maker) (sent result.producer) }
    ensures beside { IsBeside most result.producer consumer.new }
    ensures received { received consumer.new ≡ received consumer.old }
    ensures full { result.ending ≡ Full → length (known_items consumer.new) ≡ most }
    ensures places { most ≤ known_free result.producer }
{
    let mut back = flight.land(rt);
    back.producer.slots_beside(consumer);
    consumer.slots_beside(&mut back.producer);
    back
}

/// Runs a round here when no item of the one before is left. Its items are known then, and there are places for as many again.
fn own_round<M: Maker + Drop>(
    idle: Idle<M>,
    consumer: &mut Consumer<M::Item>,
    most: usize,
) -> Back<M>
    requires beside { IsBeside most idle.producer consumer.old }
    requires empty { known_items consumer.old ≡ [] }
    ensures pushed { IsRound (RanOut M.spent) most result.ending (M.coming idle.maker) (sent idle.producer) (M.coming result.maker) (sent result.producer) }
    ensures beside { IsBeside most result.producer consumer.new }
    ensures received { received consumer.new ≡ received consumer.old }
    ensures full { result.ending ≡ Full → length (known_items consumer.new) ≡ most }
    ensures places { most ≤ known_free result.producer }
{
    let Idle {
        maker,
        mut producer,
    } = idle;
    producer.slots_beside(consumer);
    let mut own = round(maker, producer, most);
    own.producer.slots_beside(consumer);
    consumer.slots_beside(&mut own.producer);
    own
}

/// Goes on behind a round that was run here since no thread could be started. Its items are known, too, then.
fn go_on_here<M: Maker + Send + Drop + 'static>(
    mut own: Back<M>,
    whole: &Snapshot<M>,
    consumer: &mut Consumer<M::Item>,
    most: usize,
) -> Rounds<M>
where
    M::Item: Send + 'static,
    requires pair { IsPair own.producer consumer.old }
    requires capacity { producer_capacity own.producer ≡ 2 * most }
    requires sent { SentOf (RanOut M.spent) own.ending (M.coming whole.now.value) (sent own.producer) (M.coming own.maker) }
    ensures known { received consumer.old ++ known_items consumer.new ≡ sent own.producer }
    ensures received { received consumer.new ≡ received consumer.old }
    ensures flight { result.flight ≡ None }
    ensures idle { IfSome result.idle (λ i. IsBeside most i.producer consumer.new × (M.coming whole.now.value ≡ sent i.producer ++ M.coming i.maker)) }
    ensures more { result.ending ≡ Full → result.idle ≢ None }
    ensures got { GotOf (RanOut M.spent) result.ending (M.coming whole.now.value) (received consumer.new ++ known_items consumer.new) }
    ensures prefix { IsPrefix (received consumer.new ++ known_items consumer.new) (M.coming whole.now.value) }
{
    let _whole = whole;
    consumer.slots_beside(&mut own.producer);
    let Back {
        maker,
        producer,
        ending,
    } = own;
    match ending {
        Ending::Full => Rounds {
            flight: None,
            idle: Some(Idle { maker, producer }),
            ending,
        },
        Ending::Done | Ending::NoMemory => Rounds {
            flight: None,
            idle: None,
            ending,
        },
    }
}

/// Starts the next round, unless the last one ended the items or memory.
fn start_next<R: Threads, M: Maker + Send + Drop + 'static>(
    rt: &R,
    back: Back<M>,
    whole: &Snapshot<M>,
    consumer: &mut Consumer<M::Item>,
    most: usize,
) -> Rounds<M>
where
    M::Item: Send + 'static,
    requires some { 1 ≤ most }
    requires sent { SentOf (RanOut M.spent) back.ending (M.coming whole.now.value) (sent back.producer) (M.coming back.maker) }
    requires beside { IsBeside most back.producer consumer.old }
    requires full { back.ending ≡ Full → length (known_items consumer.old) ≡ most }
    requires places { most ≤ known_free back.producer }
    ensures received { received consumer.new ≡ received consumer.old }
    ensures flight { IfSome result.flight (λ f. IsBeside most f.child.promise.producer.value consumer.new × (f.child.promise.most ≡ most)
        × (M.coming whole.now.value ≡ sent f.child.promise.producer.value ++ M.coming f.child.promise.maker.value)) }
    ensures idle { IfSome result.idle (λ i. IsBeside most i.producer consumer.new × (M.coming whole.now.value ≡ sent i.producer ++ M.coming i.maker)) }
    ensures more { result.ending ≡ Full → result.flight ≡ None → result.idle ≢ None }
    ensures got { GotOf (RanOut M.spent) result.ending (M.coming whole.now.value) (received consumer.new ++ known_items consumer.new) }
    ensures prefix { IsPrefix (received consumer.new ++ known_items consumer.new) (M.coming whole.now.value) }
    ensures known { result.ending ≡ Full → 1 ≤ length (known_items consumer.new) }
{
    let Back {
        maker,
        producer,
        ending,
    } = back;
    match ending {
        Ending::Full => {}
        Ending::Done | Ending::NoMemory => {
            return Rounds {
                flight: None,
                idle: None,
                ending,
            };
        }
    }
    match Flight::start(rt, maker, producer, most) {
        Ok(flight) => Rounds {
            flight: Some(flight),
            idle: None,
            ending,
        },
        Err(own) => go_on_here(own, whole, consumer, most),
    }
}

/// Puts the next rounds in the place of old ones of which none runs.
fn go_over<M: Maker + Send + Drop + 'static>(rounds: &mut Rounds<M>, next: Rounds<M>)
where
    M::Item: Send + 'static,
    requires { rounds.old.flight ≡ None }
    ensures { rounds.new ≡ next }
{
    let Rounds {
        flight,
        idle: _,
        ending: _,
    } = mem::replace(rounds, next);
    match flight {
        Some(_) => unreachable!(),
        None => {}
    }
}

/// Goes on where no item is known and more may come: the round that runs is joined, or where none runs one is run here, and the
/// one behind it is started.
pub(crate) fn advance<R: Threads, M: Maker + Send + Drop + 'static>(
    rt: &R,
    rounds: &mut Rounds<M>,
    whole: &Snapshot<M>,
    consumer: &mut Consumer<M::Item>,
    most: usize,
)
where
    M::Item: Send + 'static,
    requires some { 1 ≤ most }
    requires flight { IfSome rounds.old.flight (λ f. IsBeside most f.child.promise.producer.value consumer.old × (f.child.promise.most ≡ most)
        × (M.coming whole.now.value ≡ sent f.child.promise.producer.value ++ M.coming f.child.promise.maker.value)) }
    requires idle { IfSome rounds.old.idle (λ i. IsBeside most i.producer consumer.old × (M.coming whole.now.value ≡ sent i.producer ++ M.coming i.maker)) }
    requires more { rounds.old.ending ≡ Full → rounds.old.flight ≡ None → rounds.old.idle ≢ None }
    requires got { GotOf (RanOut M.spent) rounds.old.ending (M.coming whole.now.value) (received consumer.old ++ known_items consumer.old) }
    requires prefix { IsPrefix (received consumer.old ++ known_items consumer.old) (M.coming whole.now.value) }
    ensures received { received consumer.new ≡ received consumer.old }
    ensures flight { IfSome rounds.new.flight (λ f. IsBeside most f.child.promise.producer.value consumer.new × (f.child.promise.most ≡ most)
        × (M.coming whole.now.value ≡ sent f.child.promise.producer.value ++ M.coming f.child.promise.maker.value)) }
    ensures idle { IfSome rounds.new.idle (λ i. IsBeside most i.producer consumer.new × (M.coming whole.now.value ≡ sent i.producer ++ M.coming i.maker)) }
    ensures more { rounds.new.ending ≡ Full → rounds.new.flight ≡ None → rounds.new.idle ≢ None }
    ensures got { GotOf (RanOut M.spent) rounds.new.ending (M.coming whole.now.value) (received consumer.new ++ known_items consumer.new) }
    ensures prefix { IsPrefix (received consumer.new ++ known_items consumer.new) (M.coming whole.now.value) }
    ensures known { rounds.new.ending ≡ Full → 1 ≤ length (known_items consumer.new) }
    ensures over { rounds.old.ending ≢ Full → (rounds.new.ending ≡ rounds.old.ending) × (known_items consumer.new ≡ known_items consumer.old) }
{
    match rounds.ending {
        Ending::Full => {}
        Ending::Done | Ending::NoMemory => return,
    }
    if consumer.cached_slots() > 0 {
        return;
    }
    if let Some(flight) = rounds.flight.take() {
        let back = join_round(rt, flight, consumer, most);
        let next = start_next(rt, back, whole, consumer, most);
        go_over(rounds, next);
        return;
    }
    if let Some(idle) = rounds.idle.take() {
        let back = own_round(idle, consumer, most);
        let next = start_next(rt, back, whole, consumer, most);
        go_over(rounds, next);
    }
}
