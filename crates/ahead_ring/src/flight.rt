//! A round that runs beside its caller.
ghost use Rattle.std.specs.Prelude.{◌≡◌, ◌≤◌, IfOk, IfErr};
ghost use Rattle.rtrb.specs.Ring.{sent, known_free, SameProducer};
ghost use Rattle.ahead_ring.specs.Coming.{IsRound, RanOut};

use crate::maker::Maker;
use crate::round::{Back, round};
use rtrb::Producer;
use std::snapshot::Snapshot;
use std::thread;
use std::thread::{Promise, PromisedHandle, Threads};

/// What the thread of a round promises of what it gives back. It has no bytes but the number.
#[derive(Drop)]
pub(crate) struct RoundPromise<M: Maker + Drop> {
    pub(crate) maker: Snapshot<M>,
    pub(crate) producer: Snapshot<Producer<M::Item>>,
    pub(crate) most: usize,
}

impl<M: Maker + Drop> Promise<Back<M>> for RoundPromise<M> {
    ghost kept_by = { λ p b. IsRound (RanOut M.spent) p.most b.ending (M.coming p.maker.value) (sent p.producer.value) (M.coming b.maker) (sent b.producer)
        × SameProducer p.producer.value b.producer };
}

/// A round that runs in a thread of its own. It must be spent by [`land`](Flight::land), which joins it.
pub(crate) struct Flight<M: Maker + Send + Drop + 'static>
where
    M::Item: Send + 'static,
{
    child: PromisedHandle<Back<M>, RoundPromise<M>>,
}

impl<M: Maker + Send + Drop + 'static> Flight<M>
where
    M::Item: Send + 'static,
{
    /// Starts a round of at most `most` items. Where no thread can be started it is run here, and what it gives back is the error.
    pub(crate) fn start<R: Threads>(
        rt: &R,
        maker: M,
        producer: Producer<M::Item>,
        most: usize,
    ) -> Result<Flight<M>, Back<M>>
        requires places { most ≤ known_free producer }
        ensures maker { IfOk result (λ f. M.coming f.child.promise.maker.value ≡ M.coming maker) }
        ensures producer { IfOk result (λ f. f.child.promise.producer.value ≡ producer) }
        ensures most { IfOk result (λ f. f.child.promise.most ≡ most) }
        ensures pushed { IfErr result (λ b. IsRound (RanOut M.spent) most b.ending (M.coming maker) (sent producer) (M.coming b.maker) (sent b.producer)) }
        ensures ring { IfErr result (λ b. SameProducer producer b.producer) }
    {
        let promise = RoundPromise {
            maker: Snapshot::of(&maker),
            producer: Snapshot::of(&producer),
            most,
        };
        let work = move || -> Back<M>
            requires { most ≤ known_free producer }
            ensures { IsRound (RanOut M.spent) most result.ending (M.coming maker) (sent producer) (M.coming result.maker) (sent result.producer)
                × SameProducer producer result.producer }
        { round(maker, producer, most) };
        match thread::spawn_with(rt, promise, work) {
            Ok(child) => Ok(Flight { child }),
            Err(refused) => Err((refused.value)()),
        }
    }

    /// Waits for the end of the round, and takes what it gives back.
    pub(crate) fn land<R: Threads>(self, rt: &R) -> Back<M>
        ensures pushed { IsRound (RanOut M.spent) self.child.promise.most result.ending (M.coming self.child.promise.maker.value) (sent self.child.promise.producer.value)
            (M.coming result.maker) (sent result.producer) }
        ensures ring { SameProducer self.child.promise.producer.value result.producer }
    {
        let Flight { child } = self;
        child.join(rt)
    }
}
