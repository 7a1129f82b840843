//! A round: a maker makes at most a number of items and pushes them into the ring.
ghost use Rattle.std.specs.Prelude.{◌≤◌};
ghost use Rattle.rtrb.specs.Ring.{sent, known_free, SameProducer};
ghost use Rattle.ahead_ring.specs.Coming.{IsRound, RanOut};

use crate::maker::{Given, Maker};
use rtrb::Producer;

/// Why a round ended: it was full, no item was left, or memory ran out.
#[derive(Clone, Copy)]
pub(crate) enum Ending {
    Full,
    Done,
    NoMemory,
}

/// What a round gives back.
#[derive(Drop)]
pub(crate) struct Back<M: Maker + Drop> {
    pub(crate) maker: M,
    pub(crate) producer: Producer<M::Item>,
    pub(crate) ending: Ending,
}

/// Makes and pushes at most `most` items, for which there are places.
pub(crate) fn round<M: Maker + Drop>(
    mut maker: M,
    mut producer: Producer<M::Item>,
    most: usize,
) -> Back<M>
    requires places { most ≤ known_free producer }
    ensures pushed { IsRound (RanOut M.spent) most result.ending (M.coming maker) (sent producer) (M.coming result.maker) (sent result.producer) }
    ensures ring { SameProducer producer result.producer }
{
    let mut ending = Ending::Full;
    for _turn in 0..most {
        match maker.make() {
            Given::Item(item) => producer.push_reserved(item),
            Given::Done => {
                ending = Ending::Done;
                break;
            }
            Given::NoMemory => {
                ending = Ending::NoMemory;
                break;
            }
        }
    }
    Back {
        maker,
        producer,
        ending,
    }
}
