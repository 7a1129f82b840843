//! The trait of makers, which give items one by one.
ghost use Rattle.std.specs.Prelude.{List};
ghost use Rattle.ahead_ring.specs.Coming.{Makes};

/// What a call for an item answers.
#[derive(Drop)]
pub enum Given<I> {
    /// The next item.
    Item(I),
    /// No item is left.
    Done,
    /// Memory ran out.
    NoMemory,
}

/// A maker of the items of a finite list, in order and each once.
pub trait Maker {
    /// What is given. It may be dropped; to go from thread to thread it must be one that may.
    type Item: Drop;

    /// The items that are still to come.
    ghost coming: { Self → List Self.Item };

    /// What a maker says of itself once memory ran out. Only a call that answers so has this to say, so a clause that names it
    /// says that a maker did.
    ghost spent: { Self → Type 0 };

    /// Gives the first of the items that are to come, which leaves them, or `Done` exactly where none is. `NoMemory` comes only
    /// where memory runs out, and says nothing of what is to come then: no item of a call behind it counts.
    fn make(&mut self) -> Given<Self::Item>
        ensures { Makes (spent self.new) result (coming self.old) (coming self.new) };
}
