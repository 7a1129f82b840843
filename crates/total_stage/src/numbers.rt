//! The totals of numbers: how many there are, their sum, the least and the greatest.
ghost use Rattle.std.specs.Prelude.{◌≡◌, ◌+◌, ◌<◌, ◌≤◌, ◌^◌, ◌++◌, ◌∷◌, [], ℤ, List, length};
ghost use Rattle.stage_model.specs.Stages.{greater as greater_of, lesser as lesser_of};

/// The totals of the numbers so far.
#[derive(Clone, Copy)]
pub(crate) struct Totals {
    pub(crate) count: u64,
    pub(crate) sum: i128,
    /// Before the first number, the highest that there can be.
    pub(crate) least: i128,
    /// Before the first number, the lowest that there can be.
    pub(crate) greatest: i128,
}

impl Totals {
    ghost use Rattle.stage_model.specs.promise.Stages.{extreme};
    ghost use Rattle.stage_model.specs.Stages.{greater, lesser};
    ghost use Rattle.total_stage.specs.Totals.{AreTotals, IsSmall, number_value};

    /// The totals of no numbers.
    pub(crate) fn none() -> Totals
        ensures { AreTotals result [] }
    {
        Totals {
            count: 0,
            sum: 0,
            least: i128::MAX,
            greatest: i128::MIN,
        }
    }

    /// Adds a number.
    #[inline(always)]
    pub(crate) fn add(&mut self, number: i128)
        requires small { IsSmall number }
        requires few { (numbers : List ℤ) × AreTotals self.old numbers × (length numbers < 2 ^ 30) }
        ensures { (numbers : List ℤ) → AreTotals self.old numbers → AreTotals self.new (numbers ++ number ∷ []) }
    {
        self.count += 1;
        self.sum += number;
        self.least = lesser(self.least, number);
        self.greatest = greater(self.greatest, number);
    }

    /// Adds the numbers of other totals behind those that are there.
    pub(crate) fn join(&mut self, other: Totals)
        requires few { (numbers : List ℤ) × (others : List ℤ) × AreTotals self.old numbers × AreTotals other others
            × (length numbers + length others ≤ 2 ^ 30) }
        ensures { (numbers others : List ℤ) → AreTotals self.old numbers → AreTotals other others → AreTotals self.new (numbers ++ others) }
    {
        self.count += other.count;
        self.sum += other.sum;
        self.least = lesser(self.least, other.least);
        self.greatest = greater(self.greatest, other.greatest);
    }

    /// The least number, where there is one.
    pub(crate) fn least_if(&self) -> Option<i128>
        ensures { (numbers : List ℤ) → AreTotals self.now numbers → number_value result ≡ extreme lesser numbers }
    {
        if self.count == 0 {
            None
        } else {
            Some(self.least)
        }
    }

    /// The greatest number, where there is one.
    pub(crate) fn greatest_if(&self) -> Option<i128>
        ensures { (numbers : List ℤ) → AreTotals self.now numbers → number_value result ≡ extreme greater numbers }
    {
        if self.count == 0 {
            None
        } else {
            Some(self.greatest)
        }
    }
}

/// The lesser of two numbers.
#[inline(always)]
fn lesser(a: i128, b: i128) -> i128
    ensures { result ≡ lesser_of a b }
{
    if b < a { b } else { a }
}

/// The greater of two numbers.
#[inline(always)]
fn greater(a: i128, b: i128) -> i128
    ensures { result ≡ greater_of a b }
{
    if a < b { b } else { a }
}
