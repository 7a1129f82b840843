//! The way to a node of a tree.
ghost use Rattle.std.specs.Prelude.{◌≡◌, ◌↔◌, ◌+◌, ◌<◌, ◌≤◌, ℕ, [], ◌∷◌, ◌++◌, IsTrue, nat_eq};
ghost use Rattle.std.specs.Cmp.{on_equiv, on_per, partial_equiv_from_equiv};
ghost use Rattle.std.specs.Cmp.Lexicographic.{nat_list_eq_equiv, pointwise};
ghost use Rattle.data_types.specs.promise.KindTrees.{most_levels};
ghost use Rattle.data_types.specs.promise.Ways.{Steps, path_of, steps_of};

/// Where a node is: the numbers of the children on the way to it, or [`DICTIONARY_STEP`]. The first `depth` of the
/// steps lead there; what follows them means nothing, and two paths are equal where their steps are.
#[derive(Clone, Copy, Debug)]
pub struct Path {
    /// The number of steps, at most 64.
    pub depth: u8,
    /// The steps, and behind `depth` of them any numbers.
    pub steps: [u32; 64],
}

/// The step to a node's dictionary.
pub const DICTIONARY_STEP: u32 = u32::MAX;

impl Path {
    /// The way to the root.
    pub fn root() -> Path
        ensures way { steps_of result ≡ [] }
        ensures depth { result.depth ≡ 0 }
    {
        Path {
            depth: 0,
            steps: [0; 64],
        }
    }

    /// The way to a part of the node there.
    pub fn down(&self, step: u32) -> Path
        requires { self.now.depth < 64 }
        ensures way { steps_of result ≡ steps_of self.now ++ step ∷ [] }
        ensures depth { result.depth ≡ self.now.depth + 1 }
    {
        let mut steps = self.steps;
        steps[self.depth as usize] = step;
        Path {
            depth: self.depth + 1,
            steps,
        }
    }

    /// Goes down to a part of the node there.
    pub fn push(&mut self, step: u32)
        requires { self.old.depth < most_levels }
        ensures way { steps_of self.new ≡ steps_of self.old ++ step ∷ [] }
        ensures depth { self.new.depth ≡ self.old.depth + 1 }
    {
        self.steps[self.depth as usize] = step;
        self.depth += 1;
    }

    /// Goes back up to the node that the last step led from.
    pub fn pop(&mut self)
        requires some { 1 ≤ self.old.depth }
        requires within { self.old.depth ≤ most_levels }
        ensures way { (way : Steps) (step : ℕ) → steps_of self.old ≡ way ++ step ∷ [] → steps_of self.new ≡ way }
        ensures depth { self.new.depth + 1 ≡ self.old.depth }
    {
        self.depth -= 1;
    }

    /// The steps from the root to the node.
    pub fn way(&self) -> &[u32]
        ensures { result.now ≡ steps_of self.now }
    {
        let depth = (self.depth as usize).min(64);
        &self.steps[..depth]
    }

    /// The same way, with 0 in each place behind it, so that two such paths are equal as values where their ways are.
    pub fn cleared(&self) -> Path
        ensures { result ≡ path_of (steps_of self.now) }
    {
        let depth = self.way().len();
        let mut steps = self.steps;
        steps[depth..].fill(0);
        Path {
            depth: depth as u8,
            steps,
        }
    }
}

impl PartialEq for Path {
    ghost eq = { λ a b. pointwise nat_eq (steps_of a) (steps_of b) };

    ghost laws = { on_per steps_of (partial_equiv_from_equiv nat_list_eq_equiv) };

    fn eq(&self, other: &Path) -> bool
        ensures decided { result ≡ pointwise nat_eq (steps_of self.now) (steps_of other.now) }
        ensures exact { IsTrue result ↔ (steps_of self.now ≡ steps_of other.now) }
    {
        self.way() == other.way()
    }
}

impl Eq for Path {
    ghost laws = { on_equiv steps_of nat_list_eq_equiv };
}
