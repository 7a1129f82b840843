//! The texts of ways to nodes.
ghost use Rattle.std.specs.Prelude.{Some};
ghost use Rattle.data_types.specs.promise.WayTexts.{way_text};
ghost use Rattle.data_types.specs.WayTexts.{step_text};
ghost use Rattle.data_types.specs.promise.Ways.{steps_of};

use crate::path::{DICTIONARY_STEP, Path};
use std::fmt;

/// One step of a way.
#[derive(Clone, Copy)]
struct Step(u32);

impl fmt::Display for Step {
    ghost output = { λ step. Some (step_text step.0) };

    fn fmt<W: fmt::Write>(&self, f: &mut fmt::Formatter<W>) -> fmt::Result {
        if self.0 == DICTIONARY_STEP {
            f.write_str("/d")
        } else {
            write!(f, "/{}", self.0)
        }
    }
}

impl fmt::Display for Path {
    ghost output = { λ path. Some (way_text (steps_of path)) };

    fn fmt<W: fmt::Write>(&self, f: &mut fmt::Formatter<W>) -> fmt::Result {
        let way = self.way();
        if way.is_empty() {
            return f.write_str("/");
        }
        for step in way {
            let step = Step(*step);
            write!(f, "{step}")?;
        }
        Ok(())
    }
}
