//! Laws of the answers on schemas, and of arrays at which no rule fails. The calls do nothing.
ghost use Rattle.std.specs.Prelude.{◌≡◌, Result, IsTrue, is_none};
ghost use Rattle.raw_schema.specs.promise.Members.{SchemaTree};
ghost use Rattle.run_ends.specs.promise.Runs.{RunTree};
ghost use Rattle.run_ends.specs.promise.RunRules.{runs_fault};
ghost use Rattle.run_ends.specs.RunHolds.{RunsHold};
ghost use Rattle.run_ends.specs.RunAnswers.{runs_of};
ghost use Rattle.run_ends.specs.promise.RunSchemas.{SchemaFound, RunsReads};

use crate::kinds::RunTyped;
use raw_array::RawArray;

/// A law: a schema is that of one pair of kinds or has one first fault.
pub fn one_runs_answer()
    ensures { (schema : SchemaTree) (first second : Result RunTree SchemaFound)
        → RunsReads schema first → RunsReads schema second → first ≡ second }
{
    root_check::one_root_answer();
}

/// A law: what holds of a run-end encoded array at which no rule fails.
pub(crate) fn runs_hold(typed: &RunTyped, array: &RawArray)
    requires { IsTrue (is_none (runs_fault (runs_of typed.now) array.now)) }
    ensures { RunsHold (runs_of typed.now) array.now }
{
    root_check::faultless_roots();
}
