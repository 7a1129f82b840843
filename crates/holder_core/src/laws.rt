//! What holds over whole runs of the machine, whatever the events and whichever holder sends them.
ghost use Rattle.holder_core.specs.HolderRuns.{StepKeepsOk, RunKeepsOk, NeverHomeAgain, GoneStays, DeedAtMostOnce, ReadsAtHome};

/// Each step keeps the invariant, and so does each run of steps.
pub fn steps_keep_ok()
    ensures step { StepKeepsOk }
    ensures run { RunKeepsOk }
{}

/// A deed that has left its home never comes back, one that is gone stays gone, and it is handed out at most once.
pub fn deed_leaves_once()
    ensures home { NeverHomeAgain }
    ensures gone { GoneStays }
    ensures once { DeedAtMostOnce }
{}

/// A read that is answered with the bytes is in a state where the deed is at home.
pub fn reads_at_home()
    ensures { ReadsAtHome }
{}
