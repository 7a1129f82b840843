//! What is written of a fault. The line takes no memory.
ghost use Rattle.std.specs.Prelude.{◌≡◌, Some};
ghost use Rattle.tree_check.specs.promise.Runs.{Took};
ghost use Rattle.tree_top.specs.promise.Diagnostics.{status_line};

use crate::fault::TreeRunFault;
use edge_io::{Sink, WriteFault, write_all};

/// Writes the line of a fault to a sink of diagnostics, where there is one.
pub(crate) fn write_diagnostics<E: Sink>(
    errs: &mut E,
    fault: Option<TreeRunFault>,
) -> Result<(), WriteFault>
    ensures { Took (E.taken errs.old) (E.taken errs.new) (E.faults errs.old) (E.faults errs.new) (status_line fault) }
{
    match fault {
        Some(fault) => write_all(errs, line_of(fault)),
        None => write_all(errs, b""),
    }
}

/// The line of a fault.
fn line_of(fault: TreeRunFault) -> &'static [u8]
    ensures { result.now ≡ status_line (Some fault) }
{
    match fault {
        TreeRunFault::Words => b"arrowtree: status 2\n",
        TreeRunFault::InputTooLong => b"arrowtree: status 5\n",
        TreeRunFault::ReadFault => b"arrowtree: status 6\n",
        TreeRunFault::WriteFault { taken: _ } => b"arrowtree: status 7\n",
        TreeRunFault::Text(_) => b"arrowtree: status 8\n",
        TreeRunFault::Schema { path: _, rule: _ } => b"arrowtree: status 8\n",
        TreeRunFault::Layout(_) => b"arrowtree: status 8\n",
        TreeRunFault::UnionSchema(_) => b"arrowtree: status 8\n",
        TreeRunFault::Union(_) => b"arrowtree: status 8\n",
        TreeRunFault::Tag(_) => b"arrowtree: status 8\n",
        TreeRunFault::RunsSchema(_) => b"arrowtree: status 8\n",
        TreeRunFault::Runs(_) => b"arrowtree: status 8\n",
        TreeRunFault::Code(_) => b"arrowtree: status 8\n",
        TreeRunFault::TooManyColumns { count: _ } => b"arrowtree: status 8\n",
        TreeRunFault::Column { column: _ } => b"arrowtree: status 8\n",
        TreeRunFault::Lists(_) => b"arrowtree: status 8\n",
        TreeRunFault::NoMemory => b"arrowtree: status 9\n",
    }
}
