//! A program with a stream of its own: it gives three numbers, a stage keeps two of them, and a consumer adds these up.
//!
//! [`numbers`] is the stream, and [`chunk`] makes its one chunk. [`total`] takes the chunks of any stream.
#![tactic(auto)]

mod chunk;
mod numbers;
mod total;

ghost use Rattle.std.specs.Prelude.{◌≡◌};
ghost use Rattle.unit_pass.specs.declared.pass.TheConstants.{SUPPLY};

use crate::chunk::number_columns;
use crate::numbers::Numbers;
use crate::total::{Total, end, read};
use stage_kernels::SliceStep;
use stages::Stage;
use std::alloc::Global;
use std::process::ExitCode;
use std::thread::Threads;
use stream_face::RawStream;
use unit_pass::{Pass, open_desk};

/// Adds up the numbers that a window leaves: two from the second on. None where memory ran out. All units are back.
fn sum_of_window<R: Threads + Sync>(rt: &R, alloc: Global, pass: &mut Pass) -> Option<Total>
    requires units { pass.old.units ≡ SUPPLY }
    ensures units { pass.new.units ≡ SUPPLY }
{
    let columns = number_columns(alloc).ok()?;
    match RawStream::start(alloc, Numbers::new(), 0, pass) {
        Ok(numbers) => {
            let window = Stage::start(numbers, SliceStep::new(1, 2, columns));
            read(rt, alloc, window, pass)
        }
        Err((numbers, _fault)) => {
            end(numbers, pass);
            None
        }
    }
}

fn main(rt: HostRuntime) -> ExitCode {
    let (desk, mut pass) = open_desk();
    let total = sum_of_window(&rt, rt.alloc(), &mut pass);
    // A desk closes only with all its units: nothing is left of any structure.
    let _audit = desk.close(pass);
    let Some(Total { rows, sum }) = total else {
        let _told = eprintln!(rt; "number_stream: no sum");
        return ExitCode::FAILURE;
    };
    match println!(rt; "{rows} rows, sum {sum}") {
        Ok(()) => ExitCode::SUCCESS,
        Err(_) => ExitCode::FAILURE,
    }
}
