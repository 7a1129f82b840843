//! A program that makes a table as a producer and hands it over to a consumer, through "The Arrow C Data Interface".
//!
//! A structure is owned by one holder at a time: a value of type `RawSchema` or `RawArray` is that ownership. It can't be
//! dropped or copied. It is moved to the next owner, or released by `end`, also on each way out of a function that fails.
//! [`produce`] makes the table, and [`consume`] takes it over, checks, reads, shares and releases it.
#![tactic(auto)]

mod consume;
mod fault;
mod print;
mod produce;
mod threads;

ghost use Rattle.std.specs.Prelude.{◌≡◌};
ghost use Rattle.unit_pass.specs.declared.pass.TheConstants.{SUPPLY};

use consume::consume;
use fault::Fault;
use produce::produce;
use std::alloc::Global;
use std::process::ExitCode;
use std::thread::Threads;
use unit_pass::{Audit, Pass, open_desk};

/// Hands a table from a producer to a consumer. Both draw from one pass, and give back to it.
#[tactic(auto, using(crate::proofs::People::costs))]
fn exchange<R: Print + Threads + Sync>(rt: &R, alloc: Global, pass: &mut Pass) -> Result<(), Fault>
    requires units { pass.old.units ≡ SUPPLY }
    ensures units { pass.new.units ≡ SUPPLY }
{
    let table = produce(alloc, pass)?;
    consume(rt, alloc, table, pass)
}

/// Prints what the desk counted, once the exchange came to its end.
fn print_audit(rt: &impl Print, done: Result<(), Fault>, audit: Audit) -> Result<(), Fault> {
    done?;
    let Audit {
        blocks,
        nodes,
        left,
    } = audit;
    println!(rt; "blocks={blocks} nodes={nodes} left={left}")?;
    Ok(())
}

fn main(rt: HostRuntime) -> ExitCode {
    let (desk, mut pass) = open_desk();
    let done = exchange(&rt, rt.alloc(), &mut pass);
    // A desk closes only with all its units: nothing is left of any structure, whatever came of the exchange.
    let audit = desk.close(pass);
    match print_audit(&rt, done, audit) {
        Ok(()) => ExitCode::SUCCESS,
        Err(fault) => {
            let _told = eprintln!(rt; "first_exchange: {fault}");
            ExitCode::FAILURE
        }
    }
}
