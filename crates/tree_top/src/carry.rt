//! What a run does between its words and its lines: it reads, makes the text and writes it.
ghost use Rattle.std.specs.Prelude.{◌≡◌, ◌≢◌, ◌≤◌, ◌+◌, ◌⊎◌, ◌↔◌, false, None, Some, Ok, Err, IfOk, IfErr, OnOk, length, ℕ, List};
ghost use Rattle.std.specs.Io.KnownBytes.{IsAtEnd, Keeps};
ghost use Rattle.edge_io.specs.promise.Edge.{LosesWithin, Rose};
ghost use Rattle.unit_pass.specs.declared.pass.TheConstants.{ROOM};
ghost use Rattle.tree_check.specs.promise.Runs.{input_limit, ReadFor};
ghost use Rattle.tree_top.specs.Answer.{AreBytes, IsTooLong};
ghost use Rattle.tree_top.specs.promise.Faults.{cause_of};
ghost use Rattle.tree_top.specs.Faults.{AtWriteFault, fault_in, is_write_fault};
ghost use Rattle.tree_top.specs.promise.Over.{RanOver};

use crate::answer::answer_text;
use crate::command::Command;
use crate::fault::TreeRunFault;
use crate::laws::one_answer;
use edge_io::{ReadFault, Sink, Source, read_all, write_all};
use std::alloc::Global;
use unit_pass::{Pass, ROOM};

/// The most bytes that are read.
const INPUT_LIMIT: u64 = 1 << 30;

/// Reads the source to its end.
fn read_source<S: Source>(alloc: Global, source: &mut S) -> Result<Vec<u8>, TreeRunFault>
    ensures bytes { IfOk result (λ v. AreBytes (S.left source.old) v.items) }
    ensures fits { IfOk result (λ v. length v.items ≤ input_limit) }
    ensures end { OnOk result (IsAtEnd (S.left source.new)) }
    ensures fault { IfErr result (λ fault. (fault ≡ TreeRunFault.NoMemory)
        ⊎ (fault ≡ TreeRunFault.ReadFault) × Rose (S.faults source.old) (S.faults source.new)
        ⊎ (fault ≡ TreeRunFault.InputTooLong) × IsTooLong (S.left source.old)) }
    ensures read { IfErr result (λ fault. ReadFor (cause_of fault) None (S.left source.old) (S.left source.new)) }
    ensures prefix { LosesWithin (S.left source.old) (S.left source.new) (input_limit + 1) }
{
    match read_all(alloc, source, INPUT_LIMIT) {
        Ok(bytes) => Ok(bytes),
        Err(ReadFault::Failed) => Err(TreeRunFault::ReadFault),
        Err(ReadFault::TooLong) => Err(TreeRunFault::InputTooLong),
        Err(ReadFault::NoMemory) => Err(TreeRunFault::NoMemory),
    }
}

/// Reads the source, makes the text of a command and writes it.
fn run_command<S: Source, K: Sink>(
    alloc: Global,
    command: Command,
    source: &mut S,
    sink: &mut K,
    pass: &mut Pass,
) -> Result<(), TreeRunFault>
    requires { ROOM ≤ pass.old.units }
    ensures over { (bytes : List ℕ) × AreBytes (S.left source.old) bytes
        × RanOver (Some command) bytes (fault_in result) (K.taken sink.old) (K.taken sink.new) pass.old.blocks pass.old.nodes
        pass.new.blocks pass.new.nodes (Rose (S.faults source.old) (S.faults source.new)) (Rose (K.faults sink.old) (K.faults sink.new)) }
    ensures read_to_end { OnOk result (IsAtEnd (S.left source.new)) }
    ensures fault_read { IfErr result (λ fault. ReadFor (cause_of fault) None (S.left source.old) (S.left source.new)) }
    ensures not_words { result ≢ Err TreeRunFault.Words }
    ensures read_fault { result ≡ Err TreeRunFault.ReadFault → Rose (S.faults source.old) (S.faults source.new) }
    ensures write_fault { IfErr result (λ fault. AtWriteFault fault (λ taken. Rose (K.faults sink.old) (K.faults sink.new))) }
    ensures unwritten { IfErr result (λ fault. is_write_fault fault ≡ false → Keeps (K.taken sink.old) (K.taken sink.new)) }
    ensures prefix { LosesWithin (S.left source.old) (S.left source.new) (input_limit + 1) }
    ensures units { pass.new.units ≡ pass.old.units }
{
    one_answer();
    let bytes = read_source(alloc, source)?;
    let text = answer_text(alloc, command, &bytes, pass)?;
    match write_all(sink, &text) {
        Ok(()) => Ok(()),
        Err(fault) => Err(TreeRunFault::from(fault)),
    }
}

/// Reads the source to its end, makes the text of the command and writes it to the sink, where there is a command; or answers
/// the first fault.
pub(crate) fn run_over_source<S: Source, K: Sink>(
    alloc: Global,
    command: Option<Command>,
    source: &mut S,
    sink: &mut K,
    pass: &mut Pass,
) -> Result<(), TreeRunFault>
    requires { ROOM ≤ pass.old.units }
    // Of the bytes of one input all of this is so: those that the source states; where it states none, some bytes.
    ensures over { (bytes : List ℕ) × AreBytes (S.left source.old) bytes
        × RanOver command bytes (fault_in result) (K.taken sink.old) (K.taken sink.new) pass.old.blocks pass.old.nodes pass.new.blocks pass.new.nodes
        (Rose (S.faults source.old) (S.faults source.new)) (Rose (K.faults sink.old) (K.faults sink.new)) }
    ensures read_to_end { OnOk result (IsAtEnd (S.left source.new)) }
    ensures fault_read { IfErr result (λ fault. ReadFor (cause_of fault) None (S.left source.old) (S.left source.new)) }
    ensures words { (result ≡ Err TreeRunFault.Words) ↔ (command ≡ None) }
    ensures words_unread { command ≡ None → Keeps (S.left source.old) (S.left source.new) }
    ensures words_unfailed { command ≡ None → S.faults source.new ≡ S.faults source.old }
    ensures read_fault { result ≡ Err TreeRunFault.ReadFault → Rose (S.faults source.old) (S.faults source.new) }
    ensures write_fault { IfErr result (λ fault. AtWriteFault fault (λ taken. Rose (K.faults sink.old) (K.faults sink.new))) }
    ensures unwritten { IfErr result (λ fault. is_write_fault fault ≡ false → Keeps (K.taken sink.old) (K.taken sink.new)) }
    ensures prefix { LosesWithin (S.left source.old) (S.left source.new) (input_limit + 1) }
    ensures units { pass.new.units ≡ pass.old.units }
{
    one_answer();
    match command {
        Some(command) => run_command(alloc, command, source, sink, pass),
        None => Err(TreeRunFault::Words),
    }
}
