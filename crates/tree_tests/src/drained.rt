//! Three chunks of a producer, shown one after another; the offsets of one may fall.
ghost use Rattle.std.specs.Prelude.{◌≡◌, ◌≢◌, ◌+◌, [], ◌∷◌, None};
ghost use Rattle.foreign_array.specs.Kept.{units_in};

use crate::owned::{Kept, owner, trees};
use data_types::Typed;
use foreign_array::{DrainFault, Foreign, Visit, drain};
use layout_check::count_rows;
use layout_rules::LayoutRule;
use raw_array::RawArray;
use schema_check::check_schema;
use std::alloc::Global;
use std::process::Abort;
use unit_pass::{NoMemory, Pass, ROOM, open_desk};

/// Counts the chunks that it is shown, and their rows.
#[derive(Drop)]
struct Counted {
    chunks: u64,
    rows: i64,
    room: u64,
}

impl Visit for Counted {
    ghost seen = { λ _. None };

    fn chunk(&mut self, typed: &Typed, array: &RawArray) -> Result<(), NoMemory> {
        if self.chunks >= self.room {
            return Err(NoMemory);
        }
        self.chunks += 1;
        self.rows = count_rows(typed, array);
        Ok(())
    }
}

static LAWFUL: &str =
    "tree 1\nS =+s ~ 0 1 0 ~\nS =u =t 2 0 0 ~\nA 2 0 0 1 1 0\nB ~\nA 2 0 0 3 0 0\nB ~\nB =000000000100000002000000\nB =6162\n";

static FALLING: &str =
    "tree 1\nS =+s ~ 0 1 0 ~\nS =u =t 2 0 0 ~\nA 2 0 0 1 1 0\nB ~\nA 2 0 0 3 0 0\nB ~\nB =000000000300000002000000\nB =616263\n";

fn three(
    rt: &impl Abort,
    alloc: Global,
    first: Foreign<Kept>,
    second: Foreign<Kept>,
    third: Foreign<Kept>,
) -> Vec<Foreign<Kept>>
    ensures { result.items ≡ first ∷ second ∷ third ∷ [] }
{
    let mut chunks = Vec::new(alloc);
    chunks.push(first).expect(rt, "memory");
    chunks.push(second).expect(rt, "memory");
    chunks.push(third).expect(rt, "memory");
    chunks
}

/// The array of a text with an owner that owes 1.
fn owned(rt: &impl Abort, alloc: Global, text: &str, pass: &mut Pass) -> Foreign<Kept>
    ensures live { result ≢ None }
    ensures units { pass.new.units + units_in (λ _. 1) result ≡ pass.old.units }
{
    assert!(rt; pass.units() >= ROOM);
    let (schema, array) = trees(rt, alloc, text, pass);
    schema.end(pass);
    assert!(rt; pass.units() >= 1);
    let owner = owner(rt, alloc, pass);
    Foreign::new(array, owner)
}

/// Drains the trees of three texts, each with an owner that owes 1, by a visitor that has room for this many chunks. No unit is
/// out behind it, or the desk couldn't be closed.
fn outcome(
    rt: &impl Abort,
    alloc: Global,
    texts: [&str; 3],
    room: u64,
) -> (Result<(), DrainFault>, u64, i64) {
    let (desk, mut pass) = open_desk();
    let (schema, array) = trees(rt, alloc, texts[0], &mut pass);
    let Ok(typed) = check_schema(alloc, &schema) else {
        panic!(rt; "a schema");
    };
    schema.end(&mut pass);
    array.end(&mut pass);
    let first = owned(rt, alloc, texts[0], &mut pass);
    let second = owned(rt, alloc, texts[1], &mut pass);
    let third = owned(rt, alloc, texts[2], &mut pass);
    let chunks = three(rt, alloc, first, second, third);
    let mut visit = Counted {
        chunks: 0,
        rows: 0,
        room,
    };
    let drained = drain(&typed, chunks, &mut visit, &mut pass);
    let _audit = desk.close(pass);
    (drained, visit.chunks, visit.rows)
}

/// What is answered of the chunk at fault: its number, and its fault with the two numbers; and how many chunks were shown.
fn fault_of(
    rt: &impl Abort,
    found: (Result<(), DrainFault>, u64, i64),
) -> (u64, LayoutRule, u64, i128, i128, u64) {
    match found {
        (Err(DrainFault::Layout { chunk, fault }), chunks, _rows) => (
            chunk,
            fault.rule,
            fault.place,
            fault.left,
            fault.right,
            chunks,
        ),
        other => panic!(rt; "{other:?}"),
    }
}

#[test]
fn lawful_chunks_are_all_shown(rt: HostRuntime) {
    let found = outcome(&rt, rt.alloc(), [LAWFUL, LAWFUL, LAWFUL], 3);
    assert_eq!(rt; found, (Ok(()), 3, 2));
}

#[test]
fn the_first_chunk_at_fault_is_named(rt: HostRuntime) {
    let alloc = rt.alloc();
    let found = (
        fault_of(&rt, outcome(&rt, alloc, [FALLING, LAWFUL, FALLING], 3)),
        fault_of(&rt, outcome(&rt, alloc, [LAWFUL, FALLING, LAWFUL], 3)),
        fault_of(&rt, outcome(&rt, alloc, [LAWFUL, LAWFUL, FALLING], 3)),
    );
    let falls = |chunk| (chunk, LayoutRule::OffsetsFall, 1, 3, 2, chunk);
    assert_eq!(rt; found, (falls(0), falls(1), falls(2)));
}

#[test]
fn a_visitor_may_run_out_of_memory(rt: HostRuntime) {
    let alloc = rt.alloc();
    let first = outcome(&rt, alloc, [LAWFUL, LAWFUL, LAWFUL], 0);
    let second = outcome(&rt, alloc, [LAWFUL, LAWFUL, FALLING], 1);
    let third = outcome(&rt, alloc, [LAWFUL, LAWFUL, LAWFUL], 2);
    let none = Err(DrainFault::NoMemory);
    assert_eq!(rt;
        (first, second, third),
        ((none, 0, 0), (none, 1, 2), (none, 2, 2))
    );
}
