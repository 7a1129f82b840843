//! A small chunk read by workers, side by side and in turn.
ghost use Rattle.std.specs.Prelude.{◌≡◌};
ghost use Rattle.data_types.specs.KindTrees.{TypedOk};
ghost use Rattle.data_types.specs.promise.TypedView.{typed_of};

use crate::streams::array_of;
use data_types::{DataType, Typed};
use edge_io::{Gate, OpenGate};
use fan_out::{Job, Workers, fan_out};
use layout_check::{check_chunk, chunk_passes};
use raw_array::RawArray;
use std::alloc::Global;
use std::process::Abort;
use std::test::Fail;
use std::thread::Threads;
use test_parts::Meet;
use unit_pass::{Desk, NoMemory, Pass, SUPPLY, open_desk};

/// Answers its window, but that memory runs out for the one that ends at a row.
#[derive(Drop)]
struct Window {
    short_at: i64,
}

impl Job for Window {
    type Out = (i64, i64);

    ghost gives = { λ _ _ _ from to out. (out.0 ≡ from) × (out.1 ≡ to) };

    ghost reads = { λ _ _ _ _ _. Unit {0} };

    ghost fits = { λ _ _ _. Unit {0} };

    fn run(
        &self,
        _typed: &Typed,
        _chunk: &RawArray,
        from: i64,
        to: i64,
    ) -> Result<(i64, i64), NoMemory> {
        if to == self.short_at {
            return Err(NoMemory);
        }
        Ok((from, to))
    }
}

/// The kinds of a table without columns.
fn no_columns(alloc: Global) -> Typed
    ensures { TypedOk (typed_of result) }
{
    Typed {
        kind: DataType::Struct,
        dict: None,
        kids: Vec::new(alloc),
    }
}

/// A table of two rows and no column, over a block of its own.
fn two_rows(rt: &impl Abort, alloc: Global, pass: &mut Pass) -> RawArray {
    array_of(rt, alloc, (2, 0), &[Some(&[3])], Vec::new(alloc), pass)
}

/// What workers answered of a chunk: the answers in order, or none where memory ran out, and the least amount that is left.
#[derive(Debug, PartialEq, Drop)]
struct Told {
    windows: Option<Vec<(i64, i64)>>,
    least: u64,
}

/// The windows of this many workers on a chunk, which is checked again afterwards, as the units are.
fn windows<R: Threads + Abort + Sync>(
    rt: &R,
    alloc: Global,
    chunk: &mut RawArray,
    workers: u32,
    pass: &mut Pass,
    job: &Window,
    gate: &(dyn Gate + Sync),
) -> Told {
    let typed = no_columns(alloc);
    assert!(rt; workers >= 1 && workers <= 64);
    assert!(rt; check_chunk(&typed, chunk).is_ok());
    assert!(rt; chunk.cost() <= 1000 && pass.units() >= 64000);
    let units = pass.units();
    let answers = fan_out(
        rt,
        alloc,
        chunk,
        &typed,
        Workers { count: workers },
        pass,
        job,
        gate,
    );
    assert!(rt; pass.units() == units);
    assert!(rt; chunk_passes(&typed, chunk));
    Told {
        windows: answers.ok(),
        least: chunk.least_amount(),
    }
}

/// Releases a tree whose cost is out of the pass.
fn end(rt: &impl Abort, tree: RawArray, pass: &mut Pass) {
    let cost = tree.cost();
    assert!(rt; cost <= 1000 && pass.units() <= SUPPLY - cost);
    tree.end(pass);
}

/// Closes the desk over one block and this many nodes.
fn close(rt: &impl Abort, desk: Desk, pass: Pass, nodes: u64) {
    assert!(rt; pass.units() == SUPPLY);
    let audit = desk.close(pass);
    assert_eq!(rt; [audit.blocks, audit.nodes], [1, nodes]);
}

/// The windows of this many workers on a table of two rows.
fn windows_on_two_rows<R: Threads + Abort + Sync>(
    rt: &R,
    alloc: Global,
    workers: u32,
    job: &Window,
    gate: &(dyn Gate + Sync),
) -> Told {
    let (desk, mut pass) = open_desk();
    let mut chunk = two_rows(rt, alloc, &mut pass);
    let told = windows(rt, alloc, &mut chunk, workers, &mut pass, job, gate);
    end(rt, chunk, &mut pass);
    close(rt, desk, pass, 1);
    told
}

#[test]
fn workers_run_side_by_side(rt: HostRuntime) -> Result<(), Fail> {
    let gate = Meet::new();
    let told = windows_on_two_rows(&rt, rt.alloc(), 4, &Window { short_at: -1 }, &gate);
    let windows = vec![in rt.alloc(); (0, 0), (0, 1), (1, 1), (1, 2)]?;
    assert_eq!(rt;
        told,
        Told {
            windows: Some(windows),
            least: 4294967293
        }
    );
    assert!(rt; gate.was_seen());
    Ok(())
}

/// Where an allocation is refused, no share is left, and of each amount at most one for each of three workers.
#[test]
fn four_workers_on_two_rows_need_no_memory_to_end(rt: HostRuntime) -> Result<(), Fail> {
    let told = windows_on_two_rows(&rt, rt.alloc(), 4, &Window { short_at: -1 }, &OpenGate);
    assert!(rt; told.least >= 4294967293 && told.least <= 4294967296);
    if told.windows.is_some() {
        let windows = vec![in rt.alloc(); (0, 0), (0, 1), (1, 1), (1, 2)]?;
        assert_eq!(rt;
            told,
            Told {
                windows: Some(windows),
                least: 4294967293
            }
        );
    }
    Ok(())
}

#[test]
fn one_worker_takes_no_share(rt: HostRuntime) -> Result<(), Fail> {
    let told = windows_on_two_rows(&rt, rt.alloc(), 1, &Window { short_at: -1 }, &OpenGate);
    let windows = vec![in rt.alloc(); (0, 2)]?;
    assert_eq!(rt;
        told,
        Told {
            windows: Some(windows),
            least: 4294967296
        }
    );
    Ok(())
}

/// A share of a chunk without columns.
fn share_of(rt: &impl Abort, alloc: Global, chunk: &mut RawArray, pass: &mut Pass) -> RawArray {
    assert!(rt; check_chunk(&no_columns(alloc), chunk).is_ok());
    assert!(rt; chunk.cost() <= 1000 && pass.units() >= 1000 && chunk.least_amount() >= 2);
    assert!(rt; !chunk.is_released());
    match chunk.share(alloc, pass) {
        Ok(share) => share,
        Err(_refused) => panic!(rt; "no memory"),
    }
}

/// Workers on a share, whose holds have the amount 1, and then on the chunk.
fn windows_on_a_share<R: Threads + Abort + Sync>(rt: &R, alloc: Global) -> [Told; 2] {
    let (desk, mut pass) = open_desk();
    let mut chunk = two_rows(rt, alloc, &mut pass);
    let mut share = share_of(rt, alloc, &mut chunk, &mut pass);
    let job = Window { short_at: -1 };
    let of_share = windows(rt, alloc, &mut share, 3, &mut pass, &job, &OpenGate);
    let of_chunk = windows(rt, alloc, &mut chunk, 3, &mut pass, &job, &OpenGate);
    end(rt, share, &mut pass);
    end(rt, chunk, &mut pass);
    close(rt, desk, pass, 1);
    [of_share, of_chunk]
}

#[test]
fn too_small_an_amount_is_left_alone(rt: HostRuntime) -> Result<(), Fail> {
    let [of_share, of_chunk] = windows_on_a_share(&rt, rt.alloc());
    let expected = [(of_share, 1), (of_chunk, 4294967293)];
    for (told, least) in expected {
        let windows = vec![in rt.alloc(); (0, 0), (0, 1), (1, 2)]?;
        assert_eq!(rt;
            told,
            Told {
                windows: Some(windows),
                least
            }
        );
    }
    Ok(())
}

#[test]
fn want_of_memory_in_one_worker_leaves_no_share(rt: HostRuntime) {
    for workers in [1u32, 2, 4, 64] {
        let told = windows_on_two_rows(
            &rt,
            rt.alloc(),
            workers,
            &Window { short_at: 2 },
            &OpenGate,
        );
        let expected = Told {
            windows: None,
            least: 4294967297 - u64::from(workers),
        };
        assert_eq!(rt; told, expected, "workers {workers}");
    }
}
