//! A fault of a run as a value, and an input that is too long to be held.
use crate::runs::run_from;
use edge_io::{CountSource, MemSource, OpenGate};
use pipe_top::{RunFault, TreeFault};
use std::test::Fail;

#[test]
fn an_input_past_the_limit_is_too_long(rt: HostRuntime) -> Result<(), Fail> {
    let mut source = CountSource::new(1_073_741_825);
    let ran = run_from(&rt, rt.alloc(), "--null NA", &mut source, &OpenGate)?;
    let came = (
        ran.outcome.fault,
        ran.outcome.status,
        ran.sink.taken().len(),
    );
    assert_eq!(rt; came, (Some(RunFault::InputTooLong), 5, 0));
    Ok(())
}

#[test]
fn a_fault_of_a_tree_has_its_path_and_numbers(rt: HostRuntime) -> Result<(), Fail> {
    let alloc = rt.alloc();
    let tree =
        b"tree 1\nS =i ~ 0 0 1 ~\nS =u ~ 0 0 0 ~\nA 0 0 0 2 0 1\nB ~\nB ~\nA -1 0 0 3 0 0\nB ~\nB ~\nB ~\n";
    let mut source = MemSource::new(tree.to_vec(alloc)?, 4096, Vec::new(alloc));
    let ran = run_from(&rt, alloc, "--check", &mut source, &OpenGate)?;
    let Some(RunFault::Tree(TreeFault::Layout(fault))) = ran.outcome.fault else {
        return Err(Fail::from("no fault of an array"));
    };
    assert_eq!(rt; fault.path.way(), [u32::MAX].as_slice());
    assert_eq!(rt; (fault.place, fault.left, fault.right), (0, -1, 0));
    Ok(())
}
