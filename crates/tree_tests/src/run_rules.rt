//! Arrays of runs against their rules: one at which none fails, and one for each rule.
use crate::made::trees;
use run_ends::{RunsFault, RunsRule, check_runs, read_runs};
use std::alloc::Global;
use std::process::Abort;
use unit_pass::open_desk;

/// Texts behind ends of 64 bits.
static SCHEMA: &str = "S =+r ~ 0 2 0 ~\nS =l =run_ends 0 0 0 ~\nS =u =values 2 0 0 ~\n";

/// The ends 2 and 4, and the texts `a` and `b`.
static ENDS: &str = "A 2 0 0 2 0 0\nB ~\nB =02000000000000000400000000000000\n";

static TEXTS: &str = "A 2 0 0 3 0 0\nB ~\nB =000000000100000002000000\nB =6162\n";

/// What the check of a root over its children finds.
fn checked(
    rt: &impl Abort,
    alloc: Global,
    root: &str,
    ends: &str,
    values: &str,
) -> Result<(), RunsFault> {
    let Ok(lines) = format!(in alloc; "{root}{ends}{values}") else {
        panic!(rt; "memory");
    };
    let (desk, mut pass) = open_desk();
    let (schema, array) = trees(rt, alloc, SCHEMA, &lines, &mut pass);
    let Ok(typed) = read_runs(alloc, &schema) else {
        panic!(rt; "a schema of runs");
    };
    let found = check_runs(&typed, &array);
    schema.end(&mut pass);
    array.end(&mut pass);
    let _audit = desk.close(pass);
    found
}

fn fault(rule: RunsRule, place: u64, left: i128, right: i128) -> Result<(), RunsFault> {
    Err(RunsFault {
        rule,
        place,
        left,
        right,
    })
}

#[test]
fn no_rule_fails(rt: HostRuntime) {
    let alloc = rt.alloc();
    let found = checked(&rt, alloc, "A 3 0 1 0 2 0\n", ENDS, TEXTS);
    assert_eq!(rt; found, Ok(()));
    let unknown = checked(&rt, alloc, "A 4 -1 0 0 2 0\n", ENDS, TEXTS);
    assert_eq!(rt; unknown, Ok(()));
}

#[test]
fn rules_of_the_roots_own_numbers(rt: HostRuntime) {
    let alloc = rt.alloc();
    for (root, ends, values, want) in [
        ("A !\n", "", "", fault(RunsRule::Released, 0, 0, 0)),
        (
            "A -1 0 0 0 2 0\n",
            ENDS,
            TEXTS,
            fault(RunsRule::NegativeLength, 0, -1, 0),
        ),
        (
            "A 3 0 -1 0 2 0\n",
            ENDS,
            TEXTS,
            fault(RunsRule::NegativeOffset, 0, -1, 0),
        ),
        (
            "A 3 0 1 0 1 0\n",
            ENDS,
            "",
            fault(RunsRule::ChildCount, 0, 1, 2),
        ),
        (
            "A 3 2 1 0 2 0\n",
            ENDS,
            TEXTS,
            fault(RunsRule::NullCount, 0, 2, 0),
        ),
        (
            "A 3 0 1 1 2 0\nB ~\n",
            ENDS,
            TEXTS,
            fault(RunsRule::BufferCount, 0, 1, 0),
        ),
    ] {
        let found = checked(&rt, alloc, root, ends, values);
        assert_eq!(rt; found, want, "{root}");
    }
}

#[test]
fn rules_of_the_ends(rt: HostRuntime) {
    let alloc = rt.alloc();
    for (root, ends, values, want) in [
        (
            "A 3 0 1 0 2 0\n",
            "A 2 1 0 2 0 0\nB =01\nB =02000000000000000400000000000000\n",
            TEXTS,
            fault(RunsRule::EndsNull, 1, 0, 0),
        ),
        (
            "A 3 0 1 0 2 0\n",
            "A 2 0 0 2 0 0\nB ~\nB =02000000000000000200000000000000\n",
            TEXTS,
            fault(RunsRule::EndsFall, 1, 2, 2),
        ),
        (
            "A 3 0 1 0 2 0\n",
            "A 2 0 0 2 0 0\nB ~\nB =ffffffffffffffff0400000000000000\n",
            TEXTS,
            fault(RunsRule::EndsFall, 0, 0, -1),
        ),
        (
            "A 3 0 1 0 2 0\n",
            ENDS,
            "A 1 0 0 3 0 0\nB ~\nB =0000000001000000\nB =61\n",
            fault(RunsRule::ValuesShort, 0, 1, 2),
        ),
        (
            "A 4 0 1 0 2 0\n",
            ENDS,
            TEXTS,
            fault(RunsRule::EndsShort, 0, 4, 5),
        ),
        (
            "A 1 0 1099511627776 0 2 0\n",
            "A 1 0 0 2 0 0\nB ~\nB =ffffffffffffff7f\n",
            TEXTS,
            fault(
                RunsRule::WindowTooLong,
                0,
                1_099_511_627_777,
                1_099_511_627_776,
            ),
        ),
    ] {
        let found = checked(&rt, alloc, root, ends, values);
        assert_eq!(rt; found, want, "{ends}");
    }
}

#[test]
fn a_childs_fault_names_the_child(rt: HostRuntime) {
    let falling = "A 2 0 0 3 0 0\nB ~\nB =000000000200000001000000\nB =6162\n";
    match checked(&rt, rt.alloc(), "A 3 0 1 0 2 0\n", ENDS, falling) {
        Err(
            RunsFault {
                rule: RunsRule::Child(inner),
                place,
                left,
                right,
            },
        ) => {
            assert_eq!(rt; (place, left, right), (1, 0, 0));
            assert_eq!(rt; (inner.place, inner.left, inner.right), (1, 2, 1));
        }
        other => panic!(rt; "{other:?}"),
    }
}
