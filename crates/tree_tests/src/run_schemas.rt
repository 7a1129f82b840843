//! Schemas of runs, and the first fault of others.
use crate::made::trees;
use run_ends::{RunsSchemaFault, read_runs};
use schema_meta::MetaFault;
use std::alloc::Global;
use std::process::Abort;
use unit_pass::open_desk;

/// Why a schema of these lines is none of runs, and none where it is one.
fn refused(rt: &impl Abort, alloc: Global, schema: &str) -> Option<RunsSchemaFault> {
    let (desk, mut pass) = open_desk();
    let (schema, array) = trees(rt, alloc, schema, "A !\n", &mut pass);
    let found = read_runs(alloc, &schema).err();
    schema.end(&mut pass);
    array.end(&mut pass);
    let _audit = desk.close(pass);
    found
}

#[test]
fn ends_of_three_widths_are_taken(rt: HostRuntime) {
    for schema in [
        "S =+r ~ 0 2 0 ~\nS =s ~ 0 0 0 ~\nS =u ~ 0 0 0 ~\n",
        "S =+r =x 2 2 0 ~\nS =i =run_ends 0 0 0 ~\nS =+s =values 2 0 0 ~\n",
        "S =+r ~ 0 2 0 =%00%00%00%00\nS =l ~ 0 0 0 ~\nS =n ~ 0 0 0 ~\n",
    ] {
        assert_eq!(rt; refused(&rt, rt.alloc(), schema), None, "{schema}");
    }
}

#[test]
fn faults_of_schemas(rt: HostRuntime) {
    for (schema, want) in [
        ("S !\n", RunsSchemaFault::Released),
        (
            "S =+s ~ 0 2 0 ~\nS =i ~ 0 0 0 ~\nS =u ~ 0 0 0 ~\n",
            RunsSchemaFault::Format,
        ),
        (
            "S =+r ~ 0 2 0 =\nS =i ~ 0 0 0 ~\nS =u ~ 0 0 0 ~\n",
            RunsSchemaFault::Meta(MetaFault::Short(0)),
        ),
        (
            "S =+r ~ 0 1 1 ~\nS =i ~ 0 0 0 ~\nS =u ~ 0 0 0 ~\n",
            RunsSchemaFault::Dictionary,
        ),
        (
            "S =+r ~ 0 1 0 ~\nS =i ~ 0 0 0 ~\n",
            RunsSchemaFault::ChildCount { found: 1 },
        ),
        (
            "S =+r ~ 0 2 0 ~\nS =I ~ 0 0 0 ~\nS =u ~ 0 0 0 ~\n",
            RunsSchemaFault::EndsType,
        ),
        (
            "S =+r ~ 0 2 0 ~\nS =i ~ 0 0 1 ~\nS =u ~ 0 0 0 ~\nS =u ~ 0 0 0 ~\n",
            RunsSchemaFault::EndsType,
        ),
    ] {
        assert_eq!(rt; refused(&rt, rt.alloc(), schema), Some(want), "{schema}");
    }
}

#[test]
fn a_childs_fault_comes_before_the_kind_of_the_ends(rt: HostRuntime) {
    let schema = "S =+r ~ 0 2 0 ~\nS =I ~ 0 0 0 ~\nS =+r ~ 0 0 0 ~\n";
    match refused(&rt, rt.alloc(), schema) {
        Some(RunsSchemaFault::Child { child, .. }) => assert_eq!(rt; child, 1),
        other => panic!(rt; "{other:?}"),
    }
}
