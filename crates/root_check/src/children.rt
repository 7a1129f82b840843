//! The first child at fault.
ghost use Rattle.std.specs.Prelude.{◌≡◌, ◌↔◌, IsOk, All, length, map};
ghost use Rattle.std.specs.List.{AllZip};
ghost use Rattle.tree_model.specs.promise.TreeParts.{IsLive, children_of};
ghost use Rattle.raw_array.specs.promise.Members.{ArrayTree};
ghost use Rattle.data_types.specs.KindTrees.{TypedOk};
ghost use Rattle.data_types.specs.promise.TypedView.{typed_of};
ghost use Rattle.layout_rules.specs.promise.Walk.{LayoutOk};
ghost use Rattle.root_check.specs.promise.Children.{children_fault};
ghost use Rattle.root_check.specs.Founds.{found_child};

use data_types::Typed;
use layout_check::{LayoutFault, check_array};
use raw_array::RawArray;

/// A child's number, counted from 0, and its first fault. The way to the node at fault begins at the child.
#[derive(Clone, Copy, Debug, PartialEq, Eq)]
pub struct FaultyChild {
    /// The child's number, counted from 0.
    pub child: u64,
    /// Its first fault.
    pub fault: LayoutFault,
}

/// Checks each child against its kinds ("Arrow Columnar Format", "Physical memory layout"): the fault is that of the first
/// child, by number, at which `layout_check::check_array` finds one. Takes no memory.
pub fn check_children(kids: &[Typed], array: &RawArray) -> Result<(), FaultyChild>
    requires live { IsLive array.now }
    requires children { length (children_of array.now) ≡ length kids.now }
    requires types { All TypedOk (map typed_of kids.now) }
    ensures fault { found_child result ≡ children_fault (map typed_of kids.now) 0 (children_of array.now) }
    ensures lawful { IsOk result ↔ AllZip LayoutOk (map typed_of kids.now) (children_of array.now) }
{
    for i in 0..kids.len() {
        if let Err(fault) = check_array(&kids[i], array.child(i)) {
            return Err(FaultyChild {
                child: i as u64,
                fault,
            });
        }
    }
    Ok(())
}
