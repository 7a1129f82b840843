//! The report of a lawful array, node by node.
ghost use Rattle.std.specs.Prelude.{◌≡◌, ◌+◌, ◌<◌, ◌≤◌, ◌++◌, [], ℕ, map, length, get_or, Some, None, Option, IfOk};
ghost use Rattle.std.specs.Global.{Box};
ghost use Rattle.data_types.specs.Kinds.{KindOk};
ghost use Rattle.tree_model.specs.promise.TreeData.{Released, trees, maybe_tree};
ghost use Rattle.tree_model.specs.promise.TreeParts.{IsLive, child_at, children_of, dictionary_of};
ghost use Rattle.tree_model.specs.Tree.{Depth, depth_of_all, depth_of_maybe};
ghost use Rattle.raw_array.specs.promise.Members.{ArrayTree};
ghost use Rattle.data_types.specs.declared.typed.Typed.{out-Typed};
ghost use Rattle.data_types.specs.promise.KindTrees.{KindTree, most_levels};
ghost use Rattle.data_types.specs.KindTrees.{NodesOk, AllNodesOk, DictNodesOk, TypedOk};
ghost use Rattle.data_types.specs.promise.TypedView.{typed_of};
ghost use Rattle.data_types.specs.TypedView.{dict_in};
ghost use Rattle.layout_check.specs.NodeView.{live_node};
ghost use Rattle.data_types.specs.promise.Ways.{steps_of};
ghost use Rattle.layout_rules.specs.promise.Walk.{LayoutOk, visits};
ghost use Rattle.tree_text.specs.promise.Report.{ReportOf};
ghost use Rattle.tree_text.specs.Report.{node_line, visits_text};
ghost use Rattle.tree_text.specs.Below.{children_visits, dictionary_visits};

use crate::report_text::push_line;
use data_types::{DICTIONARY_STEP, Path, Typed};
use fmt_string::write_format;
use layout_check::nulls_of;
use layout_rules::{lawful_parts, lawful_root};
use raw_array::RawArray;
use std::alloc::Global;
use unit_pass::NoMemory;

/// The report of a lawful array: `ok`, and then for each node in preorder (a node, its children by number, its dictionary) a
/// line with the way to it, its canonical format as a token, its length and the number of the null items in its window. Each
/// line ends with a line feed. `NoMemory` comes only where memory runs out.
pub fn report(alloc: Global, typed: &Typed, array: &RawArray) -> Result<Vec<u8>, NoMemory>
    requires types { TypedOk (typed_of typed.now) }
    requires lawful { LayoutOk (typed_of typed.now) array.now }
    ensures { IfOk result (λ text. text.items ≡ ReportOf (typed_of typed.now) array.now) }
{
    let mut text = Vec::from_slice(alloc, b"ok\n")?;
    push_tree(alloc, &mut text, typed, array, &Path::root())?;
    Ok(text)
}

/// Appends the line of a node.
#[tactic(auto, using(crate::proofs::Reports::node_steps))]
fn push_node(
    alloc: Global,
    text: &mut Vec<u8>,
    typed: &Typed,
    array: &RawArray,
    path: &Path,
) -> Result<(), NoMemory>
    requires lawful { LayoutOk (typed_of typed.now) array.now }
    requires kind { KindOk (out-Typed typed.now).kind }
    ensures { IfOk result (λ _. text.new.items ≡ text.old.items ++ node_line (steps_of path.now) (live_node typed.now array.now)) }
{
    lawful_root(typed, array);
    let format = write_format(alloc, &typed.kind)?;
    let nulls = nulls_of(typed, array);
    push_line(alloc, text, path, format.as_slice(), array.length(), nulls)
}

/// Appends the lines of a node and of all below it.
#[cycle(report)]
#[tactic(auto, using(crate::proofs::Reports::tree_steps))]
fn push_tree(
    alloc: Global,
    text: &mut Vec<u8>,
    typed: &Typed,
    array: &RawArray,
    path: &Path,
) -> Result<(), NoMemory>
    requires lawful { LayoutOk (typed_of typed.now) array.now }
    requires levels { path.now.depth + Depth (typed_of typed.now) ≤ most_levels }
    requires types { NodesOk (typed_of typed.now) }
    ensures { IfOk result (λ _. text.new.items ≡ text.old.items ++ visits_text (visits (typed_of typed.now) (steps_of path.now) array.now)) }
{
    lawful_root(typed, array);
    lawful_parts(typed, array);
    push_node(alloc, text, typed, array, path)?;
    push_children(alloc, text, &typed.kids, array, path)?;
    push_dictionary(alloc, text, &typed.dict, array, path)
}

/// Appends the lines of a node's children and of all below them.
#[cycle(report)]
fn push_children(
    alloc: Global,
    text: &mut Vec<u8>,
    kids: &[Typed],
    array: &RawArray,
    path: &Path,
) -> Result<(), NoMemory>
    requires lawful { (k : ℕ) → k < length (map typed_of kids.now) → LayoutOk (get_or (map typed_of kids.now) k Released) (child_at array.now k) }
    requires levels { path.now.depth + 1 + depth_of_all (trees (map typed_of kids.now)) ≤ most_levels }
    requires types { AllNodesOk (trees (map typed_of kids.now)) }
    requires live { IsLive array.now }
    requires children { length (children_of array.now) ≡ length kids.now }
    ensures { IfOk result (λ _. text.new.items ≡ text.old.items ++ visits_text (children_visits kids.now 0 (steps_of path.now) array.now)) }
{
    let count = array.n_children() as u32;
    for i in 0..count {
        let k = i as usize;
        push_tree(alloc, text, &kids[k], array.child(k), &path.down(i))?;
    }
    Ok(())
}

/// Appends the lines of a node's dictionary and of all below it.
#[cycle(report)]
fn push_dictionary(
    alloc: Global,
    text: &mut Vec<u8>,
    dict: &Option<Box<Typed>>,
    array: &RawArray,
    path: &Path,
) -> Result<(), NoMemory>
    requires lawful { (kinds : KindTree) (dictionary : ArrayTree) → dict_in dict.now ≡ Some kinds → dictionary_of array.now ≡ Some dictionary
        → LayoutOk kinds dictionary }
    requires levels { path.now.depth + 1 + depth_of_maybe (maybe_tree (dict_in dict.now)) ≤ most_levels }
    requires types { DictNodesOk (maybe_tree (dict_in dict.now)) }
    requires live { IsLive array.now }
    ensures { IfOk result (λ _. text.new.items ≡ text.old.items ++ visits_text (dictionary_visits dict.now (steps_of path.now) array.now)) }
{
    match (dict, array.dictionary()) {
        (Some(dict), Some(dictionary)) => {
            push_tree(alloc, text, dict, dictionary, &path.down(DICTIONARY_STEP))
        }
        _ => Ok(()),
    }
}
