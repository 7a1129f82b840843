//! Making a live structure of its parts.
ghost use Rattle.std.specs.Prelude.{◌≡◌, ◌+◌, ◌-◌, ◌^◌, ◌<◌, ◌≤◌, length, if◌then◌else◌, is_ok, IfOk, IfErr};
ghost use Rattle.tree_model.specs.Tree.{Depth};
ghost use Rattle.raw_place.specs.Kept.{value_of, value_if, values_of};
ghost use Rattle.raw_array.specs.Parts.{tree_of_parts};
ghost use Rattle.unit_pass.specs.promise.Tally.{risen};

use crate::array::{ArrayParts, Node, RawArray, State};
use crate::private_data::{Private, placed_private, taken_private};
use buf_block::BufView;
use raw_place::{Kids, Place, put_if, take_if};
use std::alloc::Global;
use unit_pass::{NoMemory, Pass};

/// The buffers, the children and the dictionary of a node that isn't made yet.
type Owned = (Vec<Option<BufView>>, Vec<RawArray>, Option<RawArray>);

/// The same parts in places of their own; the buffers are beside the node's unit.
struct Placed {
    children: Kids<RawArray>,
    dictionary: Option<Place<RawArray>>,
    private: Place<Private>,
}

impl RawArray {
    /// A live structure with these members, which it owns from now on, the holds of its buffers among them. It draws one
    /// unit and counts one node. Where memory runs out the parts come back, and nothing is drawn or counted.
    #[tactic(auto, using(tree_model::proofs::Lists::tree_lists, crate::proofs::Buffers::buffer_lists))]
    #[inline(always)]
    pub fn build(
        alloc: Global,
        parts: ArrayParts,
        pass: &mut Pass,
    ) -> Result<RawArray, (ArrayParts, NoMemory)>
        requires units { 1 ≤ pass.old.units }
        requires few_buffers { length parts.buffers.items < 2 ^ 32 - 1 }
        requires few_children { length parts.children.items < 2 ^ 32 - 1 }
        requires not_deep { Depth (tree_of_parts parts) ≤ 128 }
        ensures tree { IfOk result (λ t. t ≡ tree_of_parts parts) }
        ensures handed_back { IfErr result (λ e. tree_of_parts e.0 ≡ tree_of_parts parts) }
        ensures buffers_back { IfErr result (λ e. e.0.buffers.items ≡ parts.buffers.items) }
        ensures children_back { IfErr result (λ e. e.0.children.items ≡ parts.children.items) }
        ensures dictionary_back { IfErr result (λ e. e.0.dictionary ≡ parts.dictionary) }
        ensures units { pass.new.units + (if is_ok result then 1 else 0) ≡ pass.old.units }
        ensures nodes { pass.new.nodes ≡ (if is_ok result then risen pass.old.nodes 1 else pass.old.nodes) }
        ensures blocks { pass.new.blocks ≡ pass.old.blocks }
    {
        let ArrayParts {
            length,
            null_count,
            offset,
            buffers,
            children,
            dictionary,
            kind,
        } = parts;
        match placed_parts(alloc, (buffers, children, dictionary), pass) {
            Ok(
                Placed {
                    children,
                    dictionary,
                    private,
                },
            ) => {
                pass.count_node();
                let node = Node {
                    length,
                    null_count,
                    offset,
                    kind,
                    children,
                    dictionary,
                    private,
                };
                Ok(RawArray {
                    state: State::Live(node),
                })
            }
            Err((buffers, children, dictionary)) => {
                let parts = ArrayParts {
                    length,
                    null_count,
                    offset,
                    buffers,
                    children,
                    dictionary,
                    kind,
                };
                Err((parts, NoMemory))
            }
        }
    }
}

/// Places the buffers with the node's unit, the children and the dictionary. Where memory runs out all come back, and no
/// unit is drawn.
#[inline(always)]
fn placed_parts(alloc: Global, owned: Owned, pass: &mut Pass) -> Result<Placed, Owned>
    requires { 1 ≤ pass.old.units }
    ensures buffers { IfOk result (λ placed. (value_of placed.private).buffers.items ≡ owned.0.items) }
    ensures children { IfOk result (λ placed. values_of placed.children ≡ owned.1.items) }
    ensures dictionary { IfOk result (λ placed. value_if placed.dictionary ≡ owned.2) }
    ensures buffers_back { IfErr result (λ back. back.0.items ≡ owned.0.items) }
    ensures children_back { IfErr result (λ back. back.1.items ≡ owned.1.items) }
    ensures dictionary_back { IfErr result (λ back. back.2 ≡ owned.2) }
    ensures units { pass.new.units + (if is_ok result then 1 else 0) ≡ pass.old.units }
    ensures nodes { pass.new.nodes ≡ pass.old.nodes }
    ensures blocks { pass.new.blocks ≡ pass.old.blocks }
{
    let (buffers, children, dictionary) = owned;
    let dictionary = match put_if(alloc, dictionary) {
        Ok(dictionary) => dictionary,
        Err((dictionary, NoMemory)) => return Err((buffers, children, dictionary)),
    };
    let private = match placed_private(alloc, buffers, pass) {
        Ok(private) => private,
        Err((buffers, NoMemory)) => return Err((buffers, children, take_if(dictionary))),
    };
    match Kids::from_vec(alloc, children) {
        Ok(children) => Ok(Placed {
            children,
            dictionary,
            private,
        }),
        Err((children, NoMemory)) => {
            let buffers = taken_private(private, pass);
            Err((buffers, children, take_if(dictionary)))
        }
    }
}
