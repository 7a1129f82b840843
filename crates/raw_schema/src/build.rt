//! Making a live structure of its parts.
ghost use Rattle.std.specs.Prelude.{◌≡◌, ◌+◌, ◌-◌, ◌^◌, ◌<◌, ◌≤◌, length, if◌then◌else◌, is_ok, IfOk, IfErr};
ghost use Rattle.tree_model.specs.Tree.{Depth};
ghost use Rattle.raw_place.specs.Kept.{value_if, values_of};
ghost use Rattle.raw_schema.specs.Parts.{tree_of_parts};
ghost use Rattle.raw_schema.specs.View.{bytes_of};
ghost use Rattle.unit_pass.specs.promise.Tally.{risen};

use crate::private_data::{Private, give_back_placed, placed_unit};
use crate::schema::{Node, RawSchema, SchemaParts, State};
use raw_place::{Kids, Place, put_if, take_if};
use std::alloc::Global;
use unit_pass::{Name, NoMemory, Pass};

/// The parts of a node in places of their own.
struct Placed {
    children: Kids<RawSchema>,
    dictionary: Option<Place<RawSchema>>,
    private: Place<Private>,
}

impl RawSchema {
    /// A live structure with these members, which it owns from now on. It draws one unit and counts one node. Where memory runs
    /// out the parts come back, and nothing is drawn or counted.
    #[tactic(auto, using(tree_model::proofs::Lists::tree_lists))]
    pub fn build(
        alloc: Global,
        parts: SchemaParts,
        pass: &mut Pass,
    ) -> Result<RawSchema, (SchemaParts, NoMemory)>
        requires units { 1 ≤ pass.old.units }
        requires few_children { length parts.children.items < 2 ^ 32 - 1 }
        requires not_deep { Depth (tree_of_parts parts) ≤ 128 }
        ensures tree { IfOk result (λ t. t ≡ tree_of_parts parts) }
        ensures handed_back { IfErr result (λ e. tree_of_parts e.0 ≡ tree_of_parts parts) }
        ensures children_back { IfErr result (λ e. e.0.children.items ≡ parts.children.items) }
        ensures dictionary_back { IfErr result (λ e. e.0.dictionary ≡ parts.dictionary) }
        ensures units { pass.new.units + (if is_ok result then 1 else 0) ≡ pass.old.units }
        ensures nodes { pass.new.nodes ≡ (if is_ok result then risen pass.old.nodes 1 else pass.old.nodes) }
        ensures blocks { pass.new.blocks ≡ pass.old.blocks }
    {
        let SchemaParts {
            format,
            name,
            metadata,
            flags,
            children,
            dictionary,
        } = parts;
        match placed_parts(alloc, children, dictionary, pass) {
            Ok(
                Placed {
                    children,
                    dictionary,
                    private,
                },
            ) => {
                pass.count_node();
                let node = Node {
                    format,
                    name: named(name),
                    metadata,
                    flags,
                    children,
                    dictionary,
                    private,
                };
                Ok(RawSchema {
                    state: State::Live(node),
                })
            }
            Err((children, dictionary)) => {
                let parts = SchemaParts {
                    format,
                    name,
                    metadata,
                    flags,
                    children,
                    dictionary,
                };
                Err((parts, NoMemory))
            }
        }
    }
}

/// A name of these bytes, or none.
pub(crate) fn named(bytes: Option<Vec<u8>>) -> Option<Name>
    ensures { result ≡ bytes_of bytes }
{
    match bytes {
        None => None,
        Some(bytes) => Some(Name::from_vec(bytes)),
    }
}

/// Places the children, the dictionary and the node's unit. Where memory runs out both come back, and no unit is drawn.
fn placed_parts(
    alloc: Global,
    children: Vec<RawSchema>,
    dictionary: Option<RawSchema>,
    pass: &mut Pass,
) -> Result<Placed, (Vec<RawSchema>, Option<RawSchema>)>
    requires { 1 ≤ pass.old.units }
    ensures children { IfOk result (λ placed. values_of placed.children ≡ children.items) }
    ensures dictionary { IfOk result (λ placed. value_if placed.dictionary ≡ dictionary) }
    ensures children_back { IfErr result (λ back. back.0.items ≡ children.items) }
    ensures dictionary_back { IfErr result (λ back. back.1 ≡ dictionary) }
    ensures units { pass.new.units + (if is_ok result then 1 else 0) ≡ pass.old.units }
    ensures nodes { pass.new.nodes ≡ pass.old.nodes }
    ensures blocks { pass.new.blocks ≡ pass.old.blocks }
{
    let dictionary = match put_if(alloc, dictionary) {
        Ok(dictionary) => dictionary,
        Err((dictionary, NoMemory)) => return Err((children, dictionary)),
    };
    let private = match placed_unit(alloc, pass) {
        Ok(private) => private,
        Err(NoMemory) => return Err((children, take_if(dictionary))),
    };
    match Kids::from_vec(alloc, children) {
        Ok(children) => Ok(Placed {
            children,
            dictionary,
            private,
        }),
        Err((children, NoMemory)) => {
            give_back_placed(private, pass);
            Err((children, take_if(dictionary)))
        }
    }
}
