//! How deep a tree is, and how many units it holds.
ghost use Rattle.std.specs.Prelude.{◌≡◌, ◌-◌, ◌^◌, ◌≤◌, min};
ghost use Rattle.tree_model.specs.promise.TreeData.{trees};
ghost use Rattle.tree_model.specs.Tree.{Depth, depth_of_all};
ghost use Rattle.raw_place.specs.Kept.{values_of};
ghost use Rattle.tree_model.specs.promise.TreeCost.{Nodes};
ghost use Rattle.raw_schema.specs.Members.{nodes_of_all};

use crate::schema::{RawSchema, State};
use raw_place::Kids;

impl RawSchema {
    /// The number of levels: 0 for a released structure, else one more than the deepest child or dictionary has.
    #[cycle(depth)]
    #[tactic(auto, using(tree_model::proofs::Measures::measures))]
    pub fn depth(&self) -> u32
        ensures exact { result ≡ Depth self.now }
        ensures bounded { Depth self.now ≤ 128 }
    {
        match &self.state {
            State::Released => 0,
            State::Live(node) => {
                let below = match &node.dictionary {
                    None => 0,
                    Some(tree) => tree.get().depth(),
                };
                1 + deepest(&node.children).max(below)
            }
        }
    }

    /// The units that the release gives back: the number of live nodes, or `u64::MAX` where there are more.
    #[cycle(cost)]
    #[tactic(auto, using(tree_model::proofs::Measures::measures))]
    pub fn cost(&self) -> u64
        ensures { result ≡ min (Nodes self.now) (2 ^ 64 - 1) }
    {
        match &self.state {
            State::Released => 0,
            State::Live(node) => {
                let below = match &node.dictionary {
                    None => 0,
                    Some(tree) => tree.get().cost(),
                };
                cost_of_all(&node.children)
                    .saturating_add(below)
                    .saturating_add(1)
            }
        }
    }
}

#[cycle(depth)]
#[tactic(auto, using(tree_model::proofs::Measures::measures))]
fn deepest(children: &Kids<RawSchema>) -> u32
    ensures exact { result ≡ depth_of_all (trees (values_of children.now)) }
    ensures bounded { depth_of_all (trees (values_of children.now)) ≤ 128 }
{
    let mut depth = 0;
    for i in 0..children.len() {
        depth = depth.max(children.get(i).depth());
    }
    depth
}

#[cycle(cost)]
#[tactic(auto, using(tree_model::proofs::Measures::measures))]
fn cost_of_all(children: &Kids<RawSchema>) -> u64
    ensures { result ≡ min (nodes_of_all (trees (values_of children.now))) (2 ^ 64 - 1) }
{
    let mut cost = 0u64;
    for i in 0..children.len() {
        cost = cost.saturating_add(children.get(i).cost());
    }
    cost
}
