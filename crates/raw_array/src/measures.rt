//! How deep a tree is, how many units it holds, and how much of a hold may still be shared.
ghost use Rattle.std.specs.Prelude.{◌≡◌, ◌-◌, ◌^◌, ◌≤◌, min};
ghost use Rattle.tree_model.specs.promise.TreeData.{trees};
ghost use Rattle.tree_model.specs.Tree.{Depth, depth_of_all};
ghost use Rattle.raw_place.specs.Kept.{values_of};
ghost use Rattle.raw_array.specs.promise.Members.{Cost, whole};
ghost use Rattle.raw_array.specs.Members.{cost_of_all, LeastAmount, least_of_all};

use crate::array::{RawArray, State};
use crate::views::{count_holds, least_in};
use buf_block::AMOUNT;
use raw_place::Kids;

impl RawArray {
    /// The number of levels: 0 for a released structure, else one more than the deepest child or dictionary has.
    #[cycle(depth)]
    #[tactic(auto, using(tree_model::proofs::Measures::measures))]
    pub fn depth(&self) -> u32
        ensures exact { result ≡ Depth self.now }
        ensures bounded { Depth self.now ≤ 128 }
    {
        match &self.state {
            State::Released => 0,
            State::Live(node) => {
                let below = match &node.dictionary {
                    None => 0,
                    Some(tree) => tree.get().depth(),
                };
                1 + deepest(&node.children).max(below)
            }
        }
    }

    /// The units that the release gives back: the number of live nodes and of holds, or `u64::MAX` where there are more.
    #[cycle(cost)]
    #[tactic(auto, using(tree_model::proofs::Measures::measures))]
    pub fn cost(&self) -> u64
        ensures { result ≡ min (Cost self.now) (2 ^ 64 - 1) }
    {
        match &self.state {
            State::Released => 0,
            State::Live(node) => {
                let below = match &node.dictionary {
                    None => 0,
                    Some(tree) => tree.get().cost(),
                };
                let holds = count_holds(&node.private.get().buffers);
                costs(&node.children)
                    .saturating_add(below)
                    .saturating_add(holds)
                    .saturating_add(1)
            }
        }
    }

    /// The least amount of the holds, or `AMOUNT` where there are none. A share takes 1 from each, and wants 2 or more.
    #[cycle(least)]
    #[tactic(auto, using(tree_model::proofs::Measures::leasts))]
    pub fn least_amount(&self) -> u64
        ensures exact { result ≡ LeastAmount self.now }
        ensures bounded { LeastAmount self.now ≤ whole }
    {
        match &self.state {
            State::Released => AMOUNT,
            State::Live(node) => {
                let below = match &node.dictionary {
                    None => AMOUNT,
                    Some(tree) => tree.get().least_amount(),
                };
                let own = least_in(&node.private.get().buffers);
                own.min(least_below(&node.children).min(below))
            }
        }
    }
}

#[cycle(depth)]
#[tactic(auto, using(tree_model::proofs::Measures::measures))]
fn deepest(children: &Kids<RawArray>) -> u32
    ensures exact { result ≡ depth_of_all (trees (values_of children.now)) }
    ensures bounded { depth_of_all (trees (values_of children.now)) ≤ 128 }
{
    let mut depth = 0;
    for i in 0..children.len() {
        depth = depth.max(children.get(i).depth());
    }
    depth
}

#[cycle(cost)]
#[tactic(auto, using(tree_model::proofs::Measures::measures))]
fn costs(children: &Kids<RawArray>) -> u64
    ensures { result ≡ min (cost_of_all (trees (values_of children.now))) (2 ^ 64 - 1) }
{
    let mut cost = 0u64;
    for i in 0..children.len() {
        cost = cost.saturating_add(children.get(i).cost());
    }
    cost
}

#[cycle(least)]
#[tactic(auto, using(tree_model::proofs::Measures::leasts))]
fn least_below(children: &Kids<RawArray>) -> u64
    ensures exact { result ≡ least_of_all (trees (values_of children.now)) }
    ensures bounded { least_of_all (trees (values_of children.now)) ≤ whole }
{
    let mut least = AMOUNT;
    for i in 0..children.len() {
        least = least.min(children.get(i).least_amount());
    }
    least
}
