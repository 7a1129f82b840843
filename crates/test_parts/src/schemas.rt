//! Small schemas that are made by hand: of at most eight children, and ten levels.
ghost use Rattle.std.specs.Prelude.{◌≡◌, ◌≤◌, IsTrue, IfOk};
ghost use Rattle.tree_model.specs.promise.TreeParts.{IsLive};
ghost use Rattle.tree_model.specs.promise.TreeData.{trees, maybe_tree};
ghost use Rattle.tree_model.specs.Tree.{depth_of_all, depth_of_maybe};

use raw_schema::{RawSchema, SchemaParts};
use std::alloc::{AllocError, Global};
use std::fmt;
use std::fmt::{Debug, Formatter};
use unit_pass::{NoMemory, Pass};

/// The parts of a schema that isn't made: there was no memory or no unit, or it has too many children or levels.
pub struct UnmadeSchema {
    pub parts: SchemaParts,
}

impl Debug for UnmadeSchema {
    fn fmt<W: fmt::Write>(&self, f: &mut Formatter<W>) -> fmt::Result {
        f.write_str("a schema isn't made")
    }
}

#[tactic(auto, using(tree_model::proofs::Measures::measures))]
fn are_flat(children: &[RawSchema]) -> bool
    ensures { IsTrue result → depth_of_all (trees children.now) ≤ 9 }
{
    for child in children {
        if child.depth() > 9 {
            return false;
        }
    }
    true
}

fn is_flat(dictionary: &Option<RawSchema>) -> bool
    ensures { IsTrue result → depth_of_maybe (maybe_tree dictionary.now) ≤ 9 }
{
    match dictionary {
        Some(tree) => tree.depth() <= 9,
        None => true,
    }
}

/// Puts a format and a name in their places.
fn put_texts(
    alloc: Global,
    parts: &mut SchemaParts,
    format: &[u8],
    name: Option<&[u8]>,
) -> Result<(), AllocError>
    ensures children { parts.new.children ≡ parts.old.children }
    ensures dictionary { parts.new.dictionary ≡ parts.old.dictionary }
{
    parts.format = Vec::from_slice(alloc, format)?;
    parts.name = match name {
        Some(name) => Some(Vec::from_slice(alloc, name)?),
        None => None,
    };
    Ok(())
}

/// A small schema of this format and name, of flags 2 and without metadata.
pub fn node(
    alloc: Global,
    format: &[u8],
    name: Option<&[u8]>,
    children: Vec<RawSchema>,
    dictionary: Option<RawSchema>,
    pass: &mut Pass,
) -> Result<RawSchema, UnmadeSchema>
    ensures { IfOk result (λ tree. IsLive tree) }
{
    let mut parts = SchemaParts {
        format: Vec::new(alloc),
        name: None,
        metadata: None,
        flags: 2,
        children,
        dictionary,
    };
    let is_small = parts.children.len() <= 8
        && are_flat(&parts.children)
        && is_flat(&parts.dictionary)
        && pass.units() >= 1;
    if !is_small || put_texts(alloc, &mut parts, format, name).is_err() {
        return Err(UnmadeSchema { parts });
    }
    match RawSchema::build(alloc, parts, pass) {
        Ok(tree) => Ok(tree),
        Err((parts, NoMemory)) => Err(UnmadeSchema { parts }),
    }
}
