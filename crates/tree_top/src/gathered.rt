//! The texts of chunks that are shown one after another.
ghost use Rattle.std.specs.Prelude.{◌≡◌, [], ◌∷◌, IfOk, List, length, map};
ghost use Rattle.data_types.specs.promise.Table.{Row};
ghost use Rattle.data_types.specs.KindTrees.{TypedOk};
ghost use Rattle.data_types.specs.promise.TypedView.{typed_of};
ghost use Rattle.layout_rules.specs.promise.Values.{rows_of};
ghost use Rattle.layout_rules.specs.promise.Walk.{ChunkOk};
ghost use Rattle.data_types.specs.promise.ValueTexts.{lines_text};
ghost use Rattle.tree_top.specs.promise.ForeignAnswer.{row_value};
ghost use Rattle.tree_top.specs.Gathered.{shown_in, tables_in};

use crate::shown::Lines;
use data_types::{Typed, kinds_of_typed};
use foreign_array::Visit;
use layout_rules::chunks_are_tables;
use raw_array::RawArray;
use std::alloc::Global;
use std::snapshot::Snapshot;
use unit_pass::NoMemory;
use value_text::items_text;

/// Gathers the lines of each chunk that it is shown.
#[derive(Drop)]
pub(crate) struct Gathered {
    alloc: Global,
    pub(crate) chunks: Vec<Lines>,
}

impl Gathered {
    /// No lines. Takes no memory.
    pub(crate) fn new(alloc: Global) -> Gathered
        ensures { result.chunks.items ≡ [] }
    {
        Gathered {
            alloc,
            chunks: Vec::new(alloc),
        }
    }

    /// The text of the one chunk that was shown.
    pub(crate) fn only_text(self) -> Vec<u8>
        requires { length self.chunks.items ≡ 1 }
        ensures { (rows : List Row) → tables_in self.chunks.items ≡ rows ∷ [] → result.items ≡ lines_text (map row_value rows) }
    {
        let Gathered { alloc: _, chunks } = self;
        let mut chunks = chunks;
        match chunks.pop() {
            Some(lines) => lines.text,
            None => unreachable!(),
        }
    }
}

impl Visit for Gathered {
    ghost use Rattle.std.specs.Prelude.{Some};
    ghost use Rattle.tree_top.specs.Gathered.{tables_in};

    ghost seen = { λ g. Some (tables_in g.chunks.items) };

    fn chunk(&mut self, typed: &Typed, array: &RawArray) -> Result<(), NoMemory> {
        let lines = lines_of(self.alloc, typed, array)?;
        self.chunks.push(lines)?;
        Ok(())
    }
}

/// The lines of a chunk: those of its rows.
fn lines_of(alloc: Global, typed: &Typed, array: &RawArray) -> Result<Lines, NoMemory>
    requires kinds { TypedOk (typed_of typed.now) }
    requires chunk { ChunkOk (typed_of typed.now) array.now }
    ensures { IfOk result (λ lines. shown_in lines ≡ rows_of (typed_of typed.now) array.now) }
{
    kinds_of_typed(typed);
    chunks_are_tables();
    let text = items_text(alloc, typed, array)?;
    Ok(Lines {
        text,
        typed: Snapshot::of(typed),
        array: Snapshot::of(array),
    })
}
