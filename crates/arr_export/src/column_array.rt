//! The array of a column.
ghost use Rattle.std.specs.Prelude.{◌≡◌, ◌+◌, ◌≤◌, List, if◌then◌else◌, count_by, is_ok, is_some, IfOk, IfErr};
ghost use Rattle.unit_pass.specs.promise.Tally.{risen};
ghost use Rattle.unit_pass.specs.declared.pass.TheConstants.{SUPPLY};
ghost use Rattle.data_types.specs.promise.Value.{Value};
ghost use Rattle.data_types.specs.declared.kind.DataType.{DataType};
ghost use Rattle.tree_model.specs.promise.TreeData.{maybe_tree};
ghost use Rattle.raw_array.specs.promise.Members.{Cost};
ghost use Rattle.raw_array.specs.Members.{cost_of_maybe};
ghost use Rattle.col_build.specs.Finished.{IsEncoded};
ghost use Rattle.arr_export.specs.promise.ArrayTrees.{column_tree};
ghost use Rattle.arr_export.specs.ArrayTrees.{HasValues};

use buf_block::let_go_all;
use col_build::FinishedColumn;
use raw_array::{ArrayParts, RawArray, ReleaseKind};
use std::alloc::Global;
use unit_pass::{NoMemory, Pass, SUPPLY};

/// A finished column as a live array, which owns its buffers and the dictionary, where there is one ("The Arrow C Data
/// Interface", "The ArrowArray structure"; "Arrow Columnar Format", "Dictionary-encoded Layout"). No byte is copied. It
/// draws one unit and counts one node. Where memory runs out the column and the dictionary come back.
#[inline(always)]
pub fn export_column(
    alloc: Global,
    column: FinishedColumn,
    dictionary: Option<RawArray>,
    pass: &mut Pass,
) -> Result<RawArray, (FinishedColumn, Option<RawArray>, NoMemory)>
    requires units { 1 ≤ pass.old.units }
    requires holds { (kind : DataType) × (values : List Value) × HasValues column dictionary kind values }
    ensures tree { IfOk result (λ tree. (kind : DataType) (values : List Value) → IsEncoded column kind values → tree ≡ column_tree kind values dictionary) }
    ensures cost { IfOk result (λ tree. Cost tree ≤ 4 + cost_of_maybe (maybe_tree dictionary)) }
    ensures length_back { IfErr result (λ back. back.0.length ≡ column.length) }
    ensures null_count_back { IfErr result (λ back. back.0.null_count ≡ column.null_count) }
    ensures buffers_back { IfErr result (λ back. back.0.buffers.items ≡ column.buffers.items) }
    ensures dictionary_back { IfErr result (λ back. back.1 ≡ dictionary) }
    ensures units { pass.new.units + (if is_ok result then 1 else 0) ≡ pass.old.units }
    ensures nodes { pass.new.nodes ≡ (if is_ok result then risen pass.old.nodes 1 else pass.old.nodes) }
    ensures blocks { pass.new.blocks ≡ pass.old.blocks }
{
    let FinishedColumn {
        length,
        null_count,
        buffers,
    } = column;
    let parts = ArrayParts {
        length,
        null_count,
        offset: 0,
        buffers,
        children: Vec::new(alloc),
        dictionary,
        kind: ReleaseKind::Exported,
    };
    match RawArray::build(alloc, parts, pass) {
        Ok(tree) => Ok(tree),
        Err((parts, NoMemory)) => {
            let ArrayParts {
                length,
                null_count,
                offset: _,
                buffers,
                children,
                dictionary,
                kind: _,
            } = parts;
            children.destroy_empty();
            let column = FinishedColumn {
                length,
                null_count,
                buffers,
            };
            Err((column, dictionary, NoMemory))
        }
    }
}

/// Lets the buffers of a finished column go, and releases its dictionary, where there is one. It is for a column that
/// [`export_column`] gave back. Takes no memory.
#[inline(never)]
pub fn let_go_column(column: FinishedColumn, dictionary: Option<RawArray>, pass: &mut Pass)
    requires { pass.old.units + cost_of_maybe (maybe_tree dictionary) + count_by is_some column.buffers.items ≤ SUPPLY }
    ensures units { pass.new.units ≡ pass.old.units + cost_of_maybe (maybe_tree dictionary) + count_by is_some column.buffers.items }
    ensures blocks { pass.new.blocks ≡ pass.old.blocks }
    ensures nodes { pass.new.nodes ≡ pass.old.nodes }
{
    let FinishedColumn {
        length: _,
        null_count: _,
        buffers,
    } = column;
    let_go_all(buffers, pass);
    if let Some(dictionary) = dictionary {
        dictionary.end(pass);
    }
}
