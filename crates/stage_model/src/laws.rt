//! What holds of stages. The calls do nothing.
ghost use Rattle.std.specs.Prelude.{◌≡◌, ◌≤◌, ◌+◌, ◌-◌, ℕ, List, drop, length, take};
ghost use Rattle.data_types.specs.promise.Table.{Column, Row, Table};
ghost use Rattle.stage_model.specs.promise.Links.{Whole};
ghost use Rattle.stage_model.specs.Links.{BatchesGiveTheWhole, ChunksGiveTheWhole, last_columns};
ghost use Rattle.stage_model.specs.promise.Stages.{sliced};
ghost use Rattle.stage_model.specs.Stages.{window_end, window_start};
ghost use Rattle.stage_model.specs.promise.Typing.{Stage};
ghost use Rattle.stage_model.specs.Typing.{FitsColumns, HasColumns, IsStageOver};

/// A law: where the source ends well, the rows that come out of a chain of stages are those of the whole table, however
/// the source cut them into chunks; and so are the columns.
pub fn chunks_give_the_whole()
    ensures rows { ChunksGiveTheWhole }
    ensures columns { (start : Table) (stages : List Stage) → (Whole start stages).columns ≡ last_columns start.columns stages }
{}

/// A law: the rows that come out of a chain of stages over the batches of a text are those of the whole table of its rows,
/// whatever the size of a batch.
pub fn batches_give_the_whole()
    ensures { BatchesGiveTheWhole }
{}

/// A law: of each chunk a slice keeps one window of its rows.
pub fn slices_are_windows()
    ensures within { (off len number count : ℕ) → window_start off number count ≤ window_end off len number count }
    ensures few { (off len number count : ℕ) → window_end off len number count ≤ count }
    ensures rows { (off len number : ℕ) (rows : List Row) →
        let start = window_start off number (length rows) in
        sliced off len number rows ≡ take (window_end off len number (length rows) - start) (drop start rows) }
{}

/// A law: a stage that no rule refuses is by numbers of the columns before it, and has the columns after its step.
pub fn stages_fit_their_columns()
    ensures within { (columns : List Column) (stage : Stage) → IsStageOver columns stage → FitsColumns (length columns) stage.step }
    ensures after { (columns : List Column) (stage : Stage) → IsStageOver columns stage → HasColumns columns stage.step stage.columns }
{}
