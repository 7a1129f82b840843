//! A law of reading in batches.
ghost use Rattle.std.specs.Prelude.{◌≡◌, ◌≤◌, ℕ, List, [], map, None, Some};
ghost use Rattle.col_build.specs.declared.builder.Builder.{Builder};
ghost use Rattle.data_types.specs.ColumnView.{column_of};
ghost use Rattle.data_types.specs.declared.kind.ColumnType.{ColumnType};
ghost use Rattle.data_types.specs.declared.row_fault.RowFault.{RowFault};
ghost use Rattle.csv_model.specs.Batches.{Batches};
ghost use Rattle.csv_model.specs.promise.Reading.{behind_header, records_of};
ghost use Rattle.csv_read.specs.BatchesLeft.{BatchesLeft, IsNextBatch, IsNextFault, all_left, batches_left, behind};
ghost use Rattle.csv_read.specs.declared.body.BodyFault.TheVariants as faults;

/// A law: what [`BatchReader::next`](crate::BatchReader::next) gives, one call after the other with the same `batch`, are the
/// batches of the text: the first is its next chunk, no record is left behind the last one, and a fault ends them.
pub fn batches_are_read_in_turn()
    // Before the first batch they are all left.
    ensures all { (batch : ℕ) (bytes : List ℕ) (columns : List ColumnType) (mark : List ℕ)
        → batches_left batch (all_left (behind_header (records_of bytes)) columns mark) ≡ Batches mark bytes (map column_of columns) batch }
    // The rows of a batch are the first chunk, and the others are those that are left.
    ensures next { (batch : ℕ) (builders : List Builder) (old new : BatchesLeft) → 1 ≤ batch → new.columns ≡ old.columns → new.mark ≡ old.mark
        → (found : IsNextBatch batch builders old new) → batches_left batch old ≡ behind found.rows (batches_left batch new) }
    ensures end { (batch : ℕ) (s : BatchesLeft) → s.records ≡ [] → batches_left batch s ≡ record { chunks = []; ending = None } }
    ensures fault { (batch : ℕ) (s : BatchesLeft) (fault : RowFault) → IsNextFault (faults.Row fault) batch s
        → batches_left batch s ≡ record { chunks = []; ending = Some fault } }
{}
