//! The fields of a record.
ghost use Rattle.std.specs.Prelude.{◌≡◌, ℕ, List, [], get_or, IfOk};
ghost use Rattle.csv.specs.Records.{fields_of};
ghost use Rattle.stage_plan.specs.PlanWords.{texts};

use csv::ByteRecord;
use std::alloc::Global;
use unit_pass::NoMemory;

/// The fields of a record.
pub(crate) fn fields(alloc: Global, row: &ByteRecord) -> Result<Vec<&[u8]>, NoMemory>
    ensures { IfOk result (λ fields. texts fields.items ≡ fields_of row.now) }
{
    let mut fields = Vec::new(alloc);
    for place in 0..row.len() {
        fields.push(field(row, place))?;
    }
    Ok(fields)
}

/// The field of a record at a place, and nothing where there is none.
#[inline(always)]
pub(crate) fn field(row: &ByteRecord, place: usize) -> &[u8]
    ensures { result.now ≡ get_or (fields_of row.now) place [] }
{
    match row.get(place) {
        Some(text) => text,
        None => &[],
    }
}
