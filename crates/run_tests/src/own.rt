//! The example of a producer: a stream of one chunk, which it makes when it is asked for it.
//!
//! What an author gives:
//!
//! 1. What the stream means ([`Own.antt`](../specs/Own.antt), `own_stream`): its columns, the tables that are still ahead, how it
//!    ends, what its calls still count, why a call refused. Each call is shown to keep this meaning.
//! 2. Its calls. A refusal stays: behind a call for a chunk that refused each further one refuses in the same way.
//! 3. That it is lawful (`lawful_facts`). Its columns are made of values, so it is enough that these fit their types
//!    ([`Fitting.antt`](../proofs/Fitting.antt)): `column_fill::fitting_values_make_a_lawful_chunk` says the rest.
ghost use Rattle.std.specs.Prelude.{◌≡◌, ◌+◌, ◌≤◌, Some, Err, true, false, map, IfErr, IfOk, OnErr, OnOk};
ghost use Rattle.data_types.specs.ColumnView.{column_of};
ghost use Rattle.unit_pass.specs.declared.pass.TheConstants.{ROOM};
ghost use Rattle.run_tests.specs.Own.{own_columns};
ghost use Rattle.run_tests.specs.declared.refused.Refused.TheVariants as refusals;

use crate::chunk::own_chunk;
use crate::refused::{Refused, own_record};
use arr_export::{export_schema, schema_size};
use column_fill::fitting_values_make_a_lawful_chunk;
use data_types::{ColKind, ColumnType, DataType, RowFault};
use edge_io::Gate;
use raw_array::{Acted, RawArray};
use raw_schema::RawSchema;
use std::alloc::Global;
use std::thread::Threads;
use stream_face::{ArrayStream, Tap};
use unit_pass::{Name, NoMemory, Pass, ROOM};

/// The columns: k of texts by a dictionary, n of whole numbers.
pub(crate) fn own_columns(alloc: Global) -> Result<Vec<ColumnType>, NoMemory>
    ensures { IfOk result (λ columns. map column_of columns.items ≡ own_columns) }
{
    let Ok(mut columns) = Vec::with_capacity(alloc, 2) else {
        return Err(NoMemory);
    };
    let k = Name::from_slice(alloc, b"k")?;
    let n = Name::from_slice(alloc, b"n")?;
    columns.push_reserved(ColumnType {
        name: k,
        kind: ColKind::Dict(DataType::Utf8 { wide: false }),
    });
    columns.push_reserved(ColumnType {
        name: n,
        kind: ColKind::Flat(DataType::Int {
            bits: 64,
            signed: true,
        }),
    });
    Ok(columns)
}

/// A stream of one chunk, behind which it ends, or a record is at fault. It keeps no structure between two calls.
pub(crate) struct OwnStream {
    /// Whether it ends at a record at fault.
    bad: bool,
    /// Whether the chunk was given.
    given: bool,
    /// Why a call for a chunk refused. It stays.
    failure: Option<Refused>,
    /// Why the last get call refused, if it did.
    said: Option<Refused>,
    released: bool,
    ghost at_record: { failure ≡ Some refusals.Record → bad ≡ true },
}

impl OwnStream {
    ghost use Rattle.run_tests.specs.Own.{IsNext, IsWhy, due_unless};
    ghost use Rattle.raw_array.specs.promise.Members.{Cost};
    ghost use Rattle.stream_face.specs.Calls.{Counts};
    ghost use Rattle.tree_model.specs.promise.TreeData.{Released};

    /// The stream before its chunk was given. It ends at a record at fault where `bad`.
    pub(crate) fn new(bad: bool) -> OwnStream
        ensures bad { result.bad ≡ bad }
        ensures ungiven { result.given ≡ false }
        ensures live { result.released ≡ false }
    {
        OwnStream {
            bad,
            given: false,
            failure: None,
            said: None,
            released: false,
        }
    }

    /// Puts the next chunk in its place, or leaves it empty at the end.
    fn next_chunk(&self, alloc: Global, out: &mut RawArray, pass: &mut Pass) -> Result<(), Refused>
        requires empty { out.old ≡ Released }
        requires room { ROOM ≤ pass.old.units }
        ensures next { OnOk result (IsNext self.now.bad self.now.given out.new) }
        ensures why { IfErr result (λ refused. IsWhy self.now.bad self.now.given refused) }
        ensures refuses { OnErr result (out.new ≡ Released) }
        ensures units { pass.new.units + Cost out.new ≡ pass.old.units }
        ensures counts { OnOk result (Counts (due_unless self.now.given) (due_unless true) pass.old pass.new out.new) }
        ensures refused_counts { result ≡ Err Refused.Record → Counts (due_unless self.now.given) (due_unless self.now.given) pass.old pass.new out.new }
    {
        if self.given {
            return if self.bad {
                Err(Refused::Record)
            } else {
                Ok(())
            };
        }
        match own_chunk(alloc, pass) {
            Ok(chunk) => {
                out.put(chunk);
                Ok(())
            }
            Err(NoMemory) => Err(Refused::NoMemory),
        }
    }
}

impl ArrayStream for OwnStream {
    ghost use Rattle.run_tests.specs.Own.{own_stream};

    ghost state = { λ s. own_stream s.bad s.given s.failure s.said s.released };

    fn get_schema(&mut self, alloc: Global, out: &mut RawSchema, pass: &mut Pass) -> i32 {
        schema_size();
        let made = match own_columns(alloc) {
            Ok(columns) => export_schema(alloc, columns.as_slice(), pass),
            Err(NoMemory) => Err(NoMemory),
        };
        match made {
            Ok(schema) => {
                out.put(schema);
                self.said = None;
                0
            }
            Err(NoMemory) => {
                self.said = Some(Refused::NoMemory);
                Refused::NoMemory.code()
            }
        }
    }

    fn get_next<R: Threads + Sync, T: Tap>(
        &mut self,
        _rt: &R,
        alloc: Global,
        out: &mut RawArray,
        pass: &mut Pass,
        _tap: &mut T,
        _gate: &(dyn Gate + Sync),
    ) -> i32 {
        fitting_values_make_a_lawful_chunk();
        if let Some(refused) = self.failure {
            self.said = Some(refused);
            return refused.code();
        }
        match self.next_chunk(alloc, out, pass) {
            Ok(()) => {
                self.given = true;
                self.said = None;
                0
            }
            Err(refused) => {
                self.failure = Some(refused);
                self.said = Some(refused);
                refused.code()
            }
        }
    }

    fn get_last_error(&self) -> Option<&str> {
        match self.said {
            None => None,
            Some(refused) => Some(refused.text()),
        }
    }

    fn fault(&self) -> Option<RowFault> {
        match self.failure {
            Some(Refused::Record) => Some(own_record()),
            Some(Refused::NoMemory) | None => None,
        }
    }

    fn is_released(&self) -> bool {
        self.released
    }

    fn release(&mut self, _pass: &mut Pass) -> Acted {
        if self.released {
            return Acted::Was;
        }
        self.released = true;
        Acted::Acted
    }

    fn discard(self) {
        let OwnStream {
            bad: _,
            given: _,
            failure: _,
            said: _,
            released: _,
        } = self;
    }

    fn lawful_facts(&self) {
        fitting_values_make_a_lawful_chunk();
    }
}
