//! The stream. It keeps no structure between two calls.
//!
//! What an author gives: what the stream means (`specs/Numbers.antt`, `number_stream`), its calls, and that it is lawful. Its
//! columns are made of values, so it is enough that these fit their types: `fitting_values_make_a_lawful_chunk` says the rest.
ghost use Rattle.std.specs.Prelude.{◌≡◌, false};

use crate::chunk::{number_chunk, number_columns};
use column_fill::fitting_values_make_a_lawful_chunk;
use data_types::RowFault;
use edge_io::Gate;
use raw_array::{Acted, RawArray};
use raw_schema::RawSchema;
use std::alloc::Global;
use std::thread::Threads;
use stream_face::{ArrayStream, ENOMEM, Tap};
use unit_pass::{NoMemory, Pass};

/// What comes next. That there was no memory stays.
#[derive(Clone, Copy)]
enum Next {
    Chunk,
    End,
    NoMemory,
}

pub struct Numbers {
    next: Next,
    /// Whether the last get call had no memory.
    wants: bool,
    released: bool,
}

impl Numbers {
    /// The stream before its chunk was given.
    pub fn new() -> Numbers
        ensures next { result.next ≡ Next.Chunk }
        ensures wants { result.wants ≡ false }
        ensures live { result.released ≡ false }
    {
        Numbers {
            next: Next::Chunk,
            wants: false,
            released: false,
        }
    }
}

impl ArrayStream for Numbers {
    ghost use Rattle.number_stream.specs.Numbers.{number_stream};

    ghost state = { λ s. number_stream s.next s.wants s.released };

    fn get_schema(&mut self, alloc: Global, out: &mut RawSchema, pass: &mut Pass) -> i32 {
        let made = match number_columns(alloc) {
            Ok(columns) => columns.schema(alloc, pass),
            Err(NoMemory) => Err(NoMemory),
        };
        match made {
            Ok(schema) => {
                out.put(schema);
                self.wants = false;
                0
            }
            Err(NoMemory) => {
                self.wants = true;
                ENOMEM
            }
        }
    }

    fn get_next<R: Threads + Sync, T: Tap>(
        &mut self,
        _rt: &R,
        alloc: Global,
        out: &mut RawArray,
        pass: &mut Pass,
        _tap: &mut T,
        _gate: &(dyn Gate + Sync),
    ) -> i32 {
        fitting_values_make_a_lawful_chunk();
        match self.next {
            Next::Chunk => match number_chunk(alloc, pass) {
                Ok(chunk) => {
                    out.put(chunk);
                    self.next = Next::End;
                    self.wants = false;
                    0
                }
                Err(NoMemory) => {
                    self.next = Next::NoMemory;
                    self.wants = true;
                    ENOMEM
                }
            },
            Next::End => {
                self.wants = false;
                0
            }
            Next::NoMemory => {
                self.wants = true;
                ENOMEM
            }
        }
    }

    fn get_last_error(&self) -> Option<&str> {
        if self.wants {
            Some("out of memory")
        } else {
            None
        }
    }

    fn fault(&self) -> Option<RowFault> {
        None
    }

    fn is_released(&self) -> bool {
        self.released
    }

    fn release(&mut self, _pass: &mut Pass) -> Acted {
        if self.released {
            return Acted::Was;
        }
        self.released = true;
        Acted::Acted
    }

    fn discard(self) {
        let Numbers {
            next: _,
            wants: _,
            released: _,
        } = self;
    }

    fn lawful_facts(&self) {
        fitting_values_make_a_lawful_chunk();
    }
}
