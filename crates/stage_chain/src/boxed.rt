//! A stream in a place of its own, so that the streams above it keep a pointer, whatever its size is.
ghost use Rattle.std.specs.Prelude.{◌≡◌, IfErr, IfOk};
ghost use Rattle.stage_chain.specs.Boxes.{boxed_state};

use data_types::RowFault;
use edge_io::Gate;
use raw_array::{Acted, RawArray};
use raw_schema::RawSchema;
use std::alloc::{AllocFailed, Global};
use std::thread::Threads;
use stream_face::{ArrayStream, Tap};
use unit_pass::{NoMemory, Pass};

/// A stream in a place of its own. It can't be dropped.
pub(crate) struct Boxed<S: ArrayStream> {
    inner: Box<S>,
}

impl<S: ArrayStream> Boxed<S> {
    /// Takes a place for a stream. Where there is no memory it comes back.
    pub(crate) fn new(alloc: Global, inner: S) -> Result<Boxed<S>, (S, NoMemory)>
        ensures made { IfOk result (λ made. boxed_state S.state made ≡ S.state inner) }
        ensures back { IfErr result (λ back. S.state back.0 ≡ S.state inner) }
    {
        match Box::new(alloc, inner) {
            Ok(inner) => Ok(Boxed { inner }),
            Err(AllocFailed { value }) => Err((value, NoMemory)),
        }
    }
}

impl<S: ArrayStream> ArrayStream for Boxed<S> {
    ghost use Rattle.stage_chain.specs.Boxes.{boxed_state};

    ghost state = { boxed_state S.state };

    fn get_schema(&mut self, alloc: Global, out: &mut RawSchema, pass: &mut Pass) -> i32 {
        self.inner.get_schema(alloc, out, pass)
    }

    fn get_next<R: Threads + Sync, T: Tap>(
        &mut self,
        rt: &R,
        alloc: Global,
        out: &mut RawArray,
        pass: &mut Pass,
        tap: &mut T,
        gate: &(dyn Gate + Sync),
    ) -> i32 {
        self.inner.get_next(rt, alloc, out, pass, tap, gate)
    }

    fn get_last_error(&self) -> Option<&str> {
        self.inner.get_last_error()
    }

    fn fault(&self) -> Option<RowFault> {
        self.inner.fault()
    }

    fn is_released(&self) -> bool {
        self.inner.is_released()
    }

    fn release(&mut self, pass: &mut Pass) -> Acted {
        self.inner.release(pass)
    }

    fn discard(self) {
        let Boxed { inner } = self;
        Box::into_inner(inner).discard();
    }

    fn lawful_facts(&self) {
        self.inner.lawful_facts();
    }
}
