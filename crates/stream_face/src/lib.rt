//! Streams of chunks ("The Arrow C Stream Interface"): the trait of all streams, the checked stream, and the tap that is
//! shown its chunks.
//!
//! - An [`ArrayStream`] gives its schema and then its chunks, one a call, in structures that the caller owns. A call
//!   answers 0 or an error code from 1 to 4095: a [`RawStream`] answers 12 (ENOMEM), 22 (EINVAL), or the code of the stream
//!   below it. Contracts see one ghost member, `state`: what the stream still gives, how it ends, what it holds and what
//!   its calls still count. A stream that isn't lawful may give anything.
//! - A [`RawStream`] is a checked stream, over any stream. It asks that one for its schema once and checks it. It checks
//!   each chunk under that schema, and shows it to a [`Tap`] before it hands it on. What the check refuses is released, and
//!   a refusal stays.
//! - A [`Tap`] is shown each chunk of each link, with the link's number.
//!
//! What the contracts say: a chunk that comes out of a [`RawStream`] passes the check, whoever made it; a refusal names its
//! cause; the units are balanced on every outcome; over a lawful stream the check never refuses, and the answers, the
//! counts and what is shown are those of the stream's meaning.
//!
//! The definitions are in `specs`: `Streams` (what a stream means), `Lawful`, `Calls` (what its calls answer), `Shown`,
//! `Faults`. Left to others: the streams themselves, what a stage makes of the stream below it, and when a gate is passed
//! (`edge_io`).
#![tactic(auto)]

mod checked_schema;
mod codes;
mod fault;
mod raw;
mod stream;
mod tap;

pub use codes::{EINVAL, ENOMEM};
pub use fault::{StartFault, StreamFault};
pub use raw::RawStream;
pub use stream::ArrayStream;
pub use tap::{NoTap, Tap};
