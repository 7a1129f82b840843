//! A job done on the pieces of a chunk, in threads.
//!
//! [`fan_out`] cuts the rows of a chunk into as many pieces as there are workers, and answers what a [`Job`] gives on each
//! piece, in order. Each worker but the last reads a share of the chunk (a second tree over the same blocks), which it then
//! releases, in a thread of its own where one can be had; the caller's thread does the last piece on the chunk itself.
//! Where the amounts of the chunk's holds are too low for the shares, the caller does all pieces in turn. What a job gives
//! is said by the chunk's types and rows and by the window alone, so neither the number of workers nor the threads change
//! it. The law [`pieces_are_in_order`] says that the pieces are the whole, for a caller that joins answers. [`Workers`] is
//! a number of workers from 1 to 64, and [`piece_count`] says in how many pieces rows are worth being cut.
//!
//! The units of a worker come from the caller's pass and are all back at the end. `NoMemory` comes only where memory runs
//! out. The definitions are in `specs`: `Pieces` (the answers on pieces), `Workers`. Left to others: which jobs there are,
//! and what the answers are joined to.
#![tactic(auto)]

mod fan;
mod job;
mod laws;
mod piece;
mod pieces;
mod run;
mod share;
mod workers;
mod worth;

pub use fan::fan_out;
pub use job::Job;
pub use laws::pieces_are_in_order;
pub use workers::Workers;
pub use worth::piece_count;
