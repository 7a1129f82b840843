//! Steps of stages that move columns or narrow chunks.
//!
//! - [`SelectStep`] moves the picked columns of each chunk, in the order of the picks, into a new struct. A stage that
//!   drops columns picks the others.
//! - [`SliceStep`] narrows each chunk to its rows in a window over the rows of all chunks. It gives no chunk without rows,
//!   and is pushed all chunks of the stream below it.
//! - [`PackStep`] moves the picked columns into a struct column of a new struct, behind the other columns.
//! - [`UnpackStep`] moves the columns of a struct column into its place.
//!
//! What the contracts say: a step's stage gives the chunks that `stage_model` says of it. No step makes a block. A
//! selection and an unpacking make one node for each chunk, a packing makes two, and a slice none. A lawful stream stays
//! lawful. Where memory runs out the chunk is released.
//!
//! Left to others: which columns a stage text picks, packs or unpacks (`stage_plan`), and the moves of children
//! (`arr_move`).
#![tactic(auto)]

mod pack;
mod packed;
mod select;
mod slice;
mod unpack;
mod unpacked;

pub use pack::PackStep;
pub use select::SelectStep;
pub use slice::SliceStep;
pub use unpack::UnpackStep;
