//! Columns that are filled with items of a chunk, and the arrays made of them.
//!
//! - [`push_item`] adds an item of a column to a builder of its type, and [`push_item_times`] adds it many times. A text
//!   isn't tested again.
//! - [`gathered`] fills a builder with the items of given numbers, in their order, and [`gathered_runs`] with items of runs
//!   ([`Run`]), each as often as its run says.
//! - [`built_column`] makes the array of a builder's column, over a dictionary where the column has indices. Where memory
//!   runs out, all is released.
//! - [`is_flat_column`] says of which columns a new one can be made.
//!
//! What the contracts say: the item that a builder has then is the one that was read (`specs/Takes.antt` says which items
//! are taken, `specs/Gathered.antt` of which a column can be made). The array that is read stays as it is. The new array is
//! the one that `arr_export` says of the values. It costs a node, and a hold for each buffer of its encoding, of which
//! there are at most three. `NoMemory` comes only where memory runs out. [`fitting_values_make_a_lawful_chunk`] is the law
//! for producers: a table whose columns are made of values that fit is lawful, in its columns, its rows and its chunk
//! (`specs/Tables.antt`).
//!
//! Left to others: which items are taken, and what becomes of the chunk.
#![tactic(auto)]

mod built;
mod flat;
mod item;
mod laws;
mod numbers;
mod runs;

pub use built::built_column;
pub use flat::{flat_kind, is_flat_column};
pub use item::{push_item, push_item_times};
pub use laws::fitting_values_make_a_lawful_chunk;
pub use numbers::gathered;
pub use runs::{Run, gathered_runs};
