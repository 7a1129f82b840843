//! Laws on lawful arrays, as `layout_rules` defines these. The calls do nothing.
//!
//! - On shares, windows and pieces of an array, which workers need: a share shows the same as its source, a window of a
//!   lawful array is lawful, and pieces that are joined are the whole.
//! - On columns of a chunk, which stages need: columns that are picked, packed, unpacked or replaced make a chunk of the
//!   new types. Its rows are the old rows with the same done to each.
//! - [`lawful_values_fit`]: the values of a lawful array of a flat type without a dictionary have an encoding
//!   ([`Fits`](../../col_build/specs/promise/Encoding.antt)), and so has any list of its items, as far as offsets reach their
//!   bytes. So a column can be made of them.
//!
//! The definitions are in `specs`: `Shown` (what a reader sees of a tree), `Pieces`, `Picking` (columns that are moved),
//! `Items`.
#![tactic(auto)]

mod column_laws;
mod laws;
mod stored;
mod types;
mod values;

pub use column_laws::{
    column_types_follow_picks, columns_can_be_taken, columns_of_a_table,
    packed_columns_make_a_chunk, picked_columns_make_a_chunk, replaced_columns_make_a_chunk,
    taken_columns_are_no_deeper, taken_columns_cost_no_more, unpacked_columns_make_a_chunk,
};
pub use laws::{
    lawful_arrays_are_not_deep, lawful_structs_have_columns, pieces_are_the_whole,
    pieces_of_shares, shares_show_the_same, trees_that_show_the_same, windows_are_parts,
    windows_join, workers_read_the_whole,
};
pub use types::flat_types_have_no_children;
pub use values::lawful_values_fit;
