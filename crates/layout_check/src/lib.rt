//! The check of an array of the C data interface against the rules of its nodes: one that passes is safe to read, whoever
//! made it ("The Arrow C Data Interface", "Structure definitions"; "Arrow Columnar Format", "Physical memory layout").
//!
//! - [`check_array`] walks the array and the tree of its kinds together, in preorder: a node, its children by number, its
//!   dictionary. It answers `Ok` exactly where no rule fails at any node. Otherwise it answers the first rule that fails at
//!   the first such node, with the path to it, a place and two numbers.
//! - [`check_chunk`] asks two things more of the root: a struct without a dictionary, and no null item. [`chunk_passes`]
//!   says only whether there is a fault, and makes none.
//! - [`nulls_of`] counts the null items of a lawful array's window, and [`count_rows`] its items.
//! - Rules of layouts that aren't among the [`Layout`]s, as those of unions, are made of [`negative`], [`wrong_count`],
//!   [`missing`], [`too_short`], [`first_short`] and [`window_too_long`], which take what is needed as a number.
//!
//! No call takes memory or writes. Numbers of bytes and places are computed without bounds, so no sum wraps. The rules, and
//! what a lawful array promises to its reader, are in `layout_rules`, whose types are exported here too, as are those of
//! the kinds (`data_types`). Left to others: the check of schemas (`schema_check`), and whether an array is released, moved
//! or shared in the right order.
#![tactic(auto)]

mod buffers;
mod children;
mod chunk;
mod counts;
mod failing;
mod indices;
mod marks;
mod node;
mod nulls;
mod runs;
mod scans;
mod texts;
mod view_texts;
mod views;
mod walk;

pub use buffers::{missing, too_short};
pub use children::first_short;
pub use chunk::{check_chunk, chunk_passes, count_rows, nulls_of};
pub use counts::{negative, window_too_long, wrong_count};
pub use data_types::{DICTIONARY_STEP, Path, Typed, kinds_of_typed};
pub use layout_rules::{Layout, LayoutFault, LayoutRule, Numbers};
pub use walk::check_array;
