//! Fields of CSV for flat types, both ways: the value that a field spells in a column, and the text of a value.
//!
//! The definitions are in `specs/promise/FieldText.antt` of `data_types`. [`form_of`] or [`flat_form`] finds a column's
//! [`FieldForm`] once. Each form then has a call for reading and one for writing:
//!
//! - truth values: [`read_truth`], [`truth_text`];
//! - whole numbers of up to 64 bits: [`read_whole`], [`whole_text`];
//! - decimals: [`read_decimal`], [`decimal_text`];
//! - the bits of floats, as hexadecimal digits: [`read_bits`], [`bits_text`];
//! - bytes, as pairs of hexadecimal digits: [`read_bytes`], [`bytes_text`]; those of eight and sixteen bytes also
//!   [`read_eight_bytes`], [`read_sixteen`].
//!
//! A call that reads answers `None` where the field spells no value of the column. A field of a text column is its own
//! value; `col_build::is_text` says whether it is UTF-8. Left to others: the text of a null, where the fields come from and
//! where their values go.
#![tactic(auto)]

mod decimal;
mod digits;
mod form;
mod hexadecimal;
mod number;
mod number_text;
mod powers;
mod room;
mod truth;
mod whole;

pub use decimal::read_decimal;
pub use form::{FieldForm, flat_form, form_of};
pub use hexadecimal::{
    bits_text, bytes_text, read_bits, read_bytes, read_eight_bytes, read_sixteen,
};
pub use number_text::{decimal_text, whole_text};
pub use truth::{read_truth, truth_text};
pub use whole::read_whole;
