//! Lines and tokens of texts that come in pieces.
//!
//! [`Lines`] takes a text piece by piece, in pieces of any size, and makes its lines ready one
//! after the other. [`token`] finds the tokens of a line. A reader of a format stands on both, and
//! answers a [`TextFault`] where the text is not of its format.
#![tactic(auto)]

mod bytes;
mod fault;
mod found;
mod join;
mod lines;
mod number;
mod tokens;

pub use bytes::{begins_with_dot, bit_byte, first_place, has_quote};
pub use fault::TextFault;
pub use found::Token;
pub use join::{joined, joined_len};
pub use lines::{Fed, Lines, MOST_BYTES};
pub use number::{are_digits, count_of, decimal_value};
pub use tokens::token;
