//! Reads texts of any format that is read line by line, fed in pieces of any size.
//!
//! A format gives the state to which its lines lead, a [`Format`], with its rules line by line.
//! [`Reader`] cuts a text into its lines and leads the state through them. It answers the state
//! after all lines, a [`Whole`], or the first fault with the number of its line, a [`TextRefusal`].
#![tactic(auto)]

mod file;
mod format;
mod reader;
mod stop;
mod text_reader;
mod text_refusal;
mod unread;
mod whole;

pub use file::read_file;
pub use format::Format;
pub use reader::Reader;
pub use stop::Stop;
pub use text_reader::TextReader;
pub use text_refusal::TextRefusal;
pub use unread::Unread;
pub use whole::Whole;
