// The bodies of the commands, over readers and writers: what they print is stated of what they read.
#![tactic(auto)]

mod groups;
mod line;
mod repair;
mod streams;
mod strips;
mod text;
mod words;

pub use groups::print_groups;
pub use repair::print_repair;
pub use strips::{Sent, StripError, send_strips};
pub use text::{
    Expected, TextError, WrongLine, print_records, print_text, records_of_text, text_of_records,
};
pub use words::{RowsError, WrongRow, print_rows};
