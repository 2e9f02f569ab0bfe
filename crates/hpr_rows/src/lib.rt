//! Rows of calls, which test programs read: the words of a call, the texts that they name, and what it is to print.
//!
//! `# TITLE` begins a row. `@ NAME PIECE` begins a text; `+ PIECE` adds a line to it, and `* TIMES PIECE` a piece so many
//! times. `$ WORDS` makes a call, whose words may name the row's texts, and behind it each line `= LINE` is one that it is
//! to print, `=` alone an empty one. The program prints each row that comes to something else, with its title, and how
//! many rows there are.
#![tactic(auto)]

mod comparing;
mod lines;
mod printing;
mod taking;
mod words;

pub use comparing::Sheet;
pub use printing::{
    Out, order_word, put, put_bytes, put_comparison, put_content, put_count, put_counted, put_made,
    put_marked, put_message, put_names, put_numbers, put_program, put_tag, truth,
};
pub use taking::{Calls, take};
pub use words::{Row, Text, array_of, name_of, tag_of};
