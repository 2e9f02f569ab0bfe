//! Questions to a reader of tokens.

use crate::marks::Marks;
use hpr_expressions::{Keyword, Reader, Sign, TokenMachine};
use std::alloc::Global;

/// Makes the calls.
pub(crate) fn call(alloc: Global, marks: &mut Marks) -> Option<()> {
    marks.ready()?;
    let reader = Reader::start(alloc);
    marks.after("Reader::start", true)?;
    marks.after("Reader::takes_name", reader.takes_name())?;
    marks.after("Reader::takes_number", reader.takes_number(7))?;
    marks.after("Reader::takes_keyword", reader.takes_keyword(Keyword::Not))?;
    marks.after("Reader::takes_sign", reader.takes_sign(Sign::Minus))?;
    marks.after("Reader::can_end", !reader.can_end())
}
