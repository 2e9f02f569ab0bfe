//! Calls that make the refusals of files.
use crate::put::put_value;
use hpr_json::refusal_value;
use hpr_refusals::Refusal;
use hpr_rows::{Out, Row};
use hpr_syntax::ShapeError;

/// Answers the call `refused FILE KIND WORD`: the file is refused so, where WORD is the place, the tag, the
/// number of parts or the name.
pub(crate) fn call(row: Row<'_>, out: &mut Out) -> Option<()> {
    let why = refusal(row)?;
    put_value(row.alloc, out, refusal_value(row.alloc, row.word(1)?, &why));
    Some(())
}

fn refusal(row: Row<'_>) -> Option<Refusal> {
    match row.word(2)? {
        "longer" => Some(Refusal::Longer),
        "syntax" => Some(Refusal::Syntax {
            place: row.number(3)?,
        }),
        _ => Some(Refusal::Shape(shape(row)?)),
    }
}

fn shape(row: Row<'_>) -> Option<ShapeError> {
    match row.word(2)? {
        "twice" => Some(ShapeError::DuplicateTag(row.tag(3)?)),
        "unissued" => Some(ShapeError::Unissued(row.tag(3)?)),
        "deep" => Some(ShapeError::TooDeep(row.tag(3)?)),
        "large" => Some(ShapeError::ExprTooLarge(row.tag(3)?)),
        "wrong" => Some(ShapeError::WrongName(row.tag(3)?)),
        "parts" => Some(ShapeError::TooManyParts(row.number(3)?)),
        "name" => Some(ShapeError::DuplicateFinal(row.name(3)?)),
        _ => None,
    }
}
