//! Where the parts of a program stand, as data.
ghost use Rattle.std.specs.Prelude.{◌≡◌, ◌⊎◌, [], IfOk, codes, false, map};
ghost use Rattle.serde_json.specs.View.{view};
ghost use Rattle.serde_json.specs.Written.{has_float};
ghost use Rattle.hpr_json.specs.Answers.{json_line};
ghost use Rattle.hpr_json.specs.Refusals.{refusal_data};
ghost use Rattle.hpr_c.specs.Places.{TellsPlaces, TellsRefusal, place_data, places_data};

use crate::call::MEMORY;
use crate::line::Line;
use hpr_json::{json_line, refusal_value};
use hpr_places::{Placed, places};
use hpr_refusals::Refusal;
use hpr_syntax::NoMemory;
use hpr_terms::limits::MAX_FILE;
use hpr_text::TextError;
use serde_json::{Map, Value, put};
use std::alloc::{AllocError, Global};

/// The number of a call that tells places.
const DONE: u32 = 0;

/// The number of a call whose text is refused.
const REFUSED: u32 = 4;

/// What messages call the text.
const NAME: &str = "text";

/// Tells where the parts of the program in a text stand, or why it is refused.
pub(crate) fn tell_places(alloc: Global, text: &[u8]) -> Line
    ensures number { (result.number ≡ 0) ⊎ (result.number ≡ 4) ⊎ (result.number ≡ 8) }
    ensures places { result.number ≡ 0 → TellsPlaces text.now result.text.items }
    ensures refused { result.number ≡ 4 → TellsRefusal text.now result.text.items }
    ensures memory { result.number ≡ 8 → result.text.items ≡ [] }
{
    match tell_text(alloc, text) {
        Ok(line) => line,
        Err(_) => Line::empty(alloc, MEMORY),
    }
}

/// The same, where there is memory for it. A text that is too long is not read.
fn tell_text(alloc: Global, text: &[u8]) -> Result<Line, NoMemory>
    ensures number { IfOk result (λ line. (line.number ≡ 0) ⊎ (line.number ≡ 4)) }
    ensures places { IfOk result (λ line. line.number ≡ 0 → TellsPlaces text.now line.text.items) }
    ensures refused { IfOk result (λ line. line.number ≡ 4 → TellsRefusal text.now line.text.items) }
{
    if text.len() > MAX_FILE {
        return refused_line(alloc, &Refusal::Longer);
    }
    match places(alloc, text) {
        Ok(found) => places_line(alloc, &found),
        Err(TextError::Syntax { place }) => refused_line(alloc, &Refusal::Syntax { place }),
        Err(TextError::Shape(error)) => refused_line(alloc, &Refusal::Shape(error)),
        Err(TextError::Memory) => Err(NoMemory),
    }
}

/// The line that tells why the text is refused.
fn refused_line(alloc: Global, why: &Refusal) -> Result<Line, NoMemory>
    ensures number { IfOk result (λ line. line.number ≡ 4) }
    ensures text { IfOk result (λ line. line.text.items ≡ json_line (refusal_data (codes "text") why.now)) }
{
    let value = refusal_value(alloc, NAME, why)?;
    let text = json_line(alloc, &value)?;
    Ok(Line {
        number: REFUSED,
        text,
    })
}

/// The line that tells these places.
fn places_line(alloc: Global, found: &[Placed]) -> Result<Line, NoMemory>
    ensures number { IfOk result (λ line. line.number ≡ 0) }
    ensures text { IfOk result (λ line. line.text.items ≡ json_line (places_data found.now)) }
{
    let value = places_value(alloc, found)?;
    let text = json_line(alloc, &value)?;
    Ok(Line { number: DONE, text })
}

fn places_value(alloc: Global, found: &[Placed]) -> Result<Value, NoMemory>
    ensures data { IfOk result (λ value. view value ≡ places_data found.now) }
    ensures whole { IfOk result (λ value. has_float (view value) ≡ false) }
{
    Ok(Value::Array(place_values(alloc, found)?))
}

/// The object of each place.
fn place_values(alloc: Global, found: &[Placed]) -> Result<Vec<Value>, AllocError>
    ensures { IfOk result (λ values. map view values.items ≡ map place_data found.now) }
{
    let mut values = Vec::new(alloc);
    for placed in found {
        values.push(place_value(alloc, *placed)?)?;
    }
    Ok(values)
}

fn place_value(alloc: Global, placed: Placed) -> Result<Value, AllocError>
    ensures { IfOk result (λ value. view value ≡ place_data placed) }
{
    let place = placed.place;
    let tag = placed.tag.to_string(alloc)?;
    let mut members = Map::new(alloc);
    put(&mut members, alloc, "byte", Value::from(place.first))?;
    put(&mut members, alloc, "length", Value::from(place.length))?;
    put(&mut members, alloc, "tag", Value::from(tag))?;
    Ok(Value::Object(members))
}
