//! The texts of values.
ghost use Rattle.std.specs.Prelude.{◌≡◌, ◌++◌, flat_map, codes, OnOk, string_bytes};
ghost use Rattle.hpr_report.specs.Texts.{comma_number, numbers_text, element_text, comma_element, elements_text, value_text};

use hpr_run::Value;
use std::alloc::AllocError;

/// Puts the text of a value behind a text: a number as it is; a list in brackets, a comma between each two of its
/// numbers; and an array in braces, as `{0:6,3:5}`, of which the elements that aren't 0 stand there, ascending.
#[tactic(auto, unfolding(crate::specs::Texts::value_text))]
pub(crate) fn put_value_text(text: &mut String, value: &Value) -> Result<(), AllocError>
    ensures { OnOk result (string_bytes text.new ≡ string_bytes text.old ++ value_text value.now) }
{
    match value {
        Value::Number(number) => write!(text, "{number}"),
        Value::List(written) => put_list(text, written.numbers()),
        Value::Array(cells) => match cells.entries() {
            Ok(entries) => put_array(text, &entries),
            Err(_) => Err(AllocError),
        },
    }
}

/// Puts the numbers in brackets.
fn put_list(text: &mut String, numbers: &[i64]) -> Result<(), AllocError>
    ensures { OnOk result (string_bytes text.new
        ≡ string_bytes text.old ++ (codes "[" ++ numbers_text numbers.now ++ codes "]")) }
{
    text.push_str("[")?;
    put_numbers(text, numbers)?;
    text.push_str("]")
}

/// Puts the numbers, a comma between each two.
fn put_numbers(text: &mut String, numbers: &[i64]) -> Result<(), AllocError>
    ensures { OnOk result (string_bytes text.new ≡ string_bytes text.old ++ numbers_text numbers.now) }
{
    match numbers.split_first() {
        Some((first, rest)) => {
            write!(text, "{first}")?;
            put_more(text, rest)
        }
        None => Ok(()),
    }
}

/// Puts each of the numbers behind a comma.
fn put_more(text: &mut String, numbers: &[i64]) -> Result<(), AllocError>
    ensures { OnOk result (string_bytes text.new ≡ string_bytes text.old ++ flat_map comma_number numbers.now) }
{
    for number in numbers {
        put_one_more(text, *number)?;
    }
    Ok(())
}

/// Puts the number behind a comma.
fn put_one_more(text: &mut String, number: i64) -> Result<(), AllocError>
    ensures { OnOk result (string_bytes text.new ≡ string_bytes text.old ++ comma_number number) }
{
    write!(text, ",{number}")
}

/// Puts the elements with their indices in braces.
fn put_array(text: &mut String, elements: &[(u16, i64)]) -> Result<(), AllocError>
    ensures { OnOk result (string_bytes text.new
        ≡ string_bytes text.old ++ (codes "{" ++ elements_text elements.now ++ codes "}")) }
{
    text.push_str("{")?;
    put_elements(text, elements)?;
    text.push_str("}")
}

/// Puts the elements with their indices, a comma between each two.
fn put_elements(text: &mut String, elements: &[(u16, i64)]) -> Result<(), AllocError>
    ensures { OnOk result (string_bytes text.new ≡ string_bytes text.old ++ elements_text elements.now) }
{
    match elements.split_first() {
        Some((first, rest)) => {
            put_element(text, *first)?;
            put_more_elements(text, rest)
        }
        None => Ok(()),
    }
}

/// Puts each of the elements behind a comma.
fn put_more_elements(text: &mut String, elements: &[(u16, i64)]) -> Result<(), AllocError>
    ensures { OnOk result (string_bytes text.new ≡ string_bytes text.old ++ flat_map comma_element elements.now) }
{
    for element in elements {
        put_one_more_element(text, *element)?;
    }
    Ok(())
}

/// Puts the element behind a comma.
fn put_one_more_element(text: &mut String, element: (u16, i64)) -> Result<(), AllocError>
    ensures { OnOk result (string_bytes text.new ≡ string_bytes text.old ++ comma_element element) }
{
    text.push_str(",")?;
    put_element(text, element)
}

/// Puts the index of an element, a colon and the element.
fn put_element(text: &mut String, element: (u16, i64)) -> Result<(), AllocError>
    ensures { OnOk result (string_bytes text.new ≡ string_bytes text.old ++ element_text element) }
{
    let (at, number) = element;
    write!(text, "{at}:{number}")
}
