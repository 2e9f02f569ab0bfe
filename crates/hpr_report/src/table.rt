//! The table of final values.
ghost use Rattle.std.specs.Prelude.{◌≡◌, ◌++◌, ◌↔◌, ◌<◌, ℕ, List, Some, Contains, IfOk, IfNone, IfSome, OnOk, codes, length, map, set, string_bytes};
ghost use Rattle.std.specs.Cmp.Lexicographic.{slice_cmp};
ghost use Rattle.std.specs.List.Sorted.{IsStrictlySortedBy};
ghost use Rattle.std.specs.Option.{option_copied};
ghost use Rattle.std.specs.Ordering.{nat_cmp};
ghost use Rattle.hpr_report.specs.TableText.{names_in, IsSingleValued, IsColumn, cell_text, table_line, IsTableText};

use crate::graphs::put_line;
use crate::values::put_value_text;
use hpr_run::Value;
use hpr_syntax::{Name, NoMemory};
use hpr_terms::names::{in_order, place_of};
use std::alloc::{AllocError, Global};

/// The table of the final values of a base, its variants A and B, and the merged program: a line
/// `NAME: BASE A B MERGED` for each name that stands in one of the lists, in the order of their bytes.
/// Each of the four is the list's value of the name, or `-` where the list lacks the name. Each line ends
/// with a newline. No name has two values in one list. It fails only for want of memory. The form
/// is defined here alone.
pub fn table_text(
    alloc: Global,
    base: &[(Name, Value)],
    a: &[(Name, Value)],
    b: &[(Name, Value)],
    merged: &[(Name, Value)],
) -> Result<Vec<u8>, NoMemory>
    requires base { IsSingleValued base.now }
    requires a { IsSingleValued a.now }
    requires b { IsSingleValued b.now }
    requires merged { IsSingleValued merged.now }
    ensures { IfOk result (λ text. IsTableText base.now a.now b.now merged.now text.items) }
{
    let names = names_in_order(alloc, base, a, b, merged)?;
    let base = column(alloc, &names, base)?;
    let a = column(alloc, &names, a)?;
    let b = column(alloc, &names, b)?;
    let merged = column(alloc, &names, merged)?;
    let mut out = Vec::new(alloc);
    for (at, name) in names.iter().enumerate() {
        let line = table_line(alloc, name, base[at], a[at], b[at], merged[at])?;
        put_line(&mut out, line.as_str())?;
    }
    Ok(out)
}

/// The names that stand in one of the lists, each once.
fn names_in_order(
    alloc: Global,
    base: &[(Name, Value)],
    a: &[(Name, Value)],
    b: &[(Name, Value)],
    merged: &[(Name, Value)],
) -> Result<Vec<Name>, NoMemory>
    ensures names { IfOk result (λ names. (x : List ℕ)
        → Contains names.items x ↔ Contains (names_in base.now ++ names_in a.now ++ names_in b.now
        ++ names_in merged.now) x) }
    ensures ascending { IfOk result (λ names. IsStrictlySortedBy (slice_cmp nat_cmp) names.items) }
{
    let mut names = Vec::new(alloc);
    push_all(alloc, &mut names, base, a, b, merged)?;
    in_order(names)
}

/// Pushes a copy of each name of four lists.
fn push_all(
    alloc: Global,
    names: &mut Vec<Name>,
    base: &[(Name, Value)],
    a: &[(Name, Value)],
    b: &[(Name, Value)],
    merged: &[(Name, Value)],
) -> Result<(), NoMemory>
    ensures { OnOk result (names.new.items ≡ names.old.items
        ++ (names_in base.now ++ names_in a.now ++ names_in b.now ++ names_in merged.now)) }
{
    push_names(alloc, names, base)?;
    push_names(alloc, names, a)?;
    push_names(alloc, names, b)?;
    push_names(alloc, names, merged)
}

/// Pushes a copy of each name of a list.
fn push_names(
    alloc: Global,
    names: &mut Vec<Name>,
    values: &[(Name, Value)],
) -> Result<(), NoMemory>
    ensures { OnOk result (names.new.items ≡ names.old.items ++ names_in values.now) }
{
    for (name, _) in values {
        names.push(name.copy(alloc)?)?;
    }
    Ok(())
}

/// The value of each name in a list, or none where the list lacks the name. The names ascend. Each name of the list is
/// sought among them once.
fn column<'a>(
    alloc: Global,
    names: &[Name],
    values: &'a [(Name, Value)],
) -> Result<Vec<Option<&'a Value>>, NoMemory>
    requires names { IsStrictlySortedBy (slice_cmp nat_cmp) names.now }
    requires values { IsSingleValued values.now }
    ensures { IfOk result (λ cells. IsColumn names.now values.now (map option_copied cells.items)) }
{
    let mut cells = Vec::new(alloc);
    cells.resize(names.len(), None)?;
    for (name, value) in values {
        let place = place_of(names, name);
        fill(&mut cells, place, value);
    }
    Ok(cells)
}

/// Puts the value into the cell at this place, if there is a place.
fn fill<'a>(cells: &mut Vec<Option<&'a Value>>, place: Option<usize>, value: &'a Value)
    requires { IfSome place (λ at. at < length cells.old.items) }
    ensures filled { IfSome place (λ at. map option_copied cells.new.items
        ≡ set (map option_copied cells.old.items) at (Some value.now)) }
    ensures none { IfNone place (map option_copied cells.new.items ≡ map option_copied cells.old.items) }
{
    if let Some(at) = place {
        cells[at] = Some(value);
    }
}

/// The line of a name with these cells.
fn table_line(
    alloc: Global,
    name: &Name,
    base: Option<&Value>,
    a: Option<&Value>,
    b: Option<&Value>,
    merged: Option<&Value>,
) -> Result<String, NoMemory>
    ensures { IfOk result (λ text. string_bytes text ≡ table_line (record {
      name = name.now;
      base = option_copied base.entry;
      a = option_copied a.entry;
      b = option_copied b.entry;
      merged = option_copied merged.entry;
    })) }
{
    let mut line = name.to_string(alloc)?;
    put_cells(&mut line, base, a, b, merged)?;
    Ok(line)
}

/// Puts the four cells of a line behind a text.
fn put_cells(
    line: &mut String,
    base: Option<&Value>,
    a: Option<&Value>,
    b: Option<&Value>,
    merged: Option<&Value>,
) -> Result<(), AllocError>
    ensures { OnOk result (string_bytes line.new ≡ string_bytes line.old
        ++ (codes ": " ++ cell_text (option_copied base.entry) ++ codes " " ++ cell_text (option_copied a.entry) ++ codes " "
        ++ cell_text (option_copied b.entry) ++ codes " " ++ cell_text (option_copied merged.entry))) }
{
    put_cell(line, ": ", base)?;
    put_cell(line, " ", a)?;
    put_cell(line, " ", b)?;
    put_cell(line, " ", merged)
}

/// Puts a cell behind a text.
fn put_cell(line: &mut String, before: &str, cell: Option<&Value>) -> Result<(), AllocError>
    ensures { OnOk result (string_bytes line.new ≡ string_bytes line.old ++ before.now ++ cell_text (option_copied cell.entry)) }
{
    line.push_str(before)?;
    match cell {
        Some(value) => put_value_text(line, value),
        None => line.push_str("-"),
    }
}
