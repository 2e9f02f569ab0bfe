//! Calls of the names of hpr_terms.
use hpr_rows::{Out, Row, name_of, put, put_counted, put_names, truth};
use hpr_terms::{Name, copy_names, is_array, is_name, is_name_like, names};
use std::alloc::Global;

/// Answers the call.
pub(crate) fn call(row: Row<'_>, out: &mut Out) -> Option<()> {
    match row.word(1)? {
        "names" => put_lines(row, out),
        "arrays" => put_arrays(row, out),
        "stream" => put_stream(row, out)?,
        "kind" => put_kind(row, out)?,
        _ => order(row, out)?,
    }
    Some(())
}

// Whether the text and a copy of the name are those of the name.
fn is_kept(alloc: Global, name: &Name, text: &str) -> bool {
    match name.copy(alloc) {
        Ok(copy) => copy.is_same(name) && name.text() == text,
        Err(_) => false,
    }
}

fn is_taken(alloc: Global, text: &str) -> bool {
    match Name::new(alloc, text) {
        Ok(name) => is_kept(alloc, &name, text),
        Err(_) => false,
    }
}

fn put_line(alloc: Global, out: &mut Out, text: &str) {
    let taken = truth(is_taken(alloc, text));
    let name = truth(is_name(text.as_bytes()));
    let like = truth(is_name_like(text.as_bytes()));
    out.put_piece(text);
    put(
        out,
        &[
            ": taken ",
            taken,
            ", a name ",
            name,
            ", like one ",
            like,
            "\n",
        ],
    );
}

// `names WORD..`: which words are names.
fn put_lines(row: Row<'_>, out: &mut Out) {
    for word in row.rest(2) {
        put_line(row.alloc, out, word.as_str());
    }
}

fn put_array(out: &mut Out, text: &str) {
    out.put_piece(text);
    put(
        out,
        &[": an array ", truth(is_array(text.as_bytes())), "\n"],
    );
}

// `arrays WORD..`: which words are names of arrays.
fn put_arrays(row: Row<'_>, out: &mut Out) {
    for word in row.rest(2) {
        put_array(out, word.as_str());
    }
}

fn put_kind_of(out: &mut Out, name: &Name) {
    out.put_piece(name.text());
    put(out, &[": plain ", truth(name.is_plain())]);
    put(out, &[", an array ", truth(name.is_array()), ", base "]);
    out.put_piece(name.base());
    out.put_piece("\n");
}

// `kind NAME`: whether the name is plain or an array's, and with which name it is written.
fn put_kind(row: Row<'_>, out: &mut Out) -> Option<()> {
    let name = row.name(2)?;
    put_kind_of(out, &name);
    Some(())
}

// `stream NAME`: the text of the name, and whether it is the stream's.
fn put_stream(row: Row<'_>, out: &mut Out) -> Option<()> {
    let name = row.name(2)?;
    put(
        out,
        &[name.text(), ": the stream ", truth(name.is_stream()), "\n"],
    );
    Some(())
}

fn push_name(alloc: Global, names: &mut Vec<Name>, word: &str) -> Option<()> {
    names.push(name_of(alloc, word)?).ok()
}

fn names_of(alloc: Global, words: &[String]) -> Option<Vec<Name>> {
    let mut names = Vec::new(alloc);
    for word in words {
        push_name(alloc, &mut names, word.as_str())?;
    }
    Some(names)
}

fn is_copied(alloc: Global, names: &Vec<Name>) -> bool {
    match copy_names(alloc, names) {
        Ok(copies) => copies == *names,
        Err(_) => false,
    }
}

fn put_place(out: &mut Out, place: Option<usize>) {
    match place {
        Some(at) => {
            put_counted(out, "Some(", at);
            out.put_piece(")");
        }
        None => out.put_piece("None"),
    }
}

fn put_order(out: &mut Out, names: Vec<Name>, name: &Name) -> Option<()> {
    let ascending = names::in_order(names).ok()?;
    let among = truth(names::is_among(&ascending, name));
    put(out, &[", among ", among, ", place "]);
    put_place(out, names::place_of(&ascending, name));
    put_names(out, ":", &ascending);
    Some(())
}

fn ordered(row: Row<'_>, out: &mut Out, name: &Name) -> Option<()> {
    let names = names_of(row.alloc, row.rest(3))?;
    put(out, &["copied ", truth(is_copied(row.alloc, &names))]);
    put_order(out, names, name)
}

// `order NAME NAME..`: the further names in order, and where the first one stands among them.
fn order(row: Row<'_>, out: &mut Out) -> Option<()> {
    let name = row.name(2)?;
    ordered(row, out, &name)
}
