//! The vertices that words name.
ghost use Rattle.std.specs.Prelude.{◌≡◌, ◌↔◌, List, map, Contains, IfOk, IsTrue, OnOk, string_bytes};
ghost use Rattle.hpr_words.specs.Request.{Text};
ghost use Rattle.hpr_inputs.specs.Points.{point_text};
ghost use Rattle.hpr_inputs.specs.ReadsPoints.{AddsText, AreNumbersIn, HasTexts, JudgesPoints, ReadsPoints};

use crate::answer::Stop;
use hpr_graph::{Graph, Vertex};
use hpr_refusals::about;
use hpr_syntax::NoMemory;
use std::alloc::{AllocError, Global};
use std::collections::BTreeSet;

/// The numbers of the vertices of a graph that the words name: `entry`, `init:x` and `final:x`, where an array has
/// its `[]` as at `end`, and a part by its tag. The first word that names none, from the left, is what the message
/// names.
pub fn read_points(alloc: Global, graph: &Graph, words: &[&str]) -> Result<Vec<usize>, Stop>
    ensures { ReadsPoints graph.now (map (λ w. w.now) words.now) result }
{
    refuse_strangers(alloc, graph.vertices(), words)?;
    Ok(numbers_among(alloc, graph.vertices(), words)?)
}

/// The word for a vertex.
fn point_text(alloc: Global, vertex: &Vertex) -> Result<String, AllocError>
    ensures { IfOk result (λ text. string_bytes text ≡ point_text vertex.now) }
{
    match vertex {
        Vertex::Entry => String::from_str(alloc, "entry"),
        Vertex::Init(name) => format!(in alloc; "init:{name}"),
        Vertex::Part(tag, _) => tag.to_string(alloc),
        Vertex::Final(name) => format!(in alloc; "final:{name}"),
    }
}

/// One more text in the set.
fn insert(set: &mut BTreeSet<String>, text: String) -> Result<(), NoMemory>
    ensures { OnOk result (AddsText set.old set.new (string_bytes text)) }
{
    set.insert(text)?;
    Ok(())
}

/// The words for these vertices.
fn point_set(alloc: Global, vertices: &[Vertex]) -> Result<BTreeSet<String>, NoMemory>
    ensures { IfOk result (λ set. HasTexts set (map point_text vertices.now)) }
{
    let mut set = BTreeSet::new(alloc);
    for vertex in vertices {
        insert(&mut set, point_text(alloc, vertex)?)?;
    }
    Ok(set)
}

/// A set of these words.
fn word_set(alloc: Global, words: &[&str]) -> Result<BTreeSet<String>, NoMemory>
    ensures { IfOk result (λ set. HasTexts set (map (λ w. w.now) words.now)) }
{
    let mut set = BTreeSet::new(alloc);
    for word in words {
        insert(&mut set, String::from_str(alloc, word)?)?;
    }
    Ok(set)
}

/// Whether the text is in the set.
fn has(set: &BTreeSet<String>, text: &String) -> bool
    ensures { (texts : List Text) → HasTexts set.now texts → IsTrue result ↔ Contains texts (string_bytes text.now) }
{
    set.contains(text)
}

/// Refuses the first word that is none of those for the vertices.
fn refuse_strangers(alloc: Global, vertices: &[Vertex], words: &[&str]) -> Result<(), Stop>
    ensures { JudgesPoints (Contains (map point_text vertices.now)) (map (λ w. w.now) words.now) result }
{
    let points = point_set(alloc, vertices)?;
    for word in words {
        let text = String::from_str(alloc, word)?;
        if !has(&points, &text) {
            let message = about(alloc, word, "no such point")?;
            return Err(Stop::Refused(message));
        }
    }
    Ok(())
}

/// The numbers of the vertices for which one of the words is.
fn numbers_among(alloc: Global, vertices: &[Vertex], words: &[&str]) -> Result<Vec<usize>, NoMemory>
    ensures { IfOk result (λ numbers. AreNumbersIn (map point_text vertices.now)
        (map (λ w. w.now) words.now) numbers.items) }
{
    let named = word_set(alloc, words)?;
    let mut numbers = Vec::new(alloc);
    for (at, vertex) in vertices.iter().enumerate() {
        let text = point_text(alloc, vertex)?;
        if has(&named, &text) {
            numbers.push(at)?;
        }
    }
    Ok(numbers)
}
