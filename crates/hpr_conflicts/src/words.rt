//! Sentences that say what edges mean.
ghost use Rattle.std.specs.Prelude.{◌≡◌, ◌∷◌, ◌++◌, [], IfOk, codes, map, string_bytes};
ghost use Rattle.std.specs.Fmt.{decimal};
ghost use Rattle.hpr_syntax.specs.Print.{content_text};
ghost use Rattle.hpr_conflicts.specs.Sentences.{branch_text, flow_text, gets, meaning, meaning_by};
ghost use Rattle.hpr_conflicts.specs.Sentences.{named, points_text, sentence, shown};

use hpr_graph::{Content, Edge, Kind, Name, NoMemory, Vertex};
use hpr_print::content_text;
use std::alloc::{AllocError, Global};

/// A sentence on what the edge of some conflicts of the variant in this file means, and to which points it matters beside
/// the other changes alone: to the points of these conflicts, into whose slices it comes there. Three of them at most are
/// named. A part of the variant is named by its tag, and what may have another content there with what it says. It fails
/// only for want of memory.
#[tactic(auto, unfolding(crate::specs::Sentences::sentence))]
pub fn sentence(
    alloc: Global,
    file: &str,
    edge: &Edge,
    points: &[&Vertex],
) -> Result<String, NoMemory>
    ensures { IfOk result (λ s. string_bytes s ≡ sentence file.now edge.now (map (λ p. p.now) points.now)) }
{
    let what = meaning(alloc, &edge.kind, &edge.from, &edge.to)?;
    let whom = points_text(alloc, points)?;
    Ok(format!(in alloc;
        "beside the other changes, and not in {file} alone, this matters to {whom}: {what}"
    )?)
}

/// What an edge of this kind between these vertices says.
#[tactic(auto, unfolding(crate::specs::Sentences::meaning_by))]
fn meaning(alloc: Global, kind: &Kind, from: &Vertex, to: &Vertex) -> Result<String, NoMemory>
    ensures { IfOk result (λ s. string_bytes s ≡ meaning_by kind.now from.now to.now) }
{
    match kind {
        Kind::Control(label) => control_text(alloc, *label, from, to),
        Kind::Independent(name) => flow_text(alloc, name, from, to),
        Kind::Carried(name, by) => carried_text(alloc, name, by, from, to),
        Kind::Order(used) => order_text(alloc, used, from, to),
    }
}

#[tactic(auto, unfolding(crate::specs::Sentences::meaning_by))]
fn control_text(alloc: Global, label: bool, from: &Vertex, to: &Vertex) -> Result<String, NoMemory>
    ensures { IfOk result (λ s. string_bytes s ≡ meaning_by (Kind.Control label) from.now to.now) }
{
    let target = named(alloc, to)?;
    let branch = branch_text(alloc, label, from)?;
    Ok(format!(in alloc; "{target} stands in {branch}")?)
}

/// Where the test of a vertex comes out so.
#[tactic(auto, unfolding(crate::specs::Sentences::branch_text))]
fn branch_text(alloc: Global, label: bool, vertex: &Vertex) -> Result<String, NoMemory>
    ensures { IfOk result (λ s. string_bytes s ≡ branch_text label vertex.now) }
{
    let test = shown(alloc, vertex)?;
    if !label {
        return Ok(format!(in alloc; "the false branch of {test}")?);
    }
    match vertex {
        Vertex::Entry => Ok(String::from_str(alloc, "no branch")?),
        _ => Ok(format!(in alloc; "the true branch of {test}")?),
    }
}

#[tactic(auto, unfolding(crate::specs::Sentences::flow_text))]
fn flow_text(alloc: Global, name: &Name, from: &Vertex, to: &Vertex) -> Result<String, NoMemory>
    ensures { IfOk result (λ s. string_bytes s ≡ flow_text name.now from.now to.now) }
{
    let target = named(alloc, to)?;
    let gets = gets(alloc, to, name)?;
    let source = shown(alloc, from)?;
    Ok(format!(in alloc; "{target} {gets} from {source}")?)
}

#[tactic(auto, unfolding(crate::specs::Sentences::meaning_by))]
fn carried_text(
    alloc: Global,
    name: &Name,
    by: &Vertex,
    from: &Vertex,
    to: &Vertex,
) -> Result<String, NoMemory>
    ensures { IfOk result (λ s. string_bytes s ≡ meaning_by (Kind.Carried name.now by.now) from.now to.now) }
{
    let flow = flow_text(alloc, name, from, to)?;
    let carrier = shown(alloc, by)?;
    Ok(format!(in alloc; "{flow} of an earlier turn of {carrier}")?)
}

#[tactic(auto, unfolding(crate::specs::Sentences::meaning_by))]
fn order_text(alloc: Global, used: &Vertex, from: &Vertex, to: &Vertex) -> Result<String, NoMemory>
    ensures { IfOk result (λ s. string_bytes s ≡ meaning_by (Kind.Order used.now) from.now to.now) }
{
    let left = shown(alloc, from)?;
    let right = named(alloc, to)?;
    let user = shown(alloc, used)?;
    Ok(format!(in alloc; "{left} comes before {right}, and both reach {user}")?)
}

/// How a vertex gets a name.
#[tactic(auto, unfolding(crate::specs::Sentences::gets))]
fn gets(alloc: Global, vertex: &Vertex, name: &Name) -> Result<String, AllocError>
    ensures { IfOk result (λ s. string_bytes s ≡ gets vertex.now name.now) }
{
    match vertex {
        Vertex::Final(_) => String::from_str(alloc, "comes"),
        _ => format!(in alloc; "reads {name}"),
    }
}

/// Three of the points at most, and the number of the rest.
#[tactic(auto, unfolding(crate::specs::Sentences::points_text))]
fn points_text(alloc: Global, points: &[&Vertex]) -> Result<String, NoMemory>
    ensures { IfOk result (λ s. string_bytes s ≡ points_text (map (λ p. p.now) points.now)) }
{
    match points {
        [] => Ok(String::new(alloc)),
        [a] => Ok(named(alloc, a)?),
        [a, b] => two_text(alloc, a, b),
        [a, b, c] => three_text(alloc, a, b, c),
        [a, b, c, rest @ ..] => more_text(alloc, a, b, c, rest.len()),
    }
}

#[tactic(auto, unfolding(crate::specs::Sentences::points_text))]
fn two_text(alloc: Global, a: &Vertex, b: &Vertex) -> Result<String, NoMemory>
    ensures { IfOk result (λ s. string_bytes s ≡ points_text (a.now ∷ b.now ∷ [])) }
{
    let first = named(alloc, a)?;
    let second = named(alloc, b)?;
    Ok(format!(in alloc; "{first} and {second}")?)
}

#[tactic(auto, unfolding(crate::specs::Sentences::points_text))]
fn three_text(alloc: Global, a: &Vertex, b: &Vertex, c: &Vertex) -> Result<String, NoMemory>
    ensures { IfOk result (λ s. string_bytes s ≡ points_text (a.now ∷ b.now ∷ c.now ∷ [])) }
{
    let first = named(alloc, a)?;
    let second = named(alloc, b)?;
    let third = named(alloc, c)?;
    Ok(format!(in alloc; "{first}, {second} and {third}")?)
}

fn more_text(
    alloc: Global,
    a: &Vertex,
    b: &Vertex,
    c: &Vertex,
    more: usize,
) -> Result<String, NoMemory>
    ensures { IfOk result (λ s. string_bytes s ≡ named a.now ++ codes ", " ++ named b.now ++ codes ", "
        ++ named c.now ++ codes " and " ++ decimal more ++ codes " more") }
{
    let first = named(alloc, a)?;
    let second = named(alloc, b)?;
    let third = named(alloc, c)?;
    Ok(format!(in alloc; "{first}, {second}, {third} and {more} more")?)
}

/// A vertex of the variant: a part by its tag.
#[tactic(auto, unfolding(crate::specs::Sentences::named))]
fn named(alloc: Global, vertex: &Vertex) -> Result<String, AllocError>
    ensures { IfOk result (λ s. string_bytes s ≡ named vertex.now) }
{
    match vertex {
        Vertex::Entry => String::from_str(alloc, "the program"),
        Vertex::Init(name) => format!(in alloc; "the start value of {name}"),
        Vertex::Part(tag, _) => tag.to_string(alloc),
        Vertex::Final(name) => format!(in alloc; "the final value of {name}"),
    }
}

/// Any vertex: a part by its tag, with what it says.
#[tactic(auto, unfolding(crate::specs::Sentences::shown))]
fn shown(alloc: Global, vertex: &Vertex) -> Result<String, NoMemory>
    ensures { IfOk result (λ s. string_bytes s ≡ shown vertex.now) }
{
    match vertex {
        Vertex::Part(tag, content) => {
            let said = content_words(alloc, content)?;
            Ok(format!(in alloc; "{tag} ({said})")?)
        }
        _ => Ok(named(alloc, vertex)?),
    }
}

/// What a part says.
fn content_words(alloc: Global, content: &Content) -> Result<String, NoMemory>
    ensures { IfOk result (λ text. string_bytes text ≡ content_text content.now) }
{
    match String::from_utf8(content_text(alloc, content)?) {
        Ok(text) => Ok(text),
        Err(_) => unreachable!(),
    }
}
