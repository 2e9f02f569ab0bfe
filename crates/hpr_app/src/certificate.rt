//! What shows that an offered program isn't the merged one, as JSON.
ghost use Rattle.std.specs.Prelude.{◌≡◌, IfOk, OnOk, string_bytes};
ghost use Rattle.serde_json.specs.Data.{no_members, object, put as with_member, string};
ghost use Rattle.serde_json.specs.View.{members_view, view};
ghost use Rattle.hpr_report.specs.ConflictsText.{side_word};
ghost use Rattle.hpr_verify.specs.declared.verdict.Verdict.TheVariants as verdicts;
ghost use Rattle.hpr_decisions.specs.VerifyFiles.{certificate_data, certificate_text, holder_word};

use hpr_graph::{Conflict, Edge, NoMemory, Side, Vertex};
use hpr_report::{edge_words, vertex_words};
use hpr_verify::{Holder, Verdict};
use serde_json::{Map, Value, put};
use std::alloc::{AllocError, Global};

/// What shows that an offered program isn't the merged one: one JSON object in compact text and a newline.
/// Its member `kind` is `conflict`, `vertex` or `edge`. A conflict has its `side`, its `point` and the
/// `edge` that shows it, and a vertex or an edge its text, with its `holder`: `offered` or `merged`. Vertices
/// stand without their brackets, and members in ascending order of their keys. Of a verdict that the
/// program is the merged one the object has no member. It fails only for want of memory. The form is
/// defined here alone.
pub fn certificate_json(alloc: Global, verdict: &Verdict) -> Result<Vec<u8>, NoMemory>
    ensures { IfOk result (λ text. text.items ≡ certificate_text verdict.now) }
{
    let mut out = certificate_value(alloc, verdict)?.to_vec(alloc)?;
    out.push(b'\n')?;
    Ok(out)
}

/// The object of a verdict.
fn certificate_value(alloc: Global, verdict: &Verdict) -> Result<Value, NoMemory>
    ensures { IfOk result (λ value. view value ≡ certificate_data verdict.now) }
{
    let mut members = Map::new(alloc);
    put_verdict(alloc, &mut members, verdict)?;
    Ok(Value::Object(members))
}

// Each of these puts the members of a verdict into an object that has none.

fn put_verdict(
    alloc: Global,
    members: &mut Map<String, Value>,
    verdict: &Verdict,
) -> Result<(), NoMemory>
    requires { members_view members.old.entries ≡ no_members }
    ensures { OnOk result (object (members_view members.new.entries) ≡ certificate_data verdict.now) }
{
    match verdict {
        Verdict::Same => Ok(()),
        Verdict::Conflict(conflict) => put_conflict(alloc, members, conflict),
        Verdict::Vertex(vertex, holder) => put_vertex(alloc, members, vertex, *holder),
        Verdict::Edge(edge, holder) => put_edge(alloc, members, edge, *holder),
    }
}

fn put_conflict(
    alloc: Global,
    members: &mut Map<String, Value>,
    conflict: &Conflict,
) -> Result<(), NoMemory>
    requires { members_view members.old.entries ≡ no_members }
    ensures { OnOk result (object (members_view members.new.entries)
        ≡ certificate_data (verdicts.Conflict conflict.now)) }
{
    put_string(alloc, members, "edge", edge_words(alloc, &conflict.edge)?)?;
    put_word(alloc, members, "kind", "conflict")?;
    put_string(
        alloc,
        members,
        "point",
        vertex_words(alloc, &conflict.point)?,
    )?;
    Ok(put_word(alloc, members, "side", side_word(conflict.side))?)
}

fn put_vertex(
    alloc: Global,
    members: &mut Map<String, Value>,
    vertex: &Vertex,
    holder: Holder,
) -> Result<(), NoMemory>
    requires { members_view members.old.entries ≡ no_members }
    ensures { OnOk result (object (members_view members.new.entries)
        ≡ certificate_data (verdicts.Vertex vertex.now holder)) }
{
    put_word(alloc, members, "holder", holder_word(holder))?;
    put_word(alloc, members, "kind", "vertex")?;
    Ok(put_string(alloc, members, "vertex", vertex_words(alloc, vertex)?)?)
}

fn put_edge(
    alloc: Global,
    members: &mut Map<String, Value>,
    edge: &Edge,
    holder: Holder,
) -> Result<(), NoMemory>
    requires { members_view members.old.entries ≡ no_members }
    ensures { OnOk result (object (members_view members.new.entries)
        ≡ certificate_data (verdicts.Edge edge.now holder)) }
{
    put_string(alloc, members, "edge", edge_words(alloc, edge)?)?;
    put_word(alloc, members, "holder", holder_word(holder))?;
    Ok(put_word(alloc, members, "kind", "edge")?)
}

/// Puts a member that is a word.
fn put_word(
    alloc: Global,
    members: &mut Map<String, Value>,
    key: &str,
    word: &str,
) -> Result<(), AllocError>
    ensures { OnOk result (members_view members.new.entries
        ≡ with_member key.now (string word.now) (members_view members.old.entries)) }
{
    put_string(alloc, members, key, String::from_str(alloc, word)?)
}

/// Puts a member that is a text.
fn put_string(
    alloc: Global,
    members: &mut Map<String, Value>,
    key: &str,
    text: String,
) -> Result<(), AllocError>
    ensures { OnOk result (members_view members.new.entries
        ≡ with_member key.now (string (string_bytes text)) (members_view members.old.entries)) }
{
    put(members, alloc, key, Value::String(text))
}

fn side_word(side: Side) -> &'static str
    ensures { result.now ≡ side_word side }
{
    match side {
        Side::A => "A",
        Side::B => "B",
    }
}

fn holder_word(holder: Holder) -> &'static str
    ensures { result.now ≡ holder_word holder }
{
    match holder {
        Holder::Offered => "offered",
        Holder::Merged => "merged",
    }
}
