//! The commands: each has its own reply.
ghost use Rattle.std.specs.Prelude.{◌≡◌, ◌≢◌, ◌≤◌, ◌∷◌, ℕ, All, List, Some, IfOk, IsTrue, length, map};
ghost use Rattle.hpr_terms.specs.declared.limits.TheConstants.{MAX_VARIANTS};
ghost use Rattle.hpr_words.specs.Request.{Text};
ghost use Rattle.hprkit_words.specs.Ask.{IsInRange, affected, conflicts, format, graph, impact, merge, place, tag};
ghost use Rattle.hprkit_words.specs.Asked.{ask_of};
ghost use Rattle.hpr_kit.specs.Answer.{prints};
ghost use Rattle.hpr_kit.specs.Comes.{Comes, MayRead, Names};
ghost use Rattle.hpr_kit.specs.Private.Graphs.{Halts};
ghost use Rattle.hpr_kit.specs.Private.Replies.{Decides, seen};

use crate::affected::affected_reply;
use crate::at::place_bytes;
use crate::canonical::format_bytes;
use crate::conflicts::{conflicts_reply, with_base};
use crate::fetch::fetch;
use crate::graphs::graph_reply;
use crate::impact::impact_reply;
use crate::load::{Halt, load, load_all, settle};
use crate::merge::merge_reply;
use crate::reply::{HELP, Reply, Stop, VERSION, prints};
use crate::status::Status;
use crate::tag::tag_bytes;
use hpr_io::Shelf;
use hpr_syntax::NoMemory;
use hprkit_words::{Asked, FormatForm, GraphForm, ImpactForm};
use std::alloc::Global;

/// The reply to what is asked.
pub(crate) fn decide<S: Shelf>(
    alloc: Global,
    asked: Asked<'_>,
    shelf: &mut S,
) -> Result<Reply, Stop>
    requires names { (name : Text) → Names (Some (ask_of asked)) name → IsTrue (S.serves shelf.old name) }
    requires in_range { IsInRange (ask_of asked) }
    ensures decides { Decides (ask_of asked.entry) (S.files shelf.old)
        (S.faults shelf.old) (S.faults shelf.new) result }
    ensures taken { IfOk result (λ reply. (seen reply).status ≢ Status.Words) }
    ensures same_files { S.files shelf.new ≡ S.files shelf.old }
    ensures same_names { (n : List ℕ) → S.serves shelf.new n ≡ S.serves shelf.old n }
{
    match asked {
        Asked::Help => Ok(printed(alloc, HELP)?),
        Asked::Version => Ok(printed(alloc, VERSION)?),
        Asked::Format { file, form } => format_file(alloc, file, form, shelf),
        Asked::At { file, byte } => place_file(alloc, file, byte, shelf),
        Asked::Tag { file, author, keep } => tag_file(alloc, file, author, keep, shelf),
        Asked::Graph { file, form } => settle(graph_file(alloc, file, form, shelf)),
        Asked::Impact { file, points, form } => {
            settle(impact_file(alloc, file, points.as_slice(), form, shelf))
        }
        Asked::Affected { base, variant } => settle(affected_files(alloc, base, variant, shelf)),
        Asked::Conflicts { base, variants } => {
            settle(conflicts_files(alloc, base, variants.as_slice(), shelf))
        }
        Asked::Merge {
            base,
            variants,
            tries,
        } => settle(merge_files(alloc, base, variants.as_slice(), tries, shelf)),
    }
}

/// The reply that prints these bytes.
fn printed(alloc: Global, bytes: &[u8]) -> Result<Reply, NoMemory>
    ensures { IfOk result (λ reply. seen reply ≡ prints bytes.now) }
{
    Ok(prints(alloc, Vec::from_slice(alloc, bytes)?))
}

fn format_file<S: Shelf>(
    alloc: Global,
    file: &str,
    form: FormatForm,
    shelf: &mut S,
) -> Result<Reply, Stop>
    requires { IsTrue (S.serves shelf.old file.now) }
    ensures decides { Decides (format file.now form) (S.files shelf.old)
        (S.faults shelf.old) (S.faults shelf.new) result }
    ensures taken { IfOk result (λ reply. (seen reply).status ≢ Status.Words) }
    ensures same_files { S.files shelf.new ≡ S.files shelf.old }
    ensures same_names { (n : List ℕ) → S.serves shelf.new n ≡ S.serves shelf.old n }
{
    let bytes = fetch(alloc, file, shelf)?;
    Ok(format_bytes(alloc, file, bytes.as_slice(), form)?)
}

fn place_file<S: Shelf>(alloc: Global, file: &str, byte: u64, shelf: &mut S) -> Result<Reply, Stop>
    requires { IsTrue (S.serves shelf.old file.now) }
    ensures decides { Decides (place file.now byte) (S.files shelf.old)
        (S.faults shelf.old) (S.faults shelf.new) result }
    ensures taken { IfOk result (λ reply. (seen reply).status ≢ Status.Words) }
    ensures same_files { S.files shelf.new ≡ S.files shelf.old }
    ensures same_names { (n : List ℕ) → S.serves shelf.new n ≡ S.serves shelf.old n }
{
    let bytes = fetch(alloc, file, shelf)?;
    Ok(place_bytes(alloc, file, bytes.as_slice(), byte)?)
}

fn tag_file<S: Shelf>(
    alloc: Global,
    file: &str,
    author: u32,
    keep: bool,
    shelf: &mut S,
) -> Result<Reply, Stop>
    requires { IsTrue (S.serves shelf.old file.now) }
    ensures decides { Decides (tag file.now author keep) (S.files shelf.old)
        (S.faults shelf.old) (S.faults shelf.new) result }
    ensures taken { IfOk result (λ reply. (seen reply).status ≢ Status.Words) }
    ensures same_files { S.files shelf.new ≡ S.files shelf.old }
    ensures same_names { (n : List ℕ) → S.serves shelf.new n ≡ S.serves shelf.old n }
{
    let bytes = fetch(alloc, file, shelf)?;
    Ok(tag_bytes(alloc, file, bytes.as_slice(), author, keep)?)
}

fn graph_file<S: Shelf>(
    alloc: Global,
    file: &str,
    form: GraphForm,
    shelf: &mut S,
) -> Result<Reply, Halt>
    requires { IsTrue (S.serves shelf.old file.now) }
    ensures halts { Halts (λ files a. Comes (Some (graph file.now form)) files a)
        (Names (Some (graph file.now form)))
        (S.files shelf.old) (S.faults shelf.old) (S.faults shelf.new) result }
    ensures same_files { S.files shelf.new ≡ S.files shelf.old }
    ensures same_names { (n : List ℕ) → S.serves shelf.new n ≡ S.serves shelf.old n }
{
    let (_, program, source) = load(alloc, file, shelf)?;
    graph_reply(alloc, file, &program, source, form)
}

fn impact_file<S: Shelf>(
    alloc: Global,
    file: &str,
    points: &[&str],
    form: ImpactForm,
    shelf: &mut S,
) -> Result<Reply, Halt>
    requires { IsTrue (S.serves shelf.old file.now) }
    ensures halts { Halts (λ files a. Comes (Some (impact file.now (map (λ w. w.now) points.now) form)) files a)
        (Names (Some (impact file.now (map (λ w. w.now) points.now) form)))
        (S.files shelf.old) (S.faults shelf.old) (S.faults shelf.new) result }
    ensures same_files { S.files shelf.new ≡ S.files shelf.old }
    ensures same_names { (n : List ℕ) → S.serves shelf.new n ≡ S.serves shelf.old n }
{
    let (bytes, program, source) = load(alloc, file, shelf)?;
    impact_reply(
        alloc,
        file,
        bytes.as_slice(),
        &program,
        source,
        points,
        form,
    )
}

fn affected_files<S: Shelf>(
    alloc: Global,
    base: &str,
    variant: &str,
    shelf: &mut S,
) -> Result<Reply, Halt>
    requires base { IsTrue (S.serves shelf.old base.now) }
    requires variant { IsTrue (S.serves shelf.old variant.now) }
    ensures halts { Halts (λ files a. Comes (Some (affected base.now variant.now)) files a)
        (MayRead (Some (affected base.now variant.now)) (S.files shelf.old))
        (S.files shelf.old) (S.faults shelf.old) (S.faults shelf.new) result }
    ensures same_files { S.files shelf.new ≡ S.files shelf.old }
    ensures same_names { (n : List ℕ) → S.serves shelf.new n ≡ S.serves shelf.old n }
{
    let (_, base_program, _) = load(alloc, base, shelf)?;
    let (_, program, source) = load(alloc, variant, shelf)?;
    affected_reply(alloc, base, &base_program, variant, &program, source)
}

fn conflicts_files<S: Shelf>(
    alloc: Global,
    base: &str,
    variants: &[&str],
    shelf: &mut S,
) -> Result<Reply, Halt>
    requires least { 2 ≤ length variants.now }
    requires most { length variants.now ≤ MAX_VARIANTS }
    requires serves { All (λ name. IsTrue (S.serves shelf.old name)) (base.now ∷ map (λ w. w.now) variants.now) }
    ensures halts { Halts (λ files a. Comes (Some (conflicts base.now (map (λ w. w.now) variants.now))) files a)
        (MayRead (Some (conflicts base.now (map (λ w. w.now) variants.now))) (S.files shelf.old))
        (S.files shelf.old) (S.faults shelf.old) (S.faults shelf.new) result }
    ensures same_files { S.files shelf.new ≡ S.files shelf.old }
    ensures same_names { (n : List ℕ) → S.serves shelf.new n ≡ S.serves shelf.old n }
{
    let files = with_base(alloc, base, variants)?;
    let loaded = load_all(alloc, files.as_slice(), shelf)?;
    conflicts_reply(alloc, files.as_slice(), &loaded)
}

fn merge_files<S: Shelf>(
    alloc: Global,
    base: &str,
    variants: &[&str],
    tries: u64,
    shelf: &mut S,
) -> Result<Reply, Halt>
    requires least { 2 ≤ length variants.now }
    requires most { length variants.now ≤ MAX_VARIANTS }
    requires tries { 1 ≤ tries }
    requires serves { All (λ name. IsTrue (S.serves shelf.old name)) (base.now ∷ map (λ w. w.now) variants.now) }
    ensures halts { Halts (λ files a. Comes (Some (merge base.now (map (λ w. w.now) variants.now) tries)) files a)
        (MayRead (Some (merge base.now (map (λ w. w.now) variants.now) tries)) (S.files shelf.old))
        (S.files shelf.old) (S.faults shelf.old) (S.faults shelf.new) result }
    ensures same_files { S.files shelf.new ≡ S.files shelf.old }
    ensures same_names { (n : List ℕ) → S.serves shelf.new n ≡ S.serves shelf.old n }
{
    let files = with_base(alloc, base, variants)?;
    let loaded = load_all(alloc, files.as_slice(), shelf)?;
    merge_reply(alloc, files.as_slice(), loaded, tries)
}
