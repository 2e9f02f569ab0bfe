//! The tables of a program that its graph is made from.
ghost use Rattle.std.specs.Prelude.{◌≡◌, ◌↔◌, ◌+◌, ◌<◌, ◌≤◌, ◌^◌, [], ◌∷◌, ◌++◌, ℕ, List, Some, IfOk, OnOk};
ghost use Rattle.std.specs.Prelude.{Contains, length, map, replicate, vec_len, slice_index_or};
ghost use Rattle.std.specs.List.{slice_get};
ghost use Rattle.std.specs.List.Sorted.{IsStrictlySortedBy};
ghost use Rattle.std.specs.Cmp.Lexicographic.{slice_cmp};
ghost use Rattle.std.specs.Ordering.{nat_cmp};
ghost use Rattle.hpr_graph.specs.declared.vertex.Vertex.TheVariants.{Entry, Init, Final};
ghost use Rattle.hpr_build.specs.Links.{part_vertex, name_vertex, vertices_of, exit_of};
ghost use Rattle.hpr_build.specs.Stages.{AreTables, IsVariable};
ghost use Rattle.hpr_build.specs.Uses.{AreApart, AreEndsBy};
ghost use Rattle.hpr_build.specs.Variables.{points_at};

use crate::initial::{free_row, live_names};
use crate::places::{Place, places};
use crate::uses::{Use, uses_of};
use crate::variables::{Variables, place_near, variables_of};
use hpr_graph::Vertex;
use hpr_paths::{Name, NoMemory, Succ, successors};
use hpr_reach::BitRow;
use hpr_syntax::Program;
use std::alloc::Global;

/// What is known of a program: its points, its parts, the names that it takes from before it, the
/// names that it uses, how many vertices its graph has, and the number of Exit's point, which is that
/// of the vertex of the first name of `end`; for each used name the number of its vertex of `end`; what each
/// name that no part defines reaches, if there is one; and how many edges its graph may have.
pub(crate) struct Tables<'a> {
    pub(crate) program: &'a Program,
    pub(crate) succ: Succ,
    pub(crate) places: Vec<Place>,
    pub(crate) inits: Vec<Name>,
    pub(crate) variables: Variables,
    pub(crate) vertex_count: usize,
    pub(crate) exit: usize,
    pub(crate) final_numbers: Vec<usize>,
    pub(crate) free: Option<BitRow>,
    pub(crate) most: usize,
}

/// All tables are dropped in one call.
impl Drop for Tables<'_> {
    fn drop(self) {
        let Tables {
            program: _,
            succ: _,
            places: _,
            inits: _,
            variables: _,
            vertex_count: _,
            exit: _,
            final_numbers: _,
            free: _,
            most: _,
        } = self;
    }
}

/// Puts the vertices of the parts behind the others.
fn push_parts(alloc: Global, places: &[Place], into: &mut Vec<Vertex>) -> Result<(), NoMemory>
    ensures { OnOk result (into.new.items ≡ into.old.items ++ map part_vertex places.now) }
{
    for place in places {
        into.push(Vertex::Part(place.tag, place.content.copy(alloc)?))?;
    }
    Ok(())
}

/// The vertex of a name: that of its value after the program, or that of its value before it.
fn name_vertex(name: Name, is_final: bool) -> Vertex
    ensures { result ≡ name_vertex is_final name }
{
    if is_final {
        Vertex::Final(name)
    } else {
        Vertex::Init(name)
    }
}

/// Puts the vertices of names behind the others.
fn push_names(
    alloc: Global,
    names: &[Name],
    is_final: bool,
    into: &mut Vec<Vertex>,
) -> Result<(), NoMemory>
    ensures { OnOk result (into.new.items ≡ into.old.items ++ map (name_vertex is_final) names.now) }
{
    for name in names {
        into.push(name_vertex(name.copy(alloc)?, is_final))?;
    }
    Ok(())
}

/// Puts the vertices of a program in the order of their numbers behind the others.
fn push_vertices(
    alloc: Global,
    places: &[Place],
    finals: &[Name],
    inits: &[Name],
    into: &mut Vec<Vertex>,
) -> Result<(), NoMemory>
    ensures { OnOk result (into.new.items ≡ into.old.items ++ Entry ∷ (map part_vertex places.now
        ++ (map Final finals.now ++ map Init inits.now))) }
{
    into.push(Vertex::Entry)?;
    push_parts(alloc, places, into)?;
    push_names(alloc, finals, true, into)?;
    push_names(alloc, inits, false, into)
}

/// The number, so many times.
fn repeated(alloc: Global, number: usize, count: usize) -> Result<Vec<usize>, NoMemory>
    ensures { IfOk result (λ numbers. numbers.items ≡ replicate count number) }
{
    Ok(vec![in alloc; number; count]?)
}

/// Puts the number of the vertex that uses the name at the place of the name, if it is that of a name of `end`, and tells the
/// place. It is looked for first at the place `near`, which is told where there is none.
fn put_end(names: &[Name], one: &Use, exit: usize, near: usize, numbers: &mut Vec<usize>) -> usize
    requires names { IsStrictlySortedBy (slice_cmp nat_cmp) names.now }
    requires len { vec_len numbers.old ≡ length names.now }
    ensures len { vec_len numbers.new ≡ vec_len numbers.old }
    ensures here { exit ≤ one.now.number → (i : ℕ) → slice_get names.now i ≡ Some one.now.name
        → slice_index_or numbers.new.items i 0 ≡ one.now.number }
    ensures parts { one.now.number < exit → numbers.new.items ≡ numbers.old.items }
    ensures others { (i : ℕ) → ¬ (slice_get names.now i ≡ Some one.now.name)
        → slice_index_or numbers.new.items i 0 ≡ slice_index_or numbers.old.items i 0 }
{
    if one.number < exit {
        return near;
    }
    match place_near(names, &one.name, near) {
        Some(at) => {
            numbers[at] = one.number;
            at
        }
        None => near,
    }
}

/// For each of these names, which are in order, the number of its vertex of `end`, or Exit's own number where it
/// has none, by the uses of names.
///
/// Looks at each use once.
fn final_numbers(
    alloc: Global,
    exit: usize,
    uses: &[Use],
    names: &[Name],
) -> Result<Vec<usize>, NoMemory>
    requires names { IsStrictlySortedBy (slice_cmp nat_cmp) names.now }
    requires apart { AreApart exit uses.now }
    ensures len { IfOk result (λ numbers. vec_len numbers ≡ length names.now) }
    ensures exact { IfOk result (λ numbers. AreEndsBy exit uses.now names.now numbers.items) }
{
    let mut numbers = repeated(alloc, exit, names.len())?;
    let mut near = 0;
    for one in uses {
        near = put_end(names, one, exit, near, &mut numbers);
    }
    Ok(numbers)
}

/// The tables of the program, whose graph may have `most` edges. The vertices of the graph go into the
/// empty list.
pub(crate) fn tables_of<'a>(
    alloc: Global,
    program: &'a Program,
    most: usize,
    vertices: &mut Vec<Vertex>,
) -> Result<Tables<'a>, NoMemory>
    requires { vertices.old.items ≡ [] }
    ensures tables { IfOk result AreTables }
    ensures program { IfOk result (λ t. t.program.now ≡ program.now) }
    ensures most { IfOk result (λ t. t.most ≡ most) }
    ensures vertices { IfOk result (λ t. vertices.new.items ≡ vertices_of t.program.now t.inits.items) }
{
    let succ = successors(alloc, program)?;
    let places = places(alloc, program)?;
    let uses = uses_of(alloc, program, &succ)?;
    let variables = variables_of(alloc, program, &succ, &uses)?;
    let free = free_row(alloc, &succ, &variables)?;
    let inits = live_names(alloc, &succ, &variables, &free)?;
    push_vertices(alloc, &places, program.finals(), &inits, vertices)?;
    let vertex_count = vertices.len();
    let exit = program.part_count() + 1;
    let final_numbers = final_numbers(alloc, exit, &uses, &variables.names)?;
    Ok(Tables {
        program,
        succ,
        places,
        inits,
        variables,
        vertex_count,
        exit,
        final_numbers,
        free,
        most,
    })
}

/// A name, the one with this place among those that are used, with the points that define it and those that use it, and
/// the number of its vertex of `end`, which is that of Exit's point where it has none.
#[derive(Clone, Copy)]
pub(crate) struct Variable<'a> {
    pub(crate) name: &'a Name,
    pub(crate) place: usize,
    pub(crate) definitions: &'a [usize],
    pub(crate) users: &'a [usize],
    pub(crate) final_number: usize,
}

/// The points in the row.
pub(crate) fn row_at(rows: &[Vec<usize>], at: usize) -> &[usize]
    requires { at < length rows.now }
    ensures { result.now ≡ points_at rows.now at }
{
    &rows[at]
}

/// The name with this place among those that are used.
pub(crate) fn variable_at<'a>(tables: &'a Tables, at: usize) -> Variable<'a>
    requires tables { AreTables tables.now }
    requires at { at < vec_len tables.now.variables.names }
    ensures name { slice_get tables.now.variables.names.items at ≡ Some result.name.now }
    ensures variable { IsVariable tables.now.program.now result }
{
    Variable {
        name: &tables.variables.names[at],
        place: at,
        definitions: row_at(&tables.variables.definitions, at),
        users: row_at(&tables.variables.users, at),
        final_number: tables.final_numbers[at],
    }
}
