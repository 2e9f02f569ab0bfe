//! What a slice leaves of a program.
ghost use Rattle.std.specs.Prelude.{◌↔◌, IfOk, IsTrue};
ghost use Rattle.hpr_syntax.specs.Parts.{tag_of};
ghost use Rattle.hpr_syntax.specs.Rows.{content_of};
ghost use Rattle.hpr_graph.specs.Numbered.{HasVertex, graph_in};
ghost use Rattle.hpr_graph.specs.declared.vertex.Vertex.TheVariants.{Part, Final};
ghost use Rattle.hpr_prune.specs.Programs.{BlockLeft, IsPruned, NamesLeft};
ghost use Rattle.hpr_prune.specs.KeptLaw.{DoesItsPart, IsSliceOf};
ghost use Rattle.hpr_prune.specs.Private.PartLeft.{IsPartLeft};

use hpr_graph::{Graph, NoMemory, Vertex};
use hpr_syntax::{Block, Name, Program, Stmt, content_of};
use std::alloc::Global;

/// The program without each part whose vertex the slice lacks, with all that stands in it, and without
/// each name of `end` whose Final vertex it lacks. The rest stays in its order, and so do the issued
/// numbers. Takes a copy and one look-up by hash for each part and each name that is come to.
pub fn prune(alloc: Global, program: &Program, slice: &Graph) -> Result<Program, NoMemory>
    ensures pruned { IfOk result (λ q. IsPruned (graph_in slice.now).vertex program.now q) }
    ensures does { IfOk result (λ q. IsSliceOf program.now (graph_in slice.now)
        → DoesItsPart program.now q (graph_in slice.now)) }
{
    let issued = program.issued().copy(alloc)?;
    let body = block_left(alloc, slice, program.body())?;
    let finals = names_left(alloc, slice, program.finals())?;
    Ok(Program::from_parts(issued, body, finals))
}

/// What is left of a block.
#[cycle(left)]
fn block_left(alloc: Global, slice: &Graph, block: &Block) -> Result<Block, NoMemory>
    ensures { IfOk result (BlockLeft (HasVertex slice.now) block.now) }
{
    let mut stmts = Vec::new(alloc);
    for stmt in &block.stmts {
        if has_part(alloc, slice, stmt)? {
            stmts.push(part_left(alloc, slice, stmt)?)?;
        }
    }
    Ok(Block { stmts })
}

/// What is left of a part that is a vertex of the slice.
#[cycle(left)]
fn part_left(alloc: Global, slice: &Graph, stmt: &Stmt) -> Result<Stmt, NoMemory>
    requires { HasVertex slice.now (Part (tag_of stmt.now) (content_of stmt.now)) }
    ensures { IfOk result (IsPartLeft (HasVertex slice.now) stmt.now) }
{
    match stmt {
        Stmt::If(tag, test, yes, no) => {
            let yes = block_left(alloc, slice, yes)?;
            let no = block_left(alloc, slice, no)?;
            Ok(Stmt::If(*tag, test.copy(alloc)?, yes, no))
        }
        Stmt::While(tag, test, body) => {
            let body = block_left(alloc, slice, body)?;
            Ok(Stmt::While(*tag, test.copy(alloc)?, body))
        }
        _ => stmt.copy(alloc),
    }
}

/// Whether the part is a vertex of the slice.
fn has_part(alloc: Global, slice: &Graph, stmt: &Stmt) -> Result<bool, NoMemory>
    ensures { IfOk result (λ has. IsTrue has
        ↔ HasVertex slice.now (Part (tag_of stmt.now) (content_of stmt.now))) }
{
    let vertex = Vertex::Part(stmt.tag(), content_of(alloc, stmt)?);
    Ok(slice.number_of(&vertex).is_some())
}

/// Those of the names whose Final vertex is one of the slice.
fn names_left(alloc: Global, slice: &Graph, names: &[Name]) -> Result<Vec<Name>, NoMemory>
    ensures { IfOk result (λ left. NamesLeft (HasVertex slice.now) names.now left.items) }
{
    let mut left = Vec::new(alloc);
    for name in names {
        if has_final(alloc, slice, name)? {
            left.push(name.copy(alloc)?)?;
        }
    }
    Ok(left)
}

/// Whether the slice has the Final vertex of the name.
fn has_final(alloc: Global, slice: &Graph, name: &Name) -> Result<bool, NoMemory>
    ensures { IfOk result (λ has. IsTrue has ↔ HasVertex slice.now (Final name.now)) }
{
    let vertex = Vertex::Final(name.copy(alloc)?);
    Ok(slice.number_of(&vertex).is_some())
}
