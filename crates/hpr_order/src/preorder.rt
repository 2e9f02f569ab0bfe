//! The parts of a program as vertices, in preorder.
ghost use Rattle.std.specs.Prelude.{◌≡◌, ◌∷◌, ◌++◌, [], None, IfOk, OnOk, map};
ghost use Rattle.hpr_syntax.specs.Body.{done};
ghost use Rattle.hpr_syntax.specs.BodyOf.{before};
ghost use Rattle.hpr_syntax.specs.Parts.{tag_of};
ghost use Rattle.hpr_syntax.specs.Rows.{content_of, rows_of};
ghost use Rattle.hpr_graph.specs.declared.vertex.Vertex.{Vertex};
ghost use Rattle.hpr_graph.specs.Rank.{parts_of};

use hpr_graph::{NoMemory, Vertex};
use hpr_syntax::{Block, Program, Stmt, content_of};
use std::alloc::Global;

/// The parts of a program as vertices, in preorder.
///
/// Copies what each part says, and recurses to the depth of the program. Errs only where memory runs out.
/// Horwitz, Prins and Reps 1989 have a vertex for each assignment and predicate of a program, in no order.
pub fn parts(alloc: Global, program: &Program) -> Result<Vec<Vertex>, NoMemory>
    ensures { IfOk result (λ v. v.items ≡ parts_of program.now) }
{
    let mut parts = Vec::new(alloc);
    push_block(alloc, program.body(), &mut parts)?;
    Ok(parts)
}

/// Puts the parts of a block behind the others.
#[cycle(push)]
fn push_block(alloc: Global, block: &Block, into: &mut Vec<Vertex>) -> Result<(), NoMemory>
    ensures { OnOk result (into.new.items ≡ into.old.items
        ++ map (λ row. Vertex.Part row.tag row.content) (rows_of None 0 block.now)) }
{
    for stmt in &block.stmts {
        push_stmt(alloc, stmt, into)?;
    }
    Ok(())
}

/// Puts a statement and the parts in it behind the others.
#[cycle(push)]
fn push_stmt(alloc: Global, stmt: &Stmt, into: &mut Vec<Vertex>) -> Result<(), NoMemory>
    ensures { OnOk result (into.new.items ≡ into.old.items
        ++ map (λ row. Vertex.Part row.tag row.content) (rows_of None 0 (before stmt.now done))) }
{
    push_part(alloc, stmt, into)?;
    match stmt {
        Stmt::If(_, _, yes, no) => {
            push_block(alloc, yes, into)?;
            push_block(alloc, no, into)
        }
        Stmt::While(_, _, body) => push_block(alloc, body, into),
        _ => Ok(()),
    }
}

/// Puts a part by itself behind the others.
fn push_part(alloc: Global, stmt: &Stmt, into: &mut Vec<Vertex>) -> Result<(), NoMemory>
    ensures { OnOk result (into.new.items ≡ into.old.items ++ Vertex.Part (tag_of stmt.now) (content_of stmt.now) ∷ []) }
{
    let content = content_of(alloc, stmt)?;
    into.push(Vertex::Part(stmt.tag(), content))?;
    Ok(())
}
