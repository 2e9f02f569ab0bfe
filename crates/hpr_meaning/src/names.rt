//! The names that parts use.
ghost use Rattle.std.specs.Prelude.{◌≡◌, [], ◌∷◌, ◌++◌, IfOk};
ghost use Rattle.hpr_terms.specs.TermOf.{term_of};
ghost use Rattle.hpr_terms.specs.Uses.{names_in};
ghost use Rattle.hpr_syntax.specs.Contents.{used_names};
ghost use Rattle.hpr_syntax.specs.Rows.{content_of};
ghost use Rattle.hpr_meaning.specs.Instances.{names_of};

use hpr_syntax::{Expr, Name, NoMemory, Stmt, expr_of};
use hpr_terms::names::{in_order, names_in};
use std::alloc::Global;

/// The names that the part uses, ascending, each once.
pub(crate) fn names_of(alloc: Global, stmt: &Stmt) -> Result<Vec<Name>, NoMemory>
    ensures { IfOk result (λ names. names.items ≡ names_of (content_of stmt.now)) }
{
    in_order(used_names(alloc, stmt)?)
}

/// The names of the part's expressions from left to right, and then the stream that it writes or the array into which
/// it stores.
fn used_names(alloc: Global, stmt: &Stmt) -> Result<Vec<Name>, NoMemory>
    ensures { IfOk result (λ names. names.items ≡ used_names (content_of stmt.now)) }
{
    match stmt {
        Stmt::Write(_, stream, value) => names_with(alloc, value, stream),
        Stmt::Store(_, array, index, value) => {
            let mut names = names_in(alloc, index)?;
            let mut others = names_with(alloc, value, array)?;
            names.append(&mut others)?;
            Ok(names)
        }
        _ => names_in(alloc, expr_of(stmt)),
    }
}

/// The names of the expression from left to right, and then this one.
fn names_with(alloc: Global, expr: &Expr, last: &Name) -> Result<Vec<Name>, NoMemory>
    ensures { IfOk result (λ names. names.items ≡ names_in (term_of expr.now) ++ last.now ∷ []) }
{
    let mut names = names_in(alloc, expr)?;
    names.push(last.copy(alloc)?)?;
    Ok(names)
}
