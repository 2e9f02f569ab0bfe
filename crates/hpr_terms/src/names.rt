//! The names of an expression, names in order, and where one stands among them.
ghost use Rattle.std.specs.Prelude.{◌≡◌, ◌↔◌, ℕ, List, ◌++◌, Contains, Some, IfOk, OnOk, IfSome, IfNone, IsTrue};
ghost use Rattle.std.specs.List.{slice_get};
ghost use Rattle.std.specs.List.Sorted.{IsStrictlySortedBy};
ghost use Rattle.std.specs.Cmp.Lexicographic.{slice_cmp};
ghost use Rattle.std.specs.Ordering.{nat_cmp};
ghost use Rattle.hpr_terms.specs.TermOf.{term_of};
ghost use Rattle.hpr_terms.specs.Uses.{names_in};

use crate::expr::Expr;
use crate::memory::NoMemory;
use crate::name::Name;
use std::alloc::Global;

/// The names in the expression, from left to right, each as often as it stands there. Its one error
/// is want of memory.
pub fn names_in(alloc: Global, expr: &Expr) -> Result<Vec<Name>, NoMemory>
    ensures { IfOk result (λ names. names.items ≡ names_in (term_of expr.now)) }
{
    let mut names = Vec::new(alloc);
    push_names(alloc, expr, &mut names)?;
    Ok(names)
}

/// Puts the names in the expression behind the others.
fn push_names(alloc: Global, expr: &Expr, names: &mut Vec<Name>) -> Result<(), NoMemory>
    ensures { OnOk result (names.new.items ≡ names.old.items ++ names_in (term_of expr.now)) }
{
    match expr {
        Expr::Num(_) => Ok(()),
        Expr::Var(name) => {
            names.push(name.copy(alloc)?)?;
            Ok(())
        }
        Expr::Prefix(_, operand) => push_names(alloc, operand.expr(), names),
        Expr::Infix(_, left, right) => {
            push_names(alloc, left.expr(), names)?;
            push_names(alloc, right.expr(), names)
        }
        Expr::Elem(array, index) => {
            names.push(array.copy(alloc)?)?;
            push_names(alloc, index.expr(), names)
        }
    }
}

/// The names in the order of their bytes, each once. Its one error is want of memory.
pub fn in_order(names: Vec<Name>) -> Result<Vec<Name>, NoMemory>
    ensures ascending { IfOk result (λ v. IsStrictlySortedBy (slice_cmp nat_cmp) v.items) }
    ensures same { IfOk result (λ v. (x : List ℕ) → Contains v.items x ↔ Contains names.items x) }
{
    let mut names = names;
    names.sort()?;
    names.dedup();
    Ok(names)
}

/// Whether the name is one of these, which are in order.
pub fn is_among(names: &[Name], name: &Name) -> bool
    requires { IsStrictlySortedBy (slice_cmp nat_cmp) names.now }
    ensures { IsTrue result ↔ Contains names.now name.now }
{
    names.binary_search(name).is_ok()
}

/// The place of the name among these, which are in order, if it is one of them.
pub fn place_of(names: &[Name], name: &Name) -> Option<usize>
    requires { IsStrictlySortedBy (slice_cmp nat_cmp) names.now }
    ensures some { IfSome result (λ i. slice_get names.now i ≡ Some name.now) }
    ensures none { IfNone result (¬ Contains names.now name.now) }
{
    match names.binary_search(name) {
        Ok(at) => Some(at),
        Err(_) => None,
    }
}
