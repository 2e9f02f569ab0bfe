//! Expressions. A contract sees an operand as a plain tree.
//!
//! An expression by itself may be deeper than a program allows. What goes down its levels ends on
//! any of them, but the stack that it takes is outside what is proved.
ghost use Rattle.std.specs.Prelude.{◌≡◌, ◌↔◌, IsTrue, ℕ, ◌≤◌, ◌+◌, IfOk, IfSome, IsSome, ◌<◌, ◌^◌, pos};
ghost use Rattle.std.proofs.Common.{rules, ◌==◌};
ghost use Rattle.std.specs.Cmp.Rules.{comparing};
ghost use Rattle.std.specs.Cmp.Lexicographic.{slice_cmp, pointwise};
ghost use Rattle.std.specs.Ordering.{nat_cmp, as_partial_cmp, on};
ghost use Rattle.hpr_terms.specs.Term.{Term, operators};
ghost use Rattle.hpr_terms.specs.TermOrder.{code_of};
ghost use Rattle.hpr_terms.specs.TermOf.{term_of};
ghost use Rattle.hpr_terms.specs.Uses.{Uses, TermUses};

use crate::memory::NoMemory;
use crate::name::Name;
use std::alloc::Global;
use std::cmp::Ordering;
use std::marker::Model;
use std::rc::Rc;

/// An operator of one operand.
#[derive(Clone, Copy, PartialEq, Eq, PartialOrd, Ord)]
pub enum Unary {
    Neg,
    Not,
}

/// An operator of two operands.
#[derive(Clone, Copy, PartialEq, Eq, PartialOrd, Ord)]
pub enum Binary {
    Or,
    And,
    Equal,
    Differ,
    Less,
    LessEqual,
    Greater,
    GreaterEqual,
    Add,
    Sub,
    Mul,
    Div,
    Rem,
}

/// A literal, 0 to `i64::MAX`. A contract sees it as that number.
#[derive(Clone, Copy, PartialEq, Eq, PartialOrd, Ord)]
pub struct Literal {
    value: u64,
}

impl Model for Literal {
    ghost use Rattle.std.specs.Prelude.{ℕ, ◌<◌, ◌^◌};

    ghost Value = { ℕ };

    ghost view = { λ a. a.value };

    ghost invariant = { λ a. a.value < 2 ^ 63 };

    ghost inverse = { λ n. record { value = n } };
}

impl Literal {
    /// The literal of this value, or none above `i64::MAX`.
    pub fn new(value: u64) -> Option<Literal>
        ensures valid { IsSome result ↔ (value < 2 ^ 63) }
        ensures value { IfSome result (λ n. n ≡ value) }
    {
        if value <= i64::MAX as u64 {
            Some(Literal { value })
        } else {
            None
        }
    }

    /// The literal's value.
    pub fn value(&self) -> i64
        ensures value { result ≡ pos self.now }
        ensures literal { self.now < 2 ^ 63 }
    {
        self.value as i64
    }
}

/// An expression that stands in another, on the heap. A contract sees it as a plain tree, with no
/// pointer in it.
#[cycle(expr)]
#[derive(Drop)]
pub struct Operand {
    inner: Rc<Expr>,
}

/// An expression: a literal, a name, an operator and its operands, or an element: the name of its array, and its
/// index.
///
/// Expressions compare by the declared order of variants and fields.
#[cycle(expr)]
#[derive(PartialEq, Eq, PartialOrd, Ord)]
pub enum Expr {
    Num(Literal),
    Var(Name),
    Prefix(Unary, Operand),
    Infix(Binary, Operand, Operand),
    Elem(Name, Operand),
}

// By hand, so that each way out of a function that holds an expression is one call.
impl Drop for Expr {
    #[cycle(expr_drop)]
    fn drop(self) {
        match self {
            Expr::Num(_) => {}
            Expr::Var(_) => {}
            Expr::Prefix(_, _) => {}
            Expr::Infix(_, _, _) => {}
            Expr::Elem(_, _) => {}
        }
    }
}

impl Model for Operand {
    ghost use Rattle.hpr_terms.specs.Term.{Term, levels};
    ghost use Rattle.hpr_terms.specs.Private.TermCode.{term_coded};

    ghost Value = { Term };

    ghost coded = { term_coded };

    ghost use Rattle.hpr_terms.specs.TermOf.{term_of};

    ghost view = { λ a. term_of a.inner.value };

    ghost size = { levels };

    ghost use Rattle.hpr_terms.specs.Private.TermFalls.{depth_le-levels};

    ghost size_decreases = { λ a h. depth_le-levels a.inner.value };
}

impl Operand {
    /// The operand of this expression.
    pub fn new(alloc: Global, expr: Expr) -> Result<Operand, NoMemory>
        ensures { IfOk result (λ o. o ≡ term_of expr) }
    {
        Ok(Operand {
            inner: Rc::new(alloc, expr)?,
        })
    }

    /// The expression that stands here.
    pub fn expr(&self) -> &Expr
        ensures { self.now ≡ term_of result.now }
    {
        &self.inner
    }
}

impl Operand {
    /// A copy.
    pub fn copy(&self) -> Result<Operand, NoMemory>
        ensures { IfOk result (λ o. o ≡ self.now) }
    {
        Ok(Operand {
            inner: self.inner.clone()?,
        })
    }
}

impl Expr {
    /// A copy.
    pub fn copy(&self, alloc: Global) -> Result<Expr, NoMemory>
        ensures { IfOk result (λ e. e ≡ self.now) }
    {
        match self {
            Expr::Num(n) => Ok(Expr::Num(*n)),
            Expr::Var(x) => Ok(Expr::Var(x.copy(alloc)?)),
            Expr::Prefix(op, a) => Ok(Expr::Prefix(*op, a.copy()?)),
            Expr::Infix(op, a, b) => Ok(Expr::Infix(*op, a.copy()?, b.copy()?)),
            Expr::Elem(array, index) => Ok(Expr::Elem(array.copy(alloc)?, index.copy()?)),
        }
    }
}

impl Expr {
    /// Whether two expressions are the same.
    #[tactic(auto, using(crate::proofs::Equal::expr_equal))]
    pub fn is_same(&self, other: &Expr) -> bool
        ensures { IsTrue result ↔ (self.now ≡ other.now) }
    {
        self == other
    }

    /// Whether the expression uses this name: a plain name where it stands there, and an array's where one of its
    /// elements does.
    #[cycle(uses)]
    pub fn uses(&self, name: &Name) -> bool
        ensures { IsTrue result ↔ Uses self.now name.now }
    {
        match self {
            Expr::Num(_) => false,
            Expr::Var(used) => name.is_same(used),
            Expr::Prefix(_, operand) => operand.uses(name),
            Expr::Infix(_, left, right) => left.uses(name) || right.uses(name),
            Expr::Elem(array, index) => name.is_same(array) || index.uses(name),
        }
    }
}

impl Operand {
    /// Whether the operand uses this name.
    #[cycle(uses)]
    pub fn uses(&self, name: &Name) -> bool
        ensures { IsTrue result ↔ TermUses self.now name.now }
    {
        self.expr().uses(name)
    }
}

impl PartialEq for Operand {
    ghost eq = { on code_of (pointwise ◌==◌) };

    ghost laws = { Prim.search (comparing, rules) };

    #[cycle(expr_eq)]
    fn eq(&self, other: &Operand) -> bool {
        *self.inner == *other.inner
    }
}

impl Eq for Operand {
    ghost laws = { Prim.search (comparing, rules) };
}

impl Ord for Operand {
    ghost cmp = { on code_of (slice_cmp nat_cmp) };

    ghost total = { Prim.search (comparing, rules) };

    ghost matches_partial_cmp = { Prim.search (comparing, rules) };

    ghost matches_eq = { Prim.search (comparing, rules) };

    #[cycle(expr_ord)]
    fn cmp(&self, other: &Operand) -> Ordering {
        self.inner.cmp(&other.inner)
    }
}

impl PartialOrd for Operand {
    ghost partial_cmp = { as_partial_cmp (on code_of (slice_cmp nat_cmp)) };

    ghost laws = { Prim.search (comparing, rules) };

    #[cycle(expr_partial)]
    fn partial_cmp(&self, other: &Operand) -> Option<Ordering> {
        self.inner.partial_cmp(&other.inner)
    }
}
