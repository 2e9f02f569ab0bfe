//! What waits for an operand, within one bracket of an expression.
ghost use Rattle.std.specs.Prelude.{◌≡◌, ◌∷◌, [], None, IfOk, OnOk};
ghost use Rattle.hpr_terms.specs.TermOf.{term_of};
ghost use Rattle.hpr_expressions.specs.Pending as pending;

use hpr_terms::{Binary, Expr, NoMemory, Operand, Unary};
use std::alloc::Global;
use std::marker::Model;

/// A left operand, and the sign behind it.
#[derive(Drop)]
pub struct Left {
    pub op: Binary,
    pub left: Expr,
}

/// Prefixes that wait for their operand. A contract sees their list, the last one first.
#[derive(Drop)]
pub struct Prefixes {
    ops: Vec<Unary>,
}

impl Model for Prefixes {
    ghost use Rattle.std.specs.Prelude.{List, reverse};
    ghost use Rattle.hpr_terms.specs.declared.expr.Unary.{Unary};

    ghost Value = { List Unary };

    ghost view = { λ p. reverse p.ops.items };
}

impl Prefixes {
    fn new(alloc: Global) -> Prefixes
        ensures { result ≡ [] }
    {
        Prefixes {
            ops: Vec::new(alloc),
        }
    }

    fn push(&mut self, op: Unary) -> Result<(), NoMemory>
        ensures { OnOk result (self.new ≡ op ∷ self.old) }
    {
        Ok(self.ops.push(op)?)
    }

    fn before(&mut self, alloc: Global, mut value: Expr) -> Result<Expr, NoMemory>
        ensures value { IfOk result (λ e. e ≡ pending.prefixed self.old value) }
        ensures none_left { OnOk result (self.new ≡ []) }
    {
        while let Some(op) = self.ops.pop() {
            value = Expr::Prefix(op, Operand::new(alloc, value)?);
        }
        Ok(value)
    }
}

/// What waits for an operand: at each level a left operand, if there is one, and the prefixes.
pub struct Pending {
    pub ors: Option<Left>,
    pub ands: Option<Left>,
    pub compared: Option<Left>,
    pub summed: Option<Left>,
    pub multiplied: Option<Left>,
    pub prefixes: Prefixes,
}

/// All levels are dropped in one call.
impl Drop for Pending {
    fn drop(self) {
        let Pending {
            ors: _,
            ands: _,
            compared: _,
            summed: _,
            multiplied: _,
            prefixes: _,
        } = self;
    }
}

fn infix(alloc: Global, op: Binary, left: Expr, right: Expr) -> Result<Expr, NoMemory>
    ensures { IfOk result (λ e. e ≡ Expr.Infix op (term_of left) (term_of right)) }
{
    Ok(Expr::Infix(op, Operand::new(alloc, left)?, Operand::new(alloc, right)?))
}

fn joined(alloc: Global, left: Option<Left>, value: Expr) -> Result<Expr, NoMemory>
    ensures { IfOk result (λ e. e ≡ pending.joined left value) }
{
    match left {
        None => Ok(value),
        Some(Left { op, left }) => infix(alloc, op, left, value),
    }
}

impl Pending {
    /// Nothing waits.
    pub fn new(alloc: Global) -> Pending
        ensures { result ≡ pending.nothing_pending }
    {
        Pending {
            ors: None,
            ands: None,
            compared: None,
            summed: None,
            multiplied: None,
            prefixes: Prefixes::new(alloc),
        }
    }

    fn last_term(&mut self, alloc: Global, value: Expr) -> Result<Expr, NoMemory>
        ensures value { IfOk result (λ e. e ≡ pending.last_term self.old value) }
        ensures rest { OnOk result (self.new ≡ record self.old { multiplied = None; prefixes = [] }) }
    {
        let right = self.prefixes.before(alloc, value)?;
        joined(alloc, self.multiplied.take(), right)
    }

    fn last_sum(&mut self, alloc: Global, value: Expr) -> Result<Expr, NoMemory>
        ensures value { IfOk result (λ e. e ≡ pending.last_sum self.old value) }
        ensures rest { OnOk result (self.new ≡ record self.old { summed = None; multiplied = None; prefixes = [] }) }
    {
        let right = self.last_term(alloc, value)?;
        joined(alloc, self.summed.take(), right)
    }

    fn last_comparison(&mut self, alloc: Global, value: Expr) -> Result<Expr, NoMemory>
        ensures value { IfOk result (λ e. e ≡ pending.last_comparison self.old value) }
        ensures rest { OnOk result (self.new
            ≡ record self.old { compared = None; summed = None; multiplied = None; prefixes = [] }) }
    {
        let right = self.last_sum(alloc, value)?;
        joined(alloc, self.compared.take(), right)
    }

    fn last_and(&mut self, alloc: Global, value: Expr) -> Result<Expr, NoMemory>
        ensures value { IfOk result (λ e. e ≡ pending.last_and self.old value) }
        ensures rest { OnOk result (self.new ≡ record pending.nothing_pending { ors = self.old.ors }) }
    {
        let right = self.last_comparison(alloc, value)?;
        joined(alloc, self.ands.take(), right)
    }

    /// All that stands in the bracket, where it ends with the value; then nothing waits any more.
    pub fn whole(&mut self, alloc: Global, value: Expr) -> Result<Expr, NoMemory>
        ensures value { IfOk result (λ e. e ≡ pending.whole self.old value) }
        ensures rest { OnOk result (self.new ≡ pending.nothing_pending) }
    {
        let right = self.last_and(alloc, value)?;
        joined(alloc, self.ors.take(), right)
    }

    /// The value and `or` stand behind what waited.
    pub fn join_or(&mut self, alloc: Global, op: Binary, value: Expr) -> Result<(), NoMemory>
        ensures { OnOk result (self.new ≡ pending.with_or self.old op value) }
    {
        let left = self.whole(alloc, value)?;
        self.ors = Some(Left { op, left });
        Ok(())
    }

    /// The value and `and` stand behind what waited.
    pub fn join_and(&mut self, alloc: Global, op: Binary, value: Expr) -> Result<(), NoMemory>
        ensures { OnOk result (self.new ≡ pending.with_and self.old op value) }
    {
        let left = self.last_and(alloc, value)?;
        self.ands = Some(Left { op, left });
        Ok(())
    }

    /// The value and a comparison stand behind what waited.
    pub fn compare(&mut self, alloc: Global, op: Binary, value: Expr) -> Result<(), NoMemory>
        ensures { OnOk result (self.new ≡ pending.with_comparison self.old op value) }
    {
        let left = self.last_sum(alloc, value)?;
        self.compared = Some(Left { op, left });
        Ok(())
    }

    /// The value and `+` or `-` stand behind what waited.
    pub fn add(&mut self, alloc: Global, op: Binary, value: Expr) -> Result<(), NoMemory>
        ensures { OnOk result (self.new ≡ pending.with_sum self.old op value) }
    {
        let left = self.last_sum(alloc, value)?;
        self.summed = Some(Left { op, left });
        Ok(())
    }

    /// The value and `*`, `/` or `%` stand behind what waited.
    pub fn multiply(&mut self, alloc: Global, op: Binary, value: Expr) -> Result<(), NoMemory>
        ensures { OnOk result (self.new ≡ pending.with_term self.old op value) }
    {
        let left = self.last_term(alloc, value)?;
        self.multiplied = Some(Left { op, left });
        Ok(())
    }

    /// One more prefix stands behind what waited.
    pub fn prefix(&mut self, op: Unary) -> Result<(), NoMemory>
        ensures { OnOk result (self.new ≡ pending.with_prefix self.old op) }
    {
        self.prefixes.push(op)
    }
}
