//! Names and expressions of parts.
ghost use Rattle.std.specs.Prelude.{◌≡◌, ◌<◌, ◌^◌, IfOk};
ghost use Rattle.hpr_terms.specs.declared.expr.Expr.TheVariants.{Infix};
ghost use Rattle.hpr_terms.specs.Names.{IsName};
ghost use Rattle.hpr_terms.specs.Term.{num, var};
ghost use Rattle.hpr_terms.specs.TermOf.{term_of};
ghost use Rattle.hpr_sample.specs.Draws.{variable_name};

use hpr_terms::{Binary, Expr, Literal, Name, NameError, NoMemory, Operand};
use std::alloc::Global;

/// The name with this text.
pub(crate) fn name(alloc: Global, text: &str) -> Result<Name, NoMemory>
    requires { IsName text.now }
    ensures { IfOk result (λ name. name ≡ text.now) }
{
    match Name::new(alloc, text) {
        Ok(name) => Ok(name),
        Err(NameError::Memory) => Err(NoMemory),
        Err(NameError::NotAName) => unreachable!(),
    }
}

/// The variable of this digit.
#[tactic(auto, using(crate::proofs::DrawnNames::text_is_name))]
pub(crate) fn variable(alloc: Global, digit: u64) -> Result<Name, NoMemory>
    requires { digit < 8 }
    ensures { IfOk result (λ name. name ≡ variable_name digit) }
{
    name(alloc, variable_text(digit))
}

fn variable_text(digit: u64) -> &'static str
    requires { digit < 8 }
    ensures { result.now ≡ variable_name digit }
{
    match digit {
        0 => "v0",
        1 => "v1",
        2 => "v2",
        3 => "v3",
        4 => "v4",
        5 => "v5",
        6 => "v6",
        _ => "v7",
    }
}

/// The number as an expression.
pub(crate) fn number(value: u64) -> Expr
    requires { value < 2 ^ 63 }
    ensures { term_of result ≡ num value }
{
    Expr::Num(Literal::new(value).unwrap())
}

/// The expression of two operands.
pub(crate) fn infix(alloc: Global, sign: Binary, left: Expr, right: Expr) -> Result<Expr, NoMemory>
    ensures { IfOk result (λ e. e ≡ Infix sign (term_of left) (term_of right)) }
{
    let left = Operand::new(alloc, left)?;
    let right = Operand::new(alloc, right)?;
    Ok(Expr::Infix(sign, left, right))
}

/// A variable, a sign and a number.
pub(crate) fn with_number(
    alloc: Global,
    sign: Binary,
    name: Name,
    value: u64,
) -> Result<Expr, NoMemory>
    requires { value < 2 ^ 63 }
    ensures { IfOk result (λ e. e ≡ Infix sign (var name) (num value)) }
{
    infix(alloc, sign, Expr::Var(name), number(value))
}
