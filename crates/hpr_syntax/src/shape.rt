//! The tests that a tree must pass to be a program.
ghost use Rattle.std.specs.Prelude.{◌≡◌, ◌+◌, ◌-◌, ◌++◌, ◌<◌, ◌^◌, IfOk, OnOk, [], if◌then◌else◌, Some, None, nat_le, nat_lt};
ghost use Rattle.std.specs.Option.{option_copied};
ghost use Rattle.std.specs.Str.{bytes_eq};
ghost use Rattle.hpr_terms.specs.declared.limits.TheConstants.{MAX_OPERATORS};
ghost use Rattle.hpr_terms.specs.Term.{operators};
ghost use Rattle.hpr_terms.specs.TermOf.{term_of};
ghost use Rattle.hpr_syntax.specs.Body.{done};
ghost use Rattle.hpr_syntax.specs.BodyOf.{before};
ghost use Rattle.hpr_syntax.specs.Parts.{tags_of, same_tag};
ghost use Rattle.hpr_syntax.specs.Shape.{first_repeated, first_unissued, first_deep, first_where, is_large, says_large, names_wrong, is_wrong, left_after, shape};
ghost use Rattle.hpr_syntax.specs.Rows.{content_of};
ghost use Rattle.hpr_syntax.specs.Private.Refusals.{test_of, end_refusal, part_refusal, body_refusal, tag_refusal};

use crate::issued::Issued;
use crate::rows::Content;
use crate::tree::{Block, Stmt};
use hpr_terms::limits::{MAX_LEVELS, MAX_OPERATORS, MAX_PARTS};
use hpr_terms::{Expr, Name, NoMemory, Tag};
use std::alloc::Global;
use std::collections::BTreeSet;

/// Why a tree is no program.
#[derive(Drop)]
pub enum ShapeError {
    /// The first part, in preorder, whose tag stands earlier.
    DuplicateTag(Tag),
    /// The first part whose serial is 0 or above its author's issued number.
    Unissued(Tag),
    /// The first part whose level is above [`MAX_LEVELS`]; a top part has level 1.
    TooDeep(Tag),
    /// The first part whose expression has more than [`MAX_OPERATORS`] operators; those of a store's index and of its
    /// number count together.
    ExprTooLarge(Tag),
    /// The first part with a wrong name: in an expression a variable isn't plain or an element isn't an array's, or it
    /// assigns to what isn't plain, writes to what isn't the stream, or stores into what is no array.
    WrongName(Tag),
    /// There are more than [`MAX_PARTS`] parts: so many.
    TooManyParts(usize),
    /// The first final name that stands earlier.
    DuplicateFinal(Name),
    /// Memory ran out.
    Memory,
}

impl From<NoMemory> for ShapeError {
    ghost use Rattle.std.specs.Prelude.{◌≡◌};
    ghost use Rattle.hpr_syntax.specs.declared.shape.ShapeError.TheVariants.{Memory};

    ghost from_gives = { λ _ e. e ≡ Memory };

    fn from(_error: NoMemory) -> ShapeError {
        ShapeError::Memory
    }
}

/// The tags of a block's parts in preorder.
fn tags(alloc: Global, block: &Block) -> Result<Vec<Tag>, NoMemory>
    ensures { IfOk result (λ tags. tags.items ≡ tags_of block.now []) }
{
    let mut tags = Vec::new(alloc);
    push_tags(block, &mut tags)?;
    Ok(tags)
}

#[cycle(tags)]
#[tactic(auto, using(crate::proofs::ShapeLemmas::tags_append, crate::proofs::ShapeLemmas::tags_before))]
fn push_tags(block: &Block, tags: &mut Vec<Tag>) -> Result<(), NoMemory>
    ensures { OnOk result (tags.new.items ≡ tags.old.items ++ tags_of block.now []) }
{
    for stmt in &block.stmts {
        push_tags_in(stmt, tags)?;
    }
    Ok(())
}

#[cycle(tags)]
#[tactic(auto, using(crate::proofs::ShapeLemmas::tags_append, crate::proofs::ShapeLemmas::tags_before))]
fn push_tags_in(stmt: &Stmt, tags: &mut Vec<Tag>) -> Result<(), NoMemory>
    ensures { OnOk result (tags.new.items ≡ tags.old.items ++ tags_of (before stmt.now done) []) }
{
    tags.push(stmt.tag())?;
    match stmt {
        Stmt::If(_, _, yes, no) => {
            push_tags(yes, tags)?;
            push_tags(no, tags)
        }
        Stmt::While(_, _, body) => push_tags(body, tags),
        _ => Ok(()),
    }
}

/// The first tag that stands earlier.
fn first_repeated(alloc: Global, tags: &[Tag]) -> Result<Option<Tag>, NoMemory>
    ensures { IfOk result (λ tag. tag ≡ first_repeated same_tag [] tags.now) }
{
    let mut seen = BTreeSet::new(alloc);
    for tag in tags {
        if !seen.insert(*tag)? {
            return Ok(Some(*tag));
        }
    }
    Ok(None)
}

/// The first tag that was not issued.
fn first_unissued(issued: &Issued, tags: &[Tag]) -> Option<Tag>
    ensures { result ≡ first_unissued issued.now tags.now }
{
    for tag in tags {
        if tag.serial == 0 || issued.get(tag.author) < tag.serial {
            return Some(*tag);
        }
    }
    None
}

/// The first part that stands more than this many levels deep.
#[cycle(deep)]
fn first_deep(block: &Block, levels: usize) -> Option<Tag>
    ensures { result ≡ first_deep levels block.now }
{
    for stmt in &block.stmts {
        if let Some(tag) = deep_in(stmt, levels) {
            return Some(tag);
        }
    }
    None
}

#[cycle(deep)]
fn deep_in(stmt: &Stmt, levels: usize) -> Option<Tag>
    ensures { result ≡ first_deep levels (before stmt.now done) }
{
    if levels == 0 {
        return Some(stmt.tag());
    }
    match stmt {
        Stmt::If(_, _, yes, no) => match first_deep(yes, levels - 1) {
            Some(tag) => Some(tag),
            None => first_deep(no, levels - 1),
        },
        Stmt::While(_, _, body) => first_deep(body, levels - 1),
        _ => None,
    }
}

/// What no part of a program may say, whatever stands around it.
#[derive(Clone, Copy)]
enum PartTest {
    /// Expressions with more than [`MAX_OPERATORS`] operators together.
    Large,
    /// A wrong name.
    Wrong,
}

impl PartTest {
    /// Whether the part says it.
    fn holds(self, stmt: &Stmt) -> bool
        ensures { result ≡ test_of self (content_of stmt.now) }
    {
        match self {
            PartTest::Large => says_large(stmt),
            PartTest::Wrong => is_wrong(stmt),
        }
    }
}

/// Whether the expressions of the part have more than [`MAX_OPERATORS`] operators together.
fn says_large(stmt: &Stmt) -> bool
    ensures { result ≡ says_large (content_of stmt.now) }
{
    match stmt {
        Stmt::Assign(_, _, value) => is_large(value),
        Stmt::If(_, test, _, _) => is_large(test),
        Stmt::While(_, test, _) => is_large(test),
        Stmt::Write(_, _, value) => is_large(value),
        Stmt::Store(_, _, index, value) => are_large(index, value),
    }
}

/// Whether the expressions of a part that says this have more than [`MAX_OPERATORS`] operators: those of a store's
/// index and of its number count together.
pub fn is_large_content(content: &Content) -> bool
    ensures { result ≡ says_large content.now }
{
    match content {
        Content::Assign(_, value) => is_large(value),
        Content::If(test) => is_large(test),
        Content::While(test) => is_large(test),
        Content::Write(_, value) => is_large(value),
        Content::Store(_, index, value) => are_large(index, value),
    }
}

/// Whether the part has a wrong name.
fn is_wrong(stmt: &Stmt) -> bool
    ensures { result ≡ is_wrong (content_of stmt.now) }
{
    match stmt {
        Stmt::Assign(_, name, value) => !name.is_plain() || names_wrong(value),
        Stmt::If(_, test, _, _) => names_wrong(test),
        Stmt::While(_, test, _) => names_wrong(test),
        Stmt::Write(_, name, value) => !name.is_stream() || names_wrong(value),
        Stmt::Store(_, array, index, value) => {
            !array.is_array() || names_wrong(index) || names_wrong(value)
        }
    }
}

/// Whether a part that says this has a wrong name: in an expression a variable isn't plain or an element isn't an
/// array's, or it assigns to what isn't plain, writes to what isn't the stream, or stores into what is no array.
pub fn has_wrong_name(content: &Content) -> bool
    ensures { result ≡ is_wrong content.now }
{
    match content {
        Content::Assign(name, value) => !name.is_plain() || names_wrong(value),
        Content::If(test) => names_wrong(test),
        Content::While(test) => names_wrong(test),
        Content::Write(name, value) => !name.is_stream() || names_wrong(value),
        Content::Store(array, index, value) => {
            !array.is_array() || names_wrong(index) || names_wrong(value)
        }
    }
}

/// Whether a variable of the expression isn't plain, or an element isn't an array's.
fn names_wrong(expr: &Expr) -> bool
    ensures { result ≡ names_wrong (term_of expr.now) }
{
    match expr {
        Expr::Num(_) => false,
        Expr::Var(name) => !name.is_plain(),
        Expr::Prefix(_, operand) => names_wrong(operand.expr()),
        Expr::Infix(_, left, right) => names_wrong(left.expr()) || names_wrong(right.expr()),
        Expr::Elem(array, index) => !array.is_array() || names_wrong(index.expr()),
    }
}

/// The first part of which the test holds.
#[cycle(tested)]
fn first_where(block: &Block, test: PartTest) -> Option<Tag>
    ensures { result ≡ first_where (test_of test) block.now }
{
    for stmt in &block.stmts {
        if let Some(tag) = tested_in(stmt, test) {
            return Some(tag);
        }
    }
    None
}

#[cycle(tested)]
fn tested_in(stmt: &Stmt, test: PartTest) -> Option<Tag>
    ensures { result ≡ first_where (test_of test) (before stmt.now done) }
{
    if test.holds(stmt) {
        return Some(stmt.tag());
    }
    match stmt {
        Stmt::If(_, _, yes, no) => match first_where(yes, test) {
            Some(tag) => Some(tag),
            None => first_where(no, test),
        },
        Stmt::While(_, _, body) => first_where(body, test),
        _ => None,
    }
}

/// Whether an expression has more than [`MAX_OPERATORS`] operators.
pub fn is_large(expr: &Expr) -> bool
    ensures { result ≡ is_large expr.now }
{
    left_after(expr, MAX_OPERATORS).is_none()
}

/// Whether the two expressions have more than [`MAX_OPERATORS`] operators together.
fn are_large(index: &Expr, value: &Expr) -> bool
    ensures { result ≡ nat_lt MAX_OPERATORS (operators (term_of index.now) + operators (term_of value.now)) }
{
    match left_after(index, MAX_OPERATORS) {
        Some(left) => left_after(value, left).is_none(),
        None => true,
    }
}

/// How many more operators may follow where so many may stand, if there are no more of them.
fn left_after(expr: &Expr, most: usize) -> Option<usize>
    ensures { result ≡ left_after most (operators (term_of expr.now)) }
{
    match expr {
        Expr::Num(_) => Some(most),
        Expr::Var(_) => Some(most),
        Expr::Prefix(_, operand) => {
            if most == 0 {
                return None;
            }
            left_after(operand.expr(), most - 1)
        }
        Expr::Infix(_, left, right) => {
            if most == 0 {
                return None;
            }
            let rest = left_after(left.expr(), most - 1)?;
            left_after(right.expr(), rest)
        }
        Expr::Elem(_, index) => {
            if most == 0 {
                return None;
            }
            left_after(index.expr(), most - 1)
        }
    }
}

/// The first name that stands earlier.
fn first_repeated_name(alloc: Global, names: &[Name]) -> Result<Option<&Name>, NoMemory>
    ensures { IfOk result (λ name. option_copied name ≡ first_repeated bytes_eq [] names.now) }
{
    let mut seen = BTreeSet::new(alloc);
    for name in names {
        let copy = name.copy(alloc)?;
        if !seen.insert(copy)? {
            return Ok(Some(name));
        }
    }
    Ok(None)
}

/// Why so many parts or these names of `end` make no program, if they don't.
fn refusal_of_ends(
    alloc: Global,
    count: usize,
    finals: &[Name],
) -> Result<Option<ShapeError>, NoMemory>
    ensures { IfOk result (λ e. e ≡ end_refusal count finals.now) }
{
    if count > MAX_PARTS {
        return Ok(Some(ShapeError::TooManyParts(count)));
    }
    match first_repeated_name(alloc, finals)? {
        Some(name) => Ok(Some(ShapeError::DuplicateFinal(name.copy(alloc)?))),
        None => Ok(None),
    }
}

/// Why what the parts of this body say, their number and these names of `end` make no program, if they don't.
fn refusal_of_parts(
    alloc: Global,
    count: usize,
    body: &Block,
    finals: &[Name],
) -> Result<Option<ShapeError>, NoMemory>
    ensures { IfOk result (λ e. e ≡ part_refusal count body.now finals.now) }
{
    if let Some(tag) = first_where(body, PartTest::Large) {
        return Ok(Some(ShapeError::ExprTooLarge(tag)));
    }
    if let Some(tag) = first_where(body, PartTest::Wrong) {
        return Ok(Some(ShapeError::WrongName(tag)));
    }
    refusal_of_ends(alloc, count, finals)
}

/// Why this body, with so many parts, and these names of `end` make no program, if they don't.
fn refusal_of_body(
    alloc: Global,
    count: usize,
    body: &Block,
    finals: &[Name],
) -> Result<Option<ShapeError>, NoMemory>
    ensures { IfOk result (λ e. e ≡ body_refusal count body.now finals.now) }
{
    if let Some(tag) = first_deep(body, MAX_LEVELS) {
        return Ok(Some(ShapeError::TooDeep(tag)));
    }
    refusal_of_parts(alloc, count, body, finals)
}

/// Why these make no program, where the tags are the body's, if they don't.
fn refusal_of_tags(
    alloc: Global,
    issued: &Issued,
    tags: &[Tag],
    body: &Block,
    finals: &[Name],
) -> Result<Option<ShapeError>, NoMemory>
    ensures { IfOk result (λ e. e ≡ tag_refusal issued.now tags.now body.now finals.now) }
{
    if let Some(tag) = first_repeated(alloc, tags)? {
        return Ok(Some(ShapeError::DuplicateTag(tag)));
    }
    if let Some(tag) = first_unissued(issued, tags) {
        return Ok(Some(ShapeError::Unissued(tag)));
    }
    refusal_of_body(alloc, tags.len(), body, finals)
}

/// Why the tree of these three is no program, if it is none.
#[tactic(auto, using(crate::proofs::ShapeLemmas::refused_by_tags))]
pub(crate) fn refusal(
    alloc: Global,
    issued: &Issued,
    body: &Block,
    finals: &[Name],
) -> Result<Option<ShapeError>, NoMemory>
    ensures { IfOk result (λ e. e ≡ shape (record { issued = issued.now; body = body.now; finals = finals.now })) }
{
    let tags = tags(alloc, body)?;
    refusal_of_tags(alloc, issued, &tags, body, finals)
}
