//! The programs of orders of items, built from the last part to the first.
ghost use Rattle.std.specs.Prelude.{◌≡◌, ℕ, ◌<◌, ◌++◌, Contains, List, [], ◌∷◌, true, false, Some, None, All, length, slice_get, drop, reverse, IfOk, OnOk, vec_len};
ghost use Rattle.hpr_syntax.specs.Body.{done};
ghost use Rattle.hpr_syntax.specs.BodyOf.{body_of, before};
ghost use Rattle.hpr_forest.specs.Forest.{IsDistinct};
ghost use Rattle.hpr_forest.specs.Trees.{Slot};
ghost use Rattle.hpr_order.specs.Items.{AreSlots, block_at, program_of, said};
ghost use Rattle.hpr_order.specs.Arranging.{IsProgramOrder};
ghost use Rattle.hpr_order.specs.Building.{AreBlocks, row_at, body_at, IsSlot};

use crate::item::Item;
use hpr_graph::{Content, Name, NoMemory, Tag};
use hpr_syntax::{Block, Issued, Program, Stmt};
use hpr_terms::copy_names;
use std::alloc::Global;

/// What stands so far in the two blocks of an item, the last part first.
pub struct Branches {
    pub first: Vec<Stmt>,
    pub second: Vec<Stmt>,
}

/// Both blocks are dropped in one call.
impl Drop for Branches {
    fn drop(self) {
        let Branches {
            first: _,
            second: _,
        } = self;
    }
}

/// What stands so far at the top and in the blocks of each item, the last part first.
pub struct Pending {
    pub top: Vec<Stmt>,
    pub branches: Vec<Branches>,
}

/// All blocks are dropped in one call.
impl Drop for Pending {
    fn drop(self) {
        let Pending {
            top: _,
            branches: _,
        } = self;
    }
}

impl Pending {
    /// Nothing stands anywhere.
    fn new(alloc: Global, items: usize) -> Result<Pending, NoMemory>
        ensures none { IfOk result (λ p. (v : Slot) → row_at p v ≡ []) }
        ensures count { IfOk result (λ p. vec_len p.branches ≡ items) }
    {
        let mut branches = Vec::new(alloc);
        for _ in 0..items {
            branches.push(Branches {
                first: Vec::new(alloc),
                second: Vec::new(alloc),
            })?;
        }
        Ok(Pending {
            top: Vec::new(alloc),
            branches,
        })
    }

    /// Takes what stands at the top, as a block.
    fn take_top(&mut self, alloc: Global) -> Block
        ensures { result ≡ body_at self.old None }
    {
        block_of(std::mem::replace(&mut self.top, Vec::new(alloc)))
    }

    /// Takes what stands in the first block of an item, as a block.
    fn take_first(&mut self, alloc: Global, item: usize) -> Block
        requires { item < vec_len self.old.branches }
        ensures block { result ≡ body_at self.old (Some (item, true)) }
        ensures rest { (v : Slot) → ¬ (v ≡ Some (item, true)) → row_at self.new v ≡ row_at self.old v }
        ensures count { vec_len self.new.branches ≡ vec_len self.old.branches }
    {
        block_of(std::mem::replace(&mut self.branches[item].first, Vec::new(alloc)))
    }

    /// Takes what stands in the second block of an item, as a block.
    fn take_second(&mut self, alloc: Global, item: usize) -> Block
        requires { item < vec_len self.old.branches }
        ensures block { result ≡ body_at self.old (Some (item, false)) }
        ensures rest { (v : Slot) → ¬ (v ≡ Some (item, false)) → row_at self.new v ≡ row_at self.old v }
        ensures count { vec_len self.new.branches ≡ vec_len self.old.branches }
    {
        block_of(std::mem::replace(&mut self.branches[item].second, Vec::new(alloc)))
    }

    /// Puts a part before what stands in a slot.
    fn put(&mut self, slot: Option<(usize, bool)>, stmt: Stmt) -> Result<(), NoMemory>
        requires { IsSlot (vec_len self.old.branches) slot }
        ensures put { OnOk result (row_at self.new slot ≡ row_at self.old slot ++ stmt ∷ []) }
        ensures rest { OnOk result ((v : Slot) → ¬ (v ≡ slot) → row_at self.new v ≡ row_at self.old v) }
        ensures count { OnOk result (vec_len self.new.branches ≡ vec_len self.old.branches) }
    {
        match slot {
            None => push_stmt(&mut self.top, stmt),
            Some((item, true)) => push_stmt(&mut self.branches[item].first, stmt),
            Some((item, false)) => push_stmt(&mut self.branches[item].second, stmt),
        }
    }
}

fn push_stmt(row: &mut Vec<Stmt>, stmt: Stmt) -> Result<(), NoMemory>
    ensures { OnOk result (row.new.items ≡ row.old.items ++ stmt ∷ []) }
{
    row.push(stmt)?;
    Ok(())
}

/// The block of these statements, which stand the last first.
fn block_of(stmts: Vec<Stmt>) -> Block
    ensures { result ≡ body_of (reverse stmts.items) }
{
    let mut stmts = stmts;
    stmts.reverse();
    Block::new(stmts)
}

/// The part with these blocks, as far as it has blocks.
#[tactic(auto, using(crate::proofs::Built::said_made))]
fn statement(tag: Tag, content: Content, yes: Block, no: Block) -> Stmt
    ensures { before result done ≡ said tag content yes no done }
{
    content.into_stmt(tag, yes, no)
}

/// The block of the items that stand at the top, in this order.
fn block_in(alloc: Global, items: &[Item], order: &[usize]) -> Result<Block, NoMemory>
    requires slots { AreSlots items.now }
    requires within { All (λ c. c < length items.now) order.now }
    requires once { IsDistinct order.now }
    ensures { IfOk result (λ b. b ≡ block_at items.now order.now None) }
{
    let mut pending = Pending::new(alloc, items.len())?;
    let mut at = order.len();
    'parts: while at > 0 {
        at -= 1;
        put_item(alloc, items, order[at], &mut pending)?;
    }
    Ok(pending.take_top(alloc))
}

/// Puts the item before what stands in its slot, with its blocks.
fn put_item(
    alloc: Global,
    items: &[Item],
    item: usize,
    pending: &mut Pending,
) -> Result<(), NoMemory>
    requires slots { AreSlots items.now }
    requires item { item < length items.now }
    requires count { vec_len pending.old.branches ≡ length items.now }
    ensures blocks { OnOk result ((order : List ℕ) → AreBlocks items.now order pending.old → ¬ Contains order item
        → AreBlocks items.now (item ∷ order) pending.new) }
    ensures count { OnOk result (vec_len pending.new.branches ≡ vec_len pending.old.branches) }
{
    let content = items[item].content.copy(alloc)?;
    let yes = pending.take_first(alloc, item);
    let no = pending.take_second(alloc, item);
    let stmt = statement(items[item].tag, content, yes, no);
    pending.put(items[item].slot, stmt)
}

/// The program of the items in this order.
pub(crate) fn program_in(
    alloc: Global,
    items: &[Item],
    order: &[usize],
    issued: &Issued,
    finals: &[Name],
) -> Result<Program, NoMemory>
    requires slots { AreSlots items.now }
    requires order { IsProgramOrder items.now issued.now finals.now order.now }
    ensures { IfOk result (λ p. p ≡ program_of items.now issued.now finals.now order.now) }
{
    let body = block_in(alloc, items, order)?;
    let issued = issued.copy(alloc)?;
    let finals = copy_names(alloc, finals)?;
    Ok(Program::from_parts(issued, body, finals))
}
