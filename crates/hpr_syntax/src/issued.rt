//! Issued numbers.
ghost use Rattle.std.specs.Prelude.{◌≡◌, ◌≢◌, ℕ, max, [], ◌≤◌, IfOk, OnOk, OnErr};
ghost use Rattle.std.proofs.Common.{rules};
ghost use Rattle.std.specs.Cmp.Rules.{comparing};
ghost use Rattle.std.specs.Ordering.{as_partial_cmp};
ghost use Rattle.hpr_syntax.specs.Comparisons.{same_issued, issued_cmp, issued_total, issued_ties, issued_po};
ghost use Rattle.hpr_syntax.specs.Issued.{IsIssued, issued_to, raised, place_of};

use hpr_terms::NoMemory;
use std::alloc::Global;
use std::cmp::Ordering;
use std::marker::Model;

/// For each author, the greatest serial that was ever issued to it; an author without one has 0.
///
/// A contract sees the pairs of author and number, ascending by author, each number at least 1.
#[derive(Drop)]
pub struct Issued {
    rows: Vec<(u32, u32)>,
}

impl Model for Issued {
    ghost use Rattle.std.specs.Prelude.{List, ℕ};
    ghost use Rattle.hpr_syntax.specs.Issued.{IsIssued};

    ghost Value = { List (ℕ × ℕ) };

    ghost view = { λ a. a.rows.items };

    ghost invariant = { λ a. IsIssued a.rows.items };
}

impl Issued {
    /// No author has a number.
    pub fn new(alloc: Global) -> Issued
        ensures { result ≡ [] }
    {
        Issued {
            rows: Vec::new(alloc),
        }
    }

    /// The pairs of author and number, ascending by author.
    pub fn rows(&self) -> &[(u32, u32)]
        ensures rows { result.now ≡ self.now }
        ensures issued { IsIssued self.now }
    {
        &self.rows
    }

    /// A copy.
    pub fn copy(&self, alloc: Global) -> Result<Issued, NoMemory>
        ensures { IfOk result (λ i. i ≡ self.now) }
    {
        let mut rows = Vec::new(alloc);
        rows.extend_from_slice(&self.rows)?;
        Ok(Issued { rows })
    }

    /// The author's number, or 0 where it has none.
    #[tactic(auto, using(crate::proofs::IssuedLemmas::issued_here, crate::proofs::IssuedLemmas::issued_none))]
    pub fn get(&self, author: u32) -> u32
        ensures { result ≡ issued_to author self.now }
    {
        let at = place(&self.rows, author);
        if at < self.rows.len() && self.rows[at].0 == author {
            self.rows[at].1
        } else {
            0
        }
    }

    /// Makes the author's number the greater of its own and this one.
    #[tactic(auto, using(crate::proofs::IssuedLemmas::raised_keeps, crate::proofs::IssuedLemmas::raised_greater, crate::proofs::IssuedLemmas::raised_others))]
    pub fn raise(&mut self, author: u32, serial: u32) -> Result<(), NoMemory>
        requires { 1 ≤ serial }
        ensures ok { OnOk result (self.new ≡ raised author serial self.old) }
        ensures greater { OnOk result (issued_to author self.new ≡ max (issued_to author self.old) serial) }
        ensures others { OnOk result ((a : ℕ) → a ≢ author → issued_to a self.new ≡ issued_to a self.old) }
        ensures err { OnErr result (self.new ≡ self.old) }
    {
        raise_rows(&mut self.rows, author, serial)
    }
}

/// Issued numbers that are still raised, as by a reader that comes to one after the other.
///
/// A contract sees the pairs that the raises so far come to, as those of [`Issued`].
#[derive(Drop)]
pub struct IssuedDraft {
    raises: Vec<(u32, u32)>,
}

impl Model for IssuedDraft {
    ghost use Rattle.std.specs.Prelude.{List, ℕ, [], All, ◌≤◌};
    ghost use Rattle.hpr_syntax.specs.Issued.{raised_by};

    ghost Value = { List (ℕ × ℕ) };

    ghost view = { λ d. raised_by d.raises.items [] };

    ghost invariant = { λ d. All (λ p. 1 ≤ p.1) d.raises.items };
}

impl IssuedDraft {
    /// No author has a number.
    pub fn new(alloc: Global) -> IssuedDraft
        ensures { result ≡ [] }
    {
        IssuedDraft {
            raises: Vec::new(alloc),
        }
    }

    /// Makes the author's number the greater of its own and this one. It takes constant time, in whatever
    /// order authors come.
    #[tactic(auto, using(crate::proofs::RaisedInAnyOrder::raised_last))]
    pub fn raise(&mut self, author: u32, serial: u32) -> Result<(), NoMemory>
        requires { 1 ≤ serial }
        ensures ok { OnOk result (self.new ≡ raised author serial self.old) }
        ensures err { OnErr result (self.new ≡ self.old) }
    {
        self.raises.push((author, serial))?;
        Ok(())
    }

    /// The numbers. They are sorted once.
    #[tactic(auto, using(crate::proofs::RaisedInAnyOrder::raised_in_any_order))]
    pub fn finish(self) -> Result<Issued, NoMemory>
        ensures { IfOk result (λ i. i ≡ self) }
    {
        let IssuedDraft { mut raises } = self;
        raises.sort()?;
        let mut issued = Issued::new(*raises.allocator());
        for (author, serial) in &raises {
            issued.raise(*author, *serial)?;
        }
        Ok(issued)
    }
}

/// The place of the first row whose author isn't below this one.
#[tactic(auto, using(crate::proofs::IssuedLemmas::place_end, crate::proofs::IssuedLemmas::place_above, crate::proofs::IssuedLemmas::place_within))]
fn place(rows: &[(u32, u32)], author: u32) -> usize
    requires { IsIssued rows.now }
    ensures { result ≡ place_of author rows.now }
{
    let mut low = 0;
    let mut high = rows.len();
    while low < high {
        let middle = low + (high - low) / 2;
        if rows[middle].0 < author {
            low = middle + 1;
        } else {
            high = middle;
        }
    }
    low
}

#[tactic(auto, using(crate::proofs::IssuedLemmas::place_end, crate::proofs::IssuedLemmas::raised_set, crate::proofs::IssuedLemmas::raised_insert))]
fn raise_rows(rows: &mut Vec<(u32, u32)>, author: u32, serial: u32) -> Result<(), NoMemory>
    requires { IsIssued rows.old.items }
    ensures ok { OnOk result (rows.new.items ≡ raised author serial rows.old.items) }
    ensures err { OnErr result (rows.new.items ≡ rows.old.items) }
{
    let at = place(rows, author);
    if at < rows.len() && rows[at].0 == author {
        if rows[at].1 < serial {
            rows[at] = (author, serial);
        }
    } else {
        rows.insert(at, (author, serial))?;
    }
    Ok(())
}

impl PartialEq for Issued {
    ghost eq = { same_issued };

    ghost laws = { Prim.search (comparing, rules) };

    fn eq(&self, other: &Issued) -> bool {
        self.rows == other.rows
    }
}

impl Eq for Issued {
    ghost laws = { Prim.search (comparing, rules) };
}

impl Ord for Issued {
    ghost cmp = { issued_cmp };

    ghost total = { issued_total };

    ghost matches_partial_cmp = { Prim.search (comparing, rules) };

    ghost matches_eq = { issued_ties };

    fn cmp(&self, other: &Issued) -> Ordering {
        self.rows.cmp(&other.rows)
    }
}

impl PartialOrd for Issued {
    ghost partial_cmp = { as_partial_cmp issued_cmp };

    ghost laws = { issued_po };

    fn partial_cmp(&self, other: &Issued) -> Option<Ordering> {
        Some(self.cmp(other))
    }
}
