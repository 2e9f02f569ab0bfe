//! Reads the tokens of an expression.
ghost use Rattle.std.specs.Prelude.{◌≡◌, ◌∷◌, [], length, drop, is_some, nat_lt, ◌^◌, MatchOption, Some, None, IfOk, OnOk, IsTrue, ◌↔◌};
ghost use Rattle.std.specs.Option.{is_none};
ghost use Rattle.hpr_terms.specs.declared.limits.TheConstants.{MAX_BRACKETS, MAX_OPERATORS};
ghost use Rattle.hpr_scan.specs.Steps.{Steps};
ghost use Rattle.hpr_terms.specs.declared.token.Token.TheVariants as tokens;
ghost use Rattle.hpr_expressions.specs.Expression as expression;
ghost use Rattle.hpr_expressions.specs.Pending as pending;
ghost use Rattle.hpr_expressions.specs.Private.Leads.{Leads, reading_of};

use crate::pending::Pending;
use hpr_scan::{Fault, TokenMachine};
use hpr_terms::limits::{MAX_BRACKETS, MAX_OPERATORS};
use hpr_terms::{Binary, Expr, Keyword, Literal, Name, NoMemory, Operand, Sign, Token, Unary};
use std::alloc::Global;
use std::marker::Model;

/// An open bracket: what waits outside of it.
#[derive(Drop)]
pub enum Outside {
    /// A round one.
    Round(Pending),
    /// The square one around the index of an element. With the name of the element's array.
    Index(Pending, Name),
}

/// The open brackets. A contract sees their list, the innermost one first.
pub struct Brackets {
    outside: Vec<Outside>,
}

/// All of it is dropped in one call.
impl Drop for Brackets {
    fn drop(self) {
        let Brackets { outside: _ } = self;
    }
}

impl Model for Brackets {
    ghost use Rattle.std.specs.Prelude.{List, reverse};
    ghost use Rattle.std.specs.Coded.{codes};
    ghost use Rattle.hpr_terms.specs.Private.TermCode.{term_coded};
    ghost use Rattle.hpr_expressions.specs.declared.expression.Outside.{Outside};

    ghost Value = { List Outside };

    ghost coded = { Prim.hlevel (codes, term_coded) };

    ghost view = { λ b. reverse b.outside.items };
}

impl Brackets {
    fn new(alloc: Global) -> Brackets
        ensures { result ≡ [] }
    {
        Brackets {
            outside: Vec::new(alloc),
        }
    }

    fn len(&self) -> usize
        ensures { result ≡ length self.now }
    {
        self.outside.len()
    }

    fn is_empty(&self) -> bool
        ensures { IsTrue result ↔ (self.now ≡ []) }
    {
        self.outside.is_empty()
    }

    fn push(&mut self, outside: Outside) -> Result<(), NoMemory>
        ensures { OnOk result (self.new ≡ outside ∷ self.old) }
    {
        Ok(self.outside.push(outside)?)
    }

    fn pop(&mut self) -> Option<Outside>
        ensures { MatchOption result (self.old ≡ []) (λ o. self.old ≡ o ∷ self.new) }
    {
        self.outside.pop()
    }

    #[tactic(auto, using(crate::proofs::Innermost::first_none, crate::proofs::Innermost::first_some))]
    fn innermost(&self) -> Option<&Outside>
        ensures { MatchOption result (self.now ≡ []) (λ o. self.now ≡ o.now ∷ drop 1 self.now) }
    {
        self.outside.last()
    }
}

/// What stands before an operand: the brackets around it, what waits in the innermost one, and how
/// many operators there are.
pub struct Context {
    outer: Brackets,
    here: Pending,
    count: usize,
}

/// All of it is dropped in one call.
impl Drop for Context {
    fn drop(self) {
        let Context {
            outer: _,
            here: _,
            count: _,
        } = self;
    }
}

/// How far an expression was read. A contract sees a `Reader` as one of these.
///
/// A token can stand next exactly where the grammar of expressions lets it: operands are names,
/// literals up to 9,223,372,036,854,775,807, elements and round brackets, at most 256 brackets of
/// both kinds in one another; there are at most 256 operators, of which each element is one; and at
/// most one comparison stands between two brackets, `and`s or `or`s.
pub enum Reading {
    /// An operand, a prefix or an opening bracket must stand next.
    Before(Context),
    /// A name was read as an operand: `[` may stand next, or what may stand behind any operand.
    Named(Context, Name),
    /// Another operand was read: an operator or a closing bracket may stand next, or the expression
    /// may end.
    After(Context, Expr),
}

/// What was read last.
#[derive(Drop)]
pub enum Last {
    /// No operand.
    Nothing,
    /// A name as an operand.
    Name(Name),
    /// Another operand.
    Value(Expr),
}

/// A machine of the tokens of an expression: what stands before an operand, and the operand, if one
/// was read.
pub struct Reader {
    context: Context,
    last: Last,
}

/// All of it is dropped in one call.
impl Drop for Reader {
    fn drop(self) {
        let Reader {
            context: _,
            last: _,
        } = self;
    }
}

impl Model for Reader {
    ghost use Rattle.std.specs.Coded.{codes};
    ghost use Rattle.hpr_terms.specs.Private.TermCode.{term_coded};
    ghost use Rattle.hpr_expressions.specs.declared.expression.Reading.{Reading};
    ghost use Rattle.hpr_expressions.specs.Private.Leads.{reading_of};

    ghost Value = { Reading };

    ghost coded = { Prim.hlevel (codes, term_coded) };

    ghost view = { λ r. reading_of r.context r.last };
}

// Each of these takes a token, or what one stands for, in place. It answers the operand that was read then, or that
// there is none, where an operand must stand next. What a refusal leaves is of no use.
impl Context {
    fn counted(&mut self) -> Result<Last, Fault>
        ensures { Leads (expression.counted self.old self.old.here) self.new result }
    {
        if !self.counts() {
            return Err(Fault::Refused);
        }
        self.count += 1;
        Ok(Last::Nothing)
    }

    fn open(&mut self, alloc: Global) -> Result<Last, Fault>
        ensures { Leads (expression.open_next self.old) self.new result }
    {
        if !self.opens() {
            return Err(Fault::Refused);
        }
        let pending = std::mem::replace(&mut self.here, Pending::new(alloc));
        self.outer.push(Outside::Round(pending))?;
        Ok(Last::Nothing)
    }

    fn open_index(&mut self, alloc: Global, name: Name) -> Result<Last, Fault>
        ensures { Leads (expression.index_next self.old name) self.new result }
    {
        if !self.indexes(&name) {
            return Err(Fault::Refused);
        }
        let array = Name::array(alloc, &name)?;
        let pending = std::mem::replace(&mut self.here, Pending::new(alloc));
        self.outer.push(Outside::Index(pending, array))?;
        self.count += 1;
        Ok(Last::Nothing)
    }

    fn prefix(&mut self, op: Unary) -> Result<Last, Fault>
        ensures { Leads (expression.counted self.old (pending.with_prefix self.old.here op)) self.new result }
    {
        self.here.prefix(op)?;
        self.counted()
    }

    fn literal(&mut self, number: u64) -> Result<Last, Fault>
        ensures { Leads (expression.operand_next self.old (tokens.Number number)) self.new result }
    {
        match Literal::new(number) {
            Some(literal) => Ok(Last::Value(Expr::Num(literal))),
            None => Err(Fault::Refused),
        }
    }

    fn word_before(&mut self, keyword: Keyword) -> Result<Last, Fault>
        ensures { Leads (expression.operand_next self.old (tokens.Word keyword)) self.new result }
    {
        match keyword {
            Keyword::Not => self.prefix(Unary::Not),
            _ => Err(Fault::Refused),
        }
    }

    fn sign_before(&mut self, alloc: Global, sign: Sign) -> Result<Last, Fault>
        ensures { Leads (expression.operand_next self.old (tokens.Mark sign)) self.new result }
    {
        match sign {
            Sign::Open => self.open(alloc),
            Sign::Minus => self.prefix(Unary::Neg),
            _ => Err(Fault::Refused),
        }
    }

    fn operand_next(&mut self, alloc: Global, token: Token) -> Result<Last, Fault>
        ensures { Leads (expression.operand_next self.old token) self.new result }
    {
        match token {
            Token::Number(number) => self.literal(number),
            Token::Name(name) => Ok(Last::Name(name)),
            Token::Mark(sign) => self.sign_before(alloc, sign),
            Token::Word(keyword) => self.word_before(keyword),
        }
    }

    fn join_or(&mut self, alloc: Global, value: Expr) -> Result<Last, Fault>
        ensures { Leads (expression.counted self.old (pending.with_or self.old.here Binary.Or value)) self.new result }
    {
        self.here.join_or(alloc, Binary::Or, value)?;
        self.counted()
    }

    fn join_and(&mut self, alloc: Global, value: Expr) -> Result<Last, Fault>
        ensures { Leads (expression.counted self.old
            (pending.with_and self.old.here Binary.And value)) self.new result }
    {
        self.here.join_and(alloc, Binary::And, value)?;
        self.counted()
    }

    fn compare(&mut self, alloc: Global, op: Binary, value: Expr) -> Result<Last, Fault>
        ensures { Leads (expression.compare_next self.old.here.compared self.old op value) self.new result }
    {
        if self.here.compared.is_some() {
            return Err(Fault::Refused);
        }
        self.here.compare(alloc, op, value)?;
        self.counted()
    }

    fn add(&mut self, alloc: Global, op: Binary, value: Expr) -> Result<Last, Fault>
        ensures { Leads (expression.counted self.old (pending.with_sum self.old.here op value)) self.new result }
    {
        self.here.add(alloc, op, value)?;
        self.counted()
    }

    fn multiply(&mut self, alloc: Global, op: Binary, value: Expr) -> Result<Last, Fault>
        ensures { Leads (expression.counted self.old (pending.with_term self.old.here op value)) self.new result }
    {
        self.here.multiply(alloc, op, value)?;
        self.counted()
    }

    fn close(&mut self, alloc: Global, value: Expr) -> Result<Last, Fault>
        ensures { Leads (expression.close_next self.old.outer self.old.here self.old.count value) self.new result }
    {
        let whole = self.here.whole(alloc, value)?;
        match self.outer.pop() {
            Some(Outside::Round(pending)) => {
                self.here = pending;
                Ok(Last::Value(whole))
            }
            _ => Err(Fault::Refused),
        }
    }

    fn close_index(&mut self, alloc: Global, value: Expr) -> Result<Last, Fault>
        ensures { Leads (expression.index_closed self.old.outer self.old.here self.old.count value)
            self.new result }
    {
        let index = self.here.whole(alloc, value)?;
        match self.outer.pop() {
            Some(Outside::Index(pending, array)) => {
                self.here = pending;
                Ok(Last::Value(Expr::Elem(array, Operand::new(alloc, index)?)))
            }
            _ => Err(Fault::Refused),
        }
    }

    fn word_next(&mut self, alloc: Global, value: Expr, keyword: Keyword) -> Result<Last, Fault>
        ensures { Leads (expression.operator_next self.old value (tokens.Word keyword)) self.new result }
    {
        match keyword {
            Keyword::Or => self.join_or(alloc, value),
            Keyword::And => self.join_and(alloc, value),
            _ => Err(Fault::Refused),
        }
    }

    fn sign_next(&mut self, alloc: Global, value: Expr, sign: Sign) -> Result<Last, Fault>
        ensures { Leads (expression.operator_next self.old value (tokens.Mark sign)) self.new result }
    {
        match sign {
            Sign::Equal => self.compare(alloc, Binary::Equal, value),
            Sign::Differ => self.compare(alloc, Binary::Differ, value),
            Sign::Less => self.compare(alloc, Binary::Less, value),
            Sign::LessEqual => self.compare(alloc, Binary::LessEqual, value),
            Sign::Greater => self.compare(alloc, Binary::Greater, value),
            Sign::GreaterEqual => self.compare(alloc, Binary::GreaterEqual, value),
            Sign::Plus => self.add(alloc, Binary::Add, value),
            Sign::Minus => self.add(alloc, Binary::Sub, value),
            Sign::Star => self.multiply(alloc, Binary::Mul, value),
            Sign::Slash => self.multiply(alloc, Binary::Div, value),
            Sign::Percent => self.multiply(alloc, Binary::Rem, value),
            Sign::Close => self.close(alloc, value),
            Sign::CloseSquare => self.close_index(alloc, value),
            _ => Err(Fault::Refused),
        }
    }

    fn operator_next(&mut self, alloc: Global, value: Expr, token: Token) -> Result<Last, Fault>
        ensures { Leads (expression.operator_next self.old value token) self.new result }
    {
        match token {
            Token::Word(keyword) => self.word_next(alloc, value, keyword),
            Token::Mark(sign) => self.sign_next(alloc, value, sign),
            Token::Name(_) => Err(Fault::Refused),
            Token::Number(_) => Err(Fault::Refused),
        }
    }

    fn named_next(&mut self, alloc: Global, name: Name, token: Token) -> Result<Last, Fault>
        ensures { Leads (expression.named_next self.old name token) self.new result }
    {
        match token {
            Token::Mark(Sign::OpenSquare) => self.open_index(alloc, name),
            other => self.operator_next(alloc, Expr::Var(name), other),
        }
    }
}

impl Context {
    fn counts(&self) -> bool
        ensures { result ≡ nat_lt self.now.count MAX_OPERATORS }
    {
        self.count < MAX_OPERATORS
    }

    fn opens(&self) -> bool
        ensures { result ≡ nat_lt (length self.now.outer) MAX_BRACKETS }
    {
        self.outer.len() < MAX_BRACKETS
    }

    fn indexes(&self, name: &Name) -> bool
        ensures { result ≡ expression.may_index self.now name.now }
    {
        name.is_plain() && self.opens() && self.counts()
    }

    fn ended(mut self, alloc: Global, value: Expr) -> Result<Expr, Fault>
        ensures { Steps (expression.ended_in self.outer self.here value) result }
    {
        if !self.outer.is_empty() {
            return Err(Fault::Refused);
        }
        Ok(self.here.whole(alloc, value)?)
    }

    fn compares(&self) -> bool
        ensures { (op : _) (e : _) → result ≡ is_some (expression.compare_next self.now.here.compared self.now op e) }
    {
        self.here.compared.is_none() && self.counts()
    }

    fn closes(&self) -> bool
        ensures { (e : _) → result ≡ is_some (expression.close_next self.now.outer self.now.here self.now.count e) }
    {
        matches!(self.outer.innermost(), Some(Outside::Round(_)))
    }

    fn closes_index(&self) -> bool
        ensures { (e : _) → result ≡ is_some (expression.index_closed self.now.outer self.now.here self.now.count e) }
    {
        matches!(self.outer.innermost(), Some(Outside::Index(_, _)))
    }

    fn operand_sign(&self, sign: Sign) -> bool
        ensures { result ≡ is_some (expression.operand_next self.now (tokens.Mark sign)) }
    {
        match sign {
            Sign::Open => self.opens(),
            Sign::Minus => self.counts(),
            _ => false,
        }
    }

    fn operator_sign(&self, sign: Sign) -> bool
        ensures { (e : _) → result ≡ is_some (expression.operator_next self.now e (tokens.Mark sign)) }
    {
        match sign {
            Sign::Equal
            | Sign::Differ
            | Sign::Less
            | Sign::LessEqual
            | Sign::Greater
            | Sign::GreaterEqual => self.compares(),
            Sign::Plus | Sign::Minus | Sign::Star | Sign::Slash | Sign::Percent => self.counts(),
            Sign::Close => self.closes(),
            Sign::CloseSquare => self.closes_index(),
            _ => false,
        }
    }

    fn named_sign(&self, name: &Name, sign: Sign) -> bool
        ensures { result ≡ is_some (expression.named_next self.now name.now (tokens.Mark sign)) }
    {
        match sign {
            Sign::OpenSquare => self.indexes(name),
            other => self.operator_sign(other),
        }
    }
}

impl TokenMachine for Reader {
    ghost use Rattle.hpr_expressions.specs.Expression as expression;
    ghost use Rattle.hpr_expressions.specs.Laws.{reading_is_token_machine, reading_live};

    ghost next = { expression.read };

    ghost may_end = { expression.can_end };

    ghost laws = { reading_is_token_machine };

    ghost live = { reading_live };

    #[tactic(auto, unfolding(crate::specs::Expression::read))]
    fn step(&mut self, alloc: Global, token: Token) -> Result<(), Fault> {
        self.last = match std::mem::replace(&mut self.last, Last::Nothing) {
            Last::Nothing => self.context.operand_next(alloc, token)?,
            Last::Name(name) => self.context.named_next(alloc, name, token)?,
            Last::Value(value) => self.context.operator_next(alloc, value, token)?,
        };
        Ok(())
    }

    #[tactic(auto, unfolding(crate::specs::Expression::read))]
    fn takes_keyword(&self, keyword: Keyword) -> bool {
        match &self.last {
            Last::Nothing => matches!(keyword, Keyword::Not) && self.context.counts(),
            _ => matches!(keyword, Keyword::Or | Keyword::And) && self.context.counts(),
        }
    }

    #[tactic(auto, unfolding(crate::specs::Expression::read))]
    fn takes_name(&self) -> bool {
        matches!(self.last, Last::Nothing)
    }

    #[tactic(auto, unfolding(crate::specs::Expression::read))]
    fn takes_number(&self, number: u64) -> bool {
        matches!(self.last, Last::Nothing) && number <= i64::MAX as u64
    }

    #[tactic(auto, unfolding(crate::specs::Expression::read))]
    fn takes_sign(&self, sign: Sign) -> bool {
        match &self.last {
            Last::Nothing => self.context.operand_sign(sign),
            Last::Name(name) => self.context.named_sign(name, sign),
            Last::Value(_) => self.context.operator_sign(sign),
        }
    }

    fn can_end(&self) -> bool {
        !matches!(self.last, Last::Nothing) && self.context.outer.is_empty()
    }
}

impl Reader {
    /// Nothing of the expression was read.
    pub fn start(alloc: Global) -> Reader
        ensures { result ≡ expression.start }
    {
        Reader::start_after(alloc, 0)
    }

    /// Nothing of the expression was read, and so many operators stand before it that count together
    /// with its own.
    pub fn start_after(alloc: Global, operators: usize) -> Reader
        ensures { result ≡ expression.start_after operators }
    {
        Reader {
            context: Context {
                outer: Brackets::new(alloc),
                here: Pending::new(alloc),
                count: operators,
            },
            last: Last::Nothing,
        }
    }

    /// How many operators were counted: those before the expression, and those that were read.
    pub fn operators(&self) -> usize
        ensures { result ≡ expression.counted_in self.now }
    {
        self.context.count
    }

    /// The expression whose tokens were read.
    ///
    /// `Refused` comes exactly where the expression cannot end: an operand must stand next, or a
    /// bracket is open. `Memory` comes where memory ran out.
    pub fn ended(self, alloc: Global) -> Result<Expr, Fault>
        ensures { Steps (expression.ended self) result }
    {
        let Reader { context, last } = self;
        match last {
            Last::Nothing => Err(Fault::Refused),
            Last::Name(name) => context.ended(alloc, Expr::Var(name)),
            Last::Value(value) => context.ended(alloc, value),
        }
    }
}
