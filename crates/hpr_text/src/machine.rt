//! The machine of the tokens of a program.
ghost use Rattle.std.specs.Prelude.{◌≡◌, ℕ, List, Option, is_some};
ghost use Rattle.hpr_scan.specs.Steps.{Moves};
ghost use Rattle.hpr_text.specs.Machine as machine;

use crate::places::{
    is_author, is_serial, takes_block, takes_expression_keyword, takes_expression_sign,
    takes_header, takes_index_sign, takes_name_sign, takes_tag, takes_target_sign,
};
use crate::state::{Place, State};
use hpr_scan::{Fault, TokenMachine};
use hpr_terms::{Keyword, Sign, Token};
use std::alloc::Global;
use std::mem;

impl State {
    /// Takes the token, and goes to another place.
    #[tactic(auto, unfolding(crate::specs::Machine::next))]
    fn leave(&mut self, alloc: Global, token: Token) -> Result<(), Fault>
        ensures { Moves (machine.next machine.limit self.old token) self.new result }
    {
        let place = mem::replace(&mut self.place, Place::Start);
        self.place = self.found.next_at(alloc, place, token)?;
        Ok(())
    }
}

impl TokenMachine for State {
    ghost use Rattle.hpr_text.specs.Machine as machine;
    ghost use Rattle.hpr_text.specs.Laws.{is_token_machine};
    ghost use Rattle.hpr_text.specs.Live.{live};

    ghost next = { machine.next machine.limit };

    ghost may_end = { machine.may_end };

    ghost laws = { is_token_machine machine.limit };

    ghost live = { live };

    #[tactic(auto, unfolding(crate::specs::Machine::next), using(crate::proofs::Going::goes_on_within))]
    fn step(&mut self, alloc: Global, token: Token) -> Result<(), Fault> {
        if let Place::InExpression(purpose, reading) = &mut self.place {
            if !purpose.ends_at(&token) {
                return reading.step(alloc, token);
            }
        }
        self.leave(alloc, token)
    }

    #[tactic(auto, unfolding(crate::specs::Machine::next))]
    fn takes_keyword(&self, keyword: Keyword) -> bool {
        match &self.place {
            Place::Start => matches!(keyword, Keyword::Program),
            Place::AfterProgram => {
                matches!(keyword, Keyword::Issued) && takes_header(&self.found)
                    || takes_block(&self.found, keyword)
            }
            Place::AfterPair => takes_block(&self.found, keyword),
            Place::AtPart => takes_block(&self.found, keyword),
            Place::AfterColon(_) => {
                matches!(keyword, Keyword::If | Keyword::While | Keyword::Write)
            }
            Place::InIndex(_, _, reading) => reading.reader().takes_keyword(keyword),
            Place::InExpression(purpose, reading) => {
                takes_expression_keyword(&self.found, purpose, reading.reader(), keyword)
            }
            Place::AfterOpen => matches!(keyword, Keyword::Out),
            Place::AfterComma => matches!(keyword, Keyword::Out),
            _ => false,
        }
    }

    #[tactic(auto, unfolding(crate::specs::Machine::next), using(crate::proofs::Going::goes_on_is_some))]
    fn takes_name(&self) -> bool {
        match &self.place {
            Place::AfterProgram => self.found.can_begin(),
            Place::AfterPair => self.found.can_begin(),
            Place::AtPart => self.found.can_begin(),
            Place::AfterColon(_) => true,
            Place::InIndex(_, _, reading) => reading.reader().takes_name(),
            Place::InExpression(_, reading) => reading.reader().takes_name(),
            Place::AfterOpen => true,
            Place::AfterComma => true,
            _ => false,
        }
    }

    #[tactic(auto, unfolding(crate::specs::Machine::next), using(crate::proofs::Going::goes_on_is_some))]
    fn takes_number(&self, number: u64) -> bool {
        match &self.place {
            Place::AfterProgram => takes_tag(&self.found, number),
            Place::BeforePair => is_author(number),
            Place::AfterPair => takes_tag(&self.found, number),
            Place::AtPart => takes_tag(&self.found, number),
            Place::AfterPairColon(_) => is_serial(number),
            Place::AfterDot(_) => is_serial(number),
            Place::InIndex(_, _, reading) => reading.reader().takes_number(number),
            Place::InExpression(_, reading) => reading.reader().takes_number(number),
            _ => false,
        }
    }

    #[tactic(auto, unfolding(crate::specs::Machine::next))]
    fn takes_sign(&self, sign: Sign) -> bool {
        match &self.place {
            Place::AfterPairAuthor(_) => matches!(sign, Sign::Colon),
            Place::AfterPair => matches!(sign, Sign::Comma),
            Place::AfterAuthor(_) => matches!(sign, Sign::Dot),
            Place::AfterSerial(_) => matches!(sign, Sign::Colon),
            Place::AfterTarget(_, name) => takes_target_sign(name, sign),
            Place::InIndex(_, _, reading) => takes_index_sign(reading.reader(), sign),
            Place::AfterIndex(_, _, _, _) => matches!(sign, Sign::Becomes),
            Place::InExpression(purpose, reading) => {
                takes_expression_sign(&self.found, purpose, reading.reader(), sign)
            }
            Place::AfterEnd => matches!(sign, Sign::Open),
            Place::AfterOpen => matches!(sign, Sign::Close),
            Place::AfterName(name) => takes_name_sign(name, sign),
            Place::AfterNameOpen(_) => matches!(sign, Sign::CloseSquare),
            Place::AfterFinal => matches!(sign, Sign::Comma | Sign::Close),
            _ => false,
        }
    }

    fn can_end(&self) -> bool {
        matches!(self.place, Place::AtEnd)
    }
}
