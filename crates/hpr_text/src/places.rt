//! Where a token leads, by the place of the grammar.
ghost use Rattle.std.specs.Prelude.{◌≡◌, ◌^◌, nat_lt, nat_le, ◌&&◌, is_some};
ghost use Rattle.hpr_text.specs.Machine as machine;
ghost use Rattle.hpr_expressions.specs.Expression as expression;
ghost use Rattle.hpr_text.specs.Private.InPlace.{InPlace};
ghost use Rattle.hpr_terms.specs.declared.token.Token.TheVariants as tokens;

use crate::blocks::Kind;
use crate::boxed::BoxedReader;
use crate::form::Mode;
use crate::found::Found;
use crate::state::{Place, Purpose};
use hpr_expressions::Reader;
use hpr_scan::{Fault, TokenMachine};
use hpr_terms::limits::TAG_NUMBERS;
use hpr_terms::{Expr, Keyword, Name, Sign, Tag, Token};
use std::alloc::Global;

/// Whether the number can be an author.
pub fn is_author(number: u64) -> bool
    ensures { result ≡ nat_lt number (2 ^ 32) }
{
    number < TAG_NUMBERS
}

/// Whether the number can be a serial.
pub fn is_serial(number: u64) -> bool
    ensures { result ≡ (nat_le 1 number && nat_lt number (2 ^ 32)) }
{
    1 <= number && is_author(number)
}

/// Whether a part can stand next that begins with this number.
pub fn takes_tag(found: &Found, number: u64) -> bool
    ensures { result ≡ is_some (machine.part_next machine.limit found.now (tokens.Number number)) }
{
    match found.mode {
        Mode::Tagged => found.has_room() && is_author(number),
        Mode::Untagged(_) => false,
    }
}

/// Whether `issued` can stand next, behind `program`.
pub fn takes_header(found: &Found) -> bool
    ensures { result ≡ is_some (machine.header_next found.now.mode found.now) }
{
    matches!(found.mode, Mode::Tagged)
}

/// Whether the keyword can stand next, where a part can.
pub fn takes_block(found: &Found, keyword: Keyword) -> bool
    ensures { result ≡ is_some (machine.part_next machine.limit found.now (tokens.Word keyword)) }
{
    match keyword {
        Keyword::If => found.can_begin(),
        Keyword::While => found.can_begin(),
        Keyword::Write => found.can_begin(),
        Keyword::End => matches!(found.blocks.kind(), Kind::Top),
        Keyword::Else => matches!(found.blocks.kind(), Kind::Then),
        Keyword::Fi => matches!(found.blocks.kind(), Kind::Then | Kind::Else),
        Keyword::Od => matches!(found.blocks.kind(), Kind::Loop),
        _ => false,
    }
}

/// Whether the keyword can stand next in an expression, or behind it.
#[tactic(auto, using(crate::proofs::Going::goes_on_is_some, crate::proofs::Going::ends_here_is_some))]
pub fn takes_expression_keyword(
    found: &Found,
    purpose: &Purpose,
    reading: &Reader,
    keyword: Keyword,
) -> bool
    ensures { result ≡ is_some (machine.expression_next machine.limit found.now purpose.now reading.now
        (tokens.Word keyword)) }
{
    match (purpose, keyword) {
        (Purpose::Test(_), Keyword::Then) => reading.can_end(),
        (Purpose::Guard(_), Keyword::Do) => reading.can_end(),
        _ => reading.takes_keyword(keyword),
    }
}

/// Whether the sign can stand next in an expression, or behind it.
#[tactic(auto, using(crate::proofs::Going::goes_on_is_some, crate::proofs::Going::ends_here_is_some))]
pub fn takes_expression_sign(found: &Found, purpose: &Purpose, reading: &Reader, sign: Sign) -> bool
    ensures { result ≡ is_some (machine.expression_next machine.limit found.now purpose.now reading.now
        (tokens.Mark sign)) }
{
    match (purpose, sign) {
        (Purpose::Assign(_, _), Sign::Semicolon) => reading.can_end(),
        (Purpose::Output(_), Sign::Semicolon) => reading.can_end(),
        (Purpose::Store(_, _, _), Sign::Semicolon) => reading.can_end(),
        _ => reading.takes_sign(sign),
    }
}

/// Whether the sign can stand behind the name at which a part begins.
pub fn takes_target_sign(name: &Name, sign: Sign) -> bool
    ensures { (f : _) (t : _) → result ≡ is_some (machine.target_next f t name.now (tokens.Mark sign)) }
{
    match sign {
        Sign::Becomes => true,
        Sign::OpenSquare => name.is_plain(),
        _ => false,
    }
}

/// Whether the sign can stand next in the index of a store, or behind it.
#[tactic(auto, using(crate::proofs::Going::goes_on_is_some, crate::proofs::Going::index_ends_is_some))]
pub fn takes_index_sign(reading: &Reader, sign: Sign) -> bool
    ensures { (f : _) (t : _) (a : _) → result ≡ is_some (machine.in_index_next f t a reading.now
        (tokens.Mark sign)) }
{
    match sign {
        Sign::CloseSquare => reading.can_end() || reading.takes_sign(sign),
        _ => reading.takes_sign(sign),
    }
}

/// Whether the sign can stand behind a name of `end`.
pub fn takes_name_sign(name: &Name, sign: Sign) -> bool
    ensures { (f : _) → result ≡ is_some (machine.name_next f name.now (tokens.Mark sign)) }
{
    match sign {
        Sign::Comma => true,
        Sign::Close => true,
        Sign::OpenSquare => name.is_plain(),
        _ => false,
    }
}

// Each of these takes a token in place, and answers the place behind it. What a refusal leaves is of no use.
impl Found {
    fn start_next(&mut self, token: Token) -> Result<Place, Fault>
        ensures { InPlace (machine.state_at self.new) (machine.start_next self.old token) result }
    {
        match token {
            Token::Word(Keyword::Program) => Ok(Place::AfterProgram),
            _ => Err(Fault::Refused),
        }
    }

    fn tag_next(&mut self, number: u64) -> Result<Place, Fault>
        ensures { InPlace (machine.state_at self.new) (machine.tag_next self.old.mode self.old number) result }
    {
        if takes_tag(self, number) {
            Ok(Place::AfterAuthor(number as u32))
        } else {
            Err(Fault::Refused)
        }
    }

    fn first_next(&mut self, alloc: Global, token: Token) -> Result<Place, Fault>
        ensures { InPlace (machine.state_at self.new) (machine.first_next
            (machine.part_begun machine.limit self.old) token) result }
    {
        let tag = self.begin()?;
        self.colon_next(alloc, tag, token)
    }

    fn parts_end(&mut self) -> Result<Place, Fault>
        ensures { InPlace (machine.state_at self.new) (machine.ends_parts self.old.blocks self.old) result }
    {
        if self.blocks.len() == 0 {
            Ok(Place::AfterEnd)
        } else {
            Err(Fault::Refused)
        }
    }

    fn else_next(&mut self, alloc: Global) -> Result<Place, Fault>
        ensures { InPlace (machine.state_at self.new) (machine.at_part (machine.else_found self.old)) result }
    {
        self.turn_to_else(alloc)?;
        Ok(Place::AtPart)
    }

    fn fi_next(&mut self, alloc: Global) -> Result<Place, Fault>
        ensures { InPlace (machine.state_at self.new) (machine.at_part
            (machine.fi_found machine.limit self.old)) result }
    {
        self.end_conditional(alloc)?;
        Ok(Place::AtPart)
    }

    fn od_next(&mut self) -> Result<Place, Fault>
        ensures { InPlace (machine.state_at self.new) (machine.at_part
            (machine.od_found machine.limit self.old)) result }
    {
        self.end_loop()?;
        Ok(Place::AtPart)
    }

    fn block_next(&mut self, alloc: Global, keyword: Keyword) -> Result<Place, Fault>
        ensures { InPlace (machine.state_at self.new) (machine.part_next machine.limit self.old
            (tokens.Word keyword)) result }
    {
        match keyword {
            Keyword::If => self.first_next(alloc, Token::Word(keyword)),
            Keyword::While => self.first_next(alloc, Token::Word(keyword)),
            Keyword::Write => self.first_next(alloc, Token::Word(keyword)),
            Keyword::End => self.parts_end(),
            Keyword::Else => self.else_next(alloc),
            Keyword::Fi => self.fi_next(alloc),
            Keyword::Od => self.od_next(),
            _ => Err(Fault::Refused),
        }
    }

    fn part_next(&mut self, alloc: Global, token: Token) -> Result<Place, Fault>
        ensures { InPlace (machine.state_at self.new) (machine.part_next machine.limit self.old token) result }
    {
        match token {
            Token::Number(number) => self.tag_next(number),
            Token::Word(keyword) => self.block_next(alloc, keyword),
            Token::Name(name) => self.first_next(alloc, Token::Name(name)),
            Token::Mark(_) => Err(Fault::Refused),
        }
    }

    fn header_next(&mut self) -> Result<Place, Fault>
        ensures { InPlace (machine.state_at self.new) (machine.header_next self.old.mode self.old) result }
    {
        match self.mode {
            Mode::Tagged => {
                self.has_header = true;
                Ok(Place::BeforePair)
            }
            Mode::Untagged(_) => Err(Fault::Refused),
        }
    }

    fn program_next(&mut self, alloc: Global, token: Token) -> Result<Place, Fault>
        ensures { InPlace (machine.state_at self.new) (machine.program_next machine.limit self.old token) result }
    {
        match token {
            Token::Word(Keyword::Issued) => self.header_next(),
            _ => self.part_next(alloc, token),
        }
    }

    fn before_pair_next(&mut self, token: Token) -> Result<Place, Fault>
        ensures { InPlace (machine.state_at self.new) (machine.before_pair_next self.old token) result }
    {
        match token {
            Token::Number(number) if is_author(number) => Ok(Place::AfterPairAuthor(number as u32)),
            _ => Err(Fault::Refused),
        }
    }

    fn pair_author_next(&mut self, author: u32, token: Token) -> Result<Place, Fault>
        ensures { InPlace (machine.state_at self.new) (machine.pair_author_next self.old author token) result }
    {
        match token {
            Token::Mark(Sign::Colon) => Ok(Place::AfterPairColon(author)),
            _ => Err(Fault::Refused),
        }
    }

    fn pair_colon_next(&mut self, author: u32, token: Token) -> Result<Place, Fault>
        ensures { InPlace (machine.state_at self.new) (machine.pair_colon_next self.old author token) result }
    {
        match token {
            Token::Number(number) if is_serial(number) => {
                self.raise(author, number as u32)?;
                Ok(Place::AfterPair)
            }
            _ => Err(Fault::Refused),
        }
    }

    fn pair_next(&mut self, alloc: Global, token: Token) -> Result<Place, Fault>
        ensures { InPlace (machine.state_at self.new) (machine.pair_next machine.limit self.old token) result }
    {
        match token {
            Token::Mark(Sign::Comma) => Ok(Place::BeforePair),
            _ => self.part_next(alloc, token),
        }
    }

    fn author_next(&mut self, author: u32, token: Token) -> Result<Place, Fault>
        ensures { InPlace (machine.state_at self.new) (machine.author_next self.old author token) result }
    {
        match token {
            Token::Mark(Sign::Dot) => Ok(Place::AfterDot(author)),
            _ => Err(Fault::Refused),
        }
    }

    fn dot_next(&mut self, author: u32, token: Token) -> Result<Place, Fault>
        ensures { InPlace (machine.state_at self.new) (machine.dot_next self.old author token) result }
    {
        match token {
            Token::Number(number) if is_serial(number) => {
                let tag = Tag {
                    author,
                    serial: number as u32,
                };
                self.issue(tag)?;
                Ok(Place::AfterSerial(tag))
            }
            _ => Err(Fault::Refused),
        }
    }

    fn serial_next(&mut self, tag: Tag, token: Token) -> Result<Place, Fault>
        ensures { InPlace (machine.state_at self.new) (machine.serial_next self.old tag token) result }
    {
        match token {
            Token::Mark(Sign::Colon) => Ok(Place::AfterColon(tag)),
            _ => Err(Fault::Refused),
        }
    }

    fn colon_next(&mut self, alloc: Global, tag: Tag, token: Token) -> Result<Place, Fault>
        ensures { InPlace (machine.state_at self.new) (machine.colon_next self.old tag token) result }
    {
        match token {
            Token::Name(name) => Ok(Place::AfterTarget(tag, name)),
            Token::Word(Keyword::If) => Ok(Place::InExpression(
                Purpose::Test(tag),
                BoxedReader::start(alloc)?,
            )),
            Token::Word(Keyword::While) => Ok(Place::InExpression(
                Purpose::Guard(tag),
                BoxedReader::start(alloc)?,
            )),
            Token::Word(Keyword::Write) => Ok(Place::InExpression(
                Purpose::Output(tag),
                BoxedReader::start(alloc)?,
            )),
            _ => Err(Fault::Refused),
        }
    }

    fn target_next(
        &mut self,
        alloc: Global,
        tag: Tag,
        name: Name,
        token: Token,
    ) -> Result<Place, Fault>
        ensures { InPlace (machine.state_at self.new) (machine.target_next self.old tag name token) result }
    {
        match token {
            Token::Mark(Sign::Becomes) => Ok(Place::InExpression(
                Purpose::Assign(tag, name),
                BoxedReader::start(alloc)?,
            )),
            Token::Mark(Sign::OpenSquare) => self.index_begins(alloc, tag, name),
            _ => Err(Fault::Refused),
        }
    }

    fn index_begins(&mut self, alloc: Global, tag: Tag, name: Name) -> Result<Place, Fault>
        ensures { InPlace (machine.state_at self.new) (machine.index_begins self.old tag name) result }
    {
        if !name.is_plain() {
            return Err(Fault::Refused);
        }
        let array = Name::array(alloc, &name)?;
        Ok(Place::InIndex(tag, array, BoxedReader::start(alloc)?))
    }

    fn index_goes_on(
        &mut self,
        alloc: Global,
        tag: Tag,
        array: Name,
        mut reading: BoxedReader,
        token: Token,
    ) -> Result<Place, Fault>
        ensures { InPlace (machine.state_at self.new) (machine.goes_on self.old (Place.InIndex tag array)
            (expression.read reading token)) result }
    {
        reading.step(alloc, token)?;
        Ok(Place::InIndex(tag, array, reading))
    }

    fn index_ends(
        &mut self,
        alloc: Global,
        tag: Tag,
        array: Name,
        reading: BoxedReader,
    ) -> Result<Place, Fault>
        ensures { InPlace (machine.state_at self.new) (machine.index_ends self.old tag array
            (expression.counted_in reading) (expression.ended reading)) result }
    {
        let operators = reading.reader().operators();
        let index = reading.ended(alloc)?;
        Ok(Place::AfterIndex(tag, array, index, operators))
    }

    fn index_closes(
        &mut self,
        alloc: Global,
        tag: Tag,
        array: Name,
        reading: BoxedReader,
    ) -> Result<Place, Fault>
        ensures { InPlace (machine.state_at self.new) (machine.in_index_next self.old tag array reading
            (tokens.Mark Sign.CloseSquare)) result }
    {
        // it closes an element of the index where one is open
        if reading.reader().can_end() {
            self.index_ends(alloc, tag, array, reading)
        } else {
            self.index_goes_on(alloc, tag, array, reading, Token::Mark(Sign::CloseSquare))
        }
    }

    fn in_index_next(
        &mut self,
        alloc: Global,
        tag: Tag,
        array: Name,
        reading: BoxedReader,
        token: Token,
    ) -> Result<Place, Fault>
        ensures { InPlace (machine.state_at self.new)
            (machine.in_index_next self.old tag array reading token) result }
    {
        match token {
            Token::Mark(Sign::CloseSquare) => self.index_closes(alloc, tag, array, reading),
            _ => self.index_goes_on(alloc, tag, array, reading, token),
        }
    }

    fn index_next(
        &mut self,
        alloc: Global,
        tag: Tag,
        array: Name,
        index: Expr,
        operators: usize,
        token: Token,
    ) -> Result<Place, Fault>
        ensures { InPlace (machine.state_at self.new)
            (machine.index_next self.old tag array index operators token) result }
    {
        match token {
            Token::Mark(Sign::Becomes) => Ok(Place::InExpression(
                Purpose::Store(tag, array, index),
                BoxedReader::start_after(alloc, operators)?,
            )),
            _ => Err(Fault::Refused),
        }
    }

    fn expression_goes_on(
        &mut self,
        alloc: Global,
        purpose: Purpose,
        mut reading: BoxedReader,
        token: Token,
    ) -> Result<Place, Fault>
        ensures { InPlace (machine.state_at self.new) (machine.goes_on self.old (Place.InExpression purpose)
            (expression.read reading token)) result }
    {
        reading.step(alloc, token)?;
        Ok(Place::InExpression(purpose, reading))
    }

    fn expression_ends(
        &mut self,
        alloc: Global,
        purpose: Purpose,
        reading: BoxedReader,
    ) -> Result<Place, Fault>
        ensures { InPlace (machine.state_at self.new) (machine.ends_here machine.limit self.old purpose
            (expression.ended reading)) result }
    {
        let value = reading.ended(alloc)?;
        match purpose {
            Purpose::Assign(tag, name) => {
                self.add_assignment(tag, name, value)?;
                Ok(Place::AtPart)
            }
            Purpose::Test(tag) => {
                self.begin_then(alloc, tag, value)?;
                Ok(Place::AtPart)
            }
            Purpose::Guard(tag) => {
                self.begin_loop(alloc, tag, value)?;
                Ok(Place::AtPart)
            }
            Purpose::Output(tag) => {
                self.add_write(alloc, tag, value)?;
                Ok(Place::AtPart)
            }
            Purpose::Store(tag, array, index) => {
                self.add_store(tag, array, index, value)?;
                Ok(Place::AtPart)
            }
        }
    }

    fn expression_next(
        &mut self,
        alloc: Global,
        purpose: Purpose,
        reading: BoxedReader,
        token: Token,
    ) -> Result<Place, Fault>
        ensures { InPlace (machine.state_at self.new)
            (machine.expression_next machine.limit self.old purpose reading token) result }
    {
        if purpose.ends_at(&token) {
            self.expression_ends(alloc, purpose, reading)
        } else {
            self.expression_goes_on(alloc, purpose, reading, token)
        }
    }

    fn end_next(&mut self, token: Token) -> Result<Place, Fault>
        ensures { InPlace (machine.state_at self.new) (machine.end_next self.old token) result }
    {
        match token {
            Token::Mark(Sign::Open) => Ok(Place::AfterOpen),
            _ => Err(Fault::Refused),
        }
    }

    fn open_next(&mut self, alloc: Global, token: Token) -> Result<Place, Fault>
        ensures { InPlace (machine.state_at self.new) (machine.open_next self.old token) result }
    {
        match token {
            Token::Mark(Sign::Close) => Ok(Place::AtEnd),
            _ => self.comma_next(alloc, token),
        }
    }

    fn array_begins(&mut self, alloc: Global, name: Name) -> Result<Place, Fault>
        ensures { InPlace (machine.state_at self.new) (machine.array_begins self.old name) result }
    {
        if !name.is_plain() {
            return Err(Fault::Refused);
        }
        Ok(Place::AfterNameOpen(Name::array(alloc, &name)?))
    }

    fn name_next(&mut self, alloc: Global, name: Name, token: Token) -> Result<Place, Fault>
        ensures { InPlace (machine.state_at self.new) (machine.name_next self.old name token) result }
    {
        match token {
            Token::Mark(Sign::OpenSquare) => self.array_begins(alloc, name),
            Token::Mark(Sign::Comma) => {
                self.add_name(name)?;
                Ok(Place::AfterComma)
            }
            Token::Mark(Sign::Close) => {
                self.add_name(name)?;
                Ok(Place::AtEnd)
            }
            _ => Err(Fault::Refused),
        }
    }

    fn name_open_next(&mut self, array: Name, token: Token) -> Result<Place, Fault>
        ensures { InPlace (machine.state_at self.new) (machine.name_open_next self.old array token) result }
    {
        match token {
            Token::Mark(Sign::CloseSquare) => {
                self.add_name(array)?;
                Ok(Place::AfterFinal)
            }
            _ => Err(Fault::Refused),
        }
    }

    fn final_next(&mut self, token: Token) -> Result<Place, Fault>
        ensures { InPlace (machine.state_at self.new) (machine.final_next self.old token) result }
    {
        match token {
            Token::Mark(Sign::Comma) => Ok(Place::AfterComma),
            Token::Mark(Sign::Close) => Ok(Place::AtEnd),
            _ => Err(Fault::Refused),
        }
    }

    fn comma_next(&mut self, alloc: Global, token: Token) -> Result<Place, Fault>
        ensures { InPlace (machine.state_at self.new) (machine.comma_next self.old token) result }
    {
        match token {
            Token::Name(name) => Ok(Place::AfterName(name)),
            Token::Word(Keyword::Out) => {
                let stream = Name::stream(alloc)?;
                self.add_name(stream)?;
                Ok(Place::AfterFinal)
            }
            _ => Err(Fault::Refused),
        }
    }

    /// The place after the token at this place. `Refused` comes exactly where the token cannot stand
    /// there.
    pub fn next_at(&mut self, alloc: Global, place: Place, token: Token) -> Result<Place, Fault>
        ensures { InPlace (machine.state_at self.new) (machine.next_at machine.limit self.old place token) result }
    {
        match place {
            Place::Start => self.start_next(token),
            Place::AfterProgram => self.program_next(alloc, token),
            Place::BeforePair => self.before_pair_next(token),
            Place::AfterPairAuthor(author) => self.pair_author_next(author, token),
            Place::AfterPairColon(author) => self.pair_colon_next(author, token),
            Place::AfterPair => self.pair_next(alloc, token),
            Place::AtPart => self.part_next(alloc, token),
            Place::AfterAuthor(author) => self.author_next(author, token),
            Place::AfterDot(author) => self.dot_next(author, token),
            Place::AfterSerial(tag) => self.serial_next(tag, token),
            Place::AfterColon(tag) => self.colon_next(alloc, tag, token),
            Place::AfterTarget(tag, name) => self.target_next(alloc, tag, name, token),
            Place::InIndex(tag, array, reading) => self.in_index_next(
                alloc, tag, array, reading, token,
            ),
            Place::AfterIndex(tag, array, index, operators) => self.index_next(
                alloc, tag, array, index, operators, token,
            ),
            Place::InExpression(purpose, reading) => self.expression_next(
                alloc, purpose, reading, token,
            ),
            Place::AfterEnd => self.end_next(token),
            Place::AfterOpen => self.open_next(alloc, token),
            Place::AfterName(name) => self.name_next(alloc, name, token),
            Place::AfterNameOpen(array) => self.name_open_next(array, token),
            Place::AfterFinal => self.final_next(token),
            Place::AfterComma => self.comma_next(alloc, token),
            Place::AtEnd => Err(Fault::Refused),
        }
    }
}
