//! Which tokens of a file are inside a block or an expression.
ghost use Rattle.std.specs.Prelude.{◌≡◌, ◌∷◌, ◌↔◌, IsTrue, IfOk, OnOk};
ghost use Rattle.cs_grammar.specs.FilePhrases.{BeginsFile};
ghost use Rattle.cs_grammar.specs.FileRefusals.{IsInside};
ghost use Rattle.cs_grammar.specs.Refusals.{EndsWithTag};
ghost use Rattle.cs_unsupported.specs.Sites.{tag_after, tagging_after, deeper as deep, chosen as choice, in_parenthesis as parenthesised, in_bracket as bracketed, in_brace as braced, around_brace as outside, opened, closed as shut, settled, with_equal as equal, with_comma as comma, with_semicolon as semicolon, with_question as question, with_colon as colon, is_inside as inside, is_tagging, after_punctuator, punctuator_step, step as one_more, the_first, run};
ghost use Rattle.cs_unsupported.specs.declared.inside.Where.TheVariants as wheres;
ghost use Rattle.cs_unsupported.specs.Readings.{kinds, site_of};

use cs_ast::{Keyword, Punctuator, Token, TokenKind};
use std::alloc::{AllocError, Global};

/// A kind of position inside a block or an expression.
#[derive(Clone, Copy)]
pub enum Part {
    /// The value of an object.
    Value,
    /// The value of an enumeration constant.
    Constant,
    /// An item of an initializer list.
    Item,
    /// Between the brackets of an array bound, or between brackets of an expression.
    Nested,
    /// Between `?` and `:`.
    Choice,
    /// The body of a function.
    Body,
    /// Between `?` and `:` in the body of a function.
    BodyChoice,
}

/// The state after the tokens since the innermost opening bracket.
#[derive(Clone, Copy)]
pub enum Where {
    /// A declaration, outside of expressions.
    Declaration,
    /// A list that is the initializer of an object.
    ListedValue,
    /// The constants of an enumeration, outside of expressions.
    Constants,
    /// A list that is an item of an initializer list.
    ListedItem,
    Inside(Part),
}

/// What the last tokens are, if they are a keyword with or without a tag.
#[derive(Clone, Copy)]
pub enum Tagging {
    Struct,
    StructTag,
    Enum,
    EnumTag,
    Nothing,
}

/// The state after some tokens.
#[derive(Drop)]
pub struct Reading {
    within: Where,
    following: Tagging,
    /// The states around each opening bracket, the innermost last.
    around: Vec<Where>,
}

impl Part {
    /// Returns the position after an opening bracket or parenthesis.
    fn deeper(self) -> Part
        ensures { result ≡ deep self }
    {
        match self {
            Part::Body | Part::BodyChoice => Part::Body,
            _ => Part::Nested,
        }
    }

    /// Returns the position after `?`.
    fn chosen(self) -> Part
        ensures { result ≡ choice self }
    {
        match self {
            Part::Body | Part::BodyChoice => Part::BodyChoice,
            _ => Part::Choice,
        }
    }
}

impl Where {
    fn in_parenthesis(self) -> Where
        ensures { result ≡ parenthesised self }
    {
        match self {
            Where::Inside(part) => Where::Inside(part.deeper()),
            _ => self,
        }
    }

    fn in_bracket(self) -> Where
        ensures { result ≡ bracketed self }
    {
        match self {
            Where::Inside(part) => Where::Inside(part.deeper()),
            _ => Where::Inside(Part::Nested),
        }
    }

    /// Returns the state after an opening brace: members, constants, the body of a function, or an initializer list.
    fn in_brace(self, following: Tagging) -> Where
        ensures { result ≡ braced self following }
    {
        match self {
            Where::Declaration => following.body(),
            Where::Inside(Part::Body | Part::BodyChoice) => Where::Inside(Part::Body),
            _ => Where::Inside(Part::Item),
        }
    }

    /// Returns the state around braces, after the closing one.
    fn around_brace(self) -> Where
        ensures { result ≡ outside self }
    {
        match self {
            Where::Inside(Part::Value) => Where::ListedValue,
            Where::Inside(Part::Item) => Where::ListedItem,
            _ => self,
        }
    }

    fn with_equal(self) -> Where
        ensures { result ≡ equal self }
    {
        match self {
            Where::Declaration => Where::Inside(Part::Value),
            Where::Constants => Where::Inside(Part::Constant),
            _ => self,
        }
    }

    fn with_comma(self) -> Where
        ensures { result ≡ comma self }
    {
        match self {
            Where::Inside(Part::Value) | Where::ListedValue => Where::Declaration,
            Where::Inside(Part::Constant) => Where::Constants,
            Where::ListedItem => Where::Inside(Part::Item),
            _ => self,
        }
    }

    fn with_semicolon(self) -> Where
        ensures { result ≡ semicolon self }
    {
        match self {
            Where::Inside(Part::Value) | Where::ListedValue => Where::Declaration,
            _ => self,
        }
    }

    fn is_inside(self) -> bool
        ensures { result ≡ inside self }
    {
        matches!(self, Where::Inside(_))
    }
}

impl Tagging {
    fn of_word(keyword: Keyword) -> Tagging
        ensures { result ≡ tagging_after keyword }
    {
        match keyword {
            Keyword::Struct => Tagging::Struct,
            Keyword::Enum => Tagging::Enum,
            _ => Tagging::Nothing,
        }
    }

    fn with_name(self) -> Tagging
        ensures { result ≡ tag_after self }
    {
        match self {
            Tagging::Struct => Tagging::StructTag,
            Tagging::Enum => Tagging::EnumTag,
            _ => Tagging::Nothing,
        }
    }

    /// Whether the last tokens are `struct` or `enum`, with or without a tag.
    fn is_tag(self) -> bool
        ensures { result ≡ is_tagging self }
    {
        !matches!(self, Tagging::Nothing)
    }

    /// Returns the state after an opening brace in a declaration.
    fn body(self) -> Where
        ensures { result ≡ braced wheres.Declaration self }
    {
        match self {
            Tagging::Struct | Tagging::StructTag => Where::Declaration,
            Tagging::Enum | Tagging::EnumTag => Where::Constants,
            Tagging::Nothing => Where::Inside(Part::Body),
        }
    }
}

impl Reading {
    /// Takes one more token.
    fn step(&mut self, kind: &TokenKind) -> Result<(), AllocError>
        ensures { OnOk result (site_of self.new ≡ one_more kind.now (site_of self.old)) }
    {
        match kind {
            TokenKind::Name(_) => {
                self.following = self.following.with_name();
                Ok(())
            }
            TokenKind::Keyword(keyword) => {
                self.following = Tagging::of_word(*keyword);
                Ok(())
            }
            TokenKind::Punctuator(punctuator) => self.read_punctuator(*punctuator),
            _ => {
                self.settle(self.within);
                Ok(())
            }
        }
    }

    fn read_punctuator(&mut self, punctuator: Punctuator) -> Result<(), AllocError>
        ensures { OnOk result (site_of self.new ≡ punctuator_step punctuator (site_of self.old)) }
    {
        let within = self.within;
        match punctuator {
            Punctuator::OpenBrace => self.open(
                within.in_brace(self.following),
                within.around_brace(),
            ),
            Punctuator::OpenParenthesis => self.open(within.in_parenthesis(), within),
            Punctuator::OpenBracket => self.open(within.in_bracket(), within),
            Punctuator::CloseBrace | Punctuator::CloseParenthesis | Punctuator::CloseBracket => {
                self.close();
                Ok(())
            }
            Punctuator::Question => self.choose(),
            Punctuator::Colon => {
                self.end_choice();
                Ok(())
            }
            _ => {
                self.settle(after_plain(punctuator, within));
                Ok(())
            }
        }
    }

    /// Takes a `?`.
    fn choose(&mut self) -> Result<(), AllocError>
        ensures { OnOk result (site_of self.new
            ≡ question (site_of self.old).within (site_of self.old)) }
    {
        match self.within {
            Where::Inside(part) => self.open(Where::Inside(part.chosen()), Where::Inside(part)),
            within => {
                self.settle(within);
                Ok(())
            }
        }
    }

    /// Takes a colon.
    fn end_choice(&mut self)
        ensures { site_of self.new ≡ colon (site_of self.old).within (site_of self.old) }
    {
        match self.within {
            Where::Inside(Part::Choice | Part::BodyChoice) => self.close(),
            within => self.settle(within),
        }
    }

    fn open(&mut self, inside: Where, around: Where) -> Result<(), AllocError>
        ensures { OnOk result (site_of self.new ≡ opened inside around (site_of self.old)) }
    {
        self.around.push(around)?;
        self.within = inside;
        self.following = Tagging::Nothing;
        Ok(())
    }

    fn close(&mut self)
        ensures { site_of self.new ≡ shut (site_of self.old).around }
    {
        self.within = self.around.pop().unwrap_or(Where::Declaration);
        self.following = Tagging::Nothing;
    }

    fn settle(&mut self, within: Where)
        ensures { site_of self.new ≡ settled within (site_of self.old) }
    {
        self.within = within;
        self.following = Tagging::Nothing;
    }
}

/// Returns the state after a punctuator that is no bracket and not part of a conditional.
fn after_plain(punctuator: Punctuator, within: Where) -> Where
    ensures { result ≡ after_punctuator punctuator within }
{
    match punctuator {
        Punctuator::Equal => within.with_equal(),
        Punctuator::Comma => within.with_comma(),
        Punctuator::Semicolon => within.with_semicolon(),
        _ => within,
    }
}

/// Returns the state after these tokens.
fn read(alloc: Global, before: &[Token]) -> Result<Reading, AllocError>
    ensures { IfOk result (λ reading. site_of reading ≡ run (kinds before.now) the_first) }
{
    let mut reading = Reading {
        within: Where::Declaration,
        following: Tagging::Nothing,
        around: Vec::new(alloc),
    };
    'tokens: for token in before {
        reading.step(&token.kind)?;
    }
    Ok(reading)
}

/// Whether a token after these would be inside a block or an expression, if a file begins with them.
pub fn is_inside(alloc: Global, before: &[Token]) -> Result<bool, AllocError>
    ensures { IfOk result (λ here.
        BeginsFile (kinds before.now) → (IsTrue here ↔ IsInside (kinds before.now))) }
{
    Ok(read(alloc, before)?.within.is_inside())
}

/// Whether a token after these would be inside a block or an expression and directly after `struct` or `enum` or its
/// tag, if a file begins with them.
pub fn is_tag_inside(alloc: Global, before: &[Token]) -> Result<bool, AllocError>
    ensures { IfOk result (λ here.
        BeginsFile (kinds before.now)
        → (IsTrue here ↔ (EndsWithTag (kinds before.now) × IsInside (kinds before.now)))) }
{
    let reading = read(alloc, before)?;
    if !reading.following.is_tag() {
        return Ok(false);
    }
    Ok(reading.within.is_inside())
}
