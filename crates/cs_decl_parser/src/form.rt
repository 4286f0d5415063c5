//! The forms of statements, by their first tokens (C11 6.8).
ghost use Rattle.std.specs.Prelude.{◌≡◌, ◌<◌, ◌^◌, ◌+◌, length, IsTrue};
ghost use Rattle.cs_expr_parser.specs.Positions.{kind_or_end, keyword_of};
ghost use Rattle.cs_decl_parser.specs.Forms.{least, form_of, word_form, is_labelled, IsFormAt};

use cs_ast::{Keyword, Punctuator};
use cs_declarator_parser::source::{
    Source, begins_type, is_punctuator, keyword_at, name_at, punctuator_at,
};

/// The form of a statement.
#[derive(Clone, Copy)]
pub enum Form {
    Block,
    Empty,
    If,
    While,
    Do,
    For,
    Switch,
    Goto,
    Continue,
    Break,
    Return,
    /// A name followed by a colon.
    Label,
    /// A typedef name without a colon after it: a statement that begins with a typedef name has to be a label.
    Unlabelled,
    /// Anything else: an expression, or no statement.
    Run,
}

/// Returns the form of the statement that begins at an index.
pub fn form_at(source: &Source, at: usize) -> Form
    requires few { at < 2 ^ 33 }
    ensures within { IsFormAt source.now.tokens.now at result }
    ensures form { result ≡ form_of source.now.names.now (kind_or_end source.now.tokens.now at)
        (kind_or_end source.now.tokens.now (at + 1)) }
{
    if is_label(source, at) {
        return Form::Label;
    }
    if name_at(source, at).is_some() && begins_type(source, at) {
        return Form::Unlabelled;
    }
    match punctuator_at(source, at) {
        Some(Punctuator::OpenBrace) => Form::Block,
        Some(Punctuator::Semicolon) => Form::Empty,
        _ => form_of_word(source, at),
    }
}

/// Whether a name followed by a colon is at an index.
pub fn is_label(source: &Source, at: usize) -> bool
    requires few { at < 2 ^ 33 }
    ensures within { IsTrue result → at + 1 < length source.now.tokens.now }
    ensures labelled { result ≡ is_labelled (kind_or_end source.now.tokens.now at)
        (kind_or_end source.now.tokens.now (at + 1)) }
{
    name_at(source, at).is_some() && is_punctuator(source, at + 1, Punctuator::Colon)
}

fn form_of_word(source: &Source, at: usize) -> Form
    ensures within { IsFormAt source.now.tokens.now at result }
    ensures form { result ≡ word_form (keyword_of (kind_or_end source.now.tokens.now at)) }
{
    match keyword_at(source, at) {
        Some(Keyword::If) => Form::If,
        Some(Keyword::While) => Form::While,
        Some(Keyword::Do) => Form::Do,
        Some(Keyword::For) => Form::For,
        Some(Keyword::Switch) => Form::Switch,
        Some(Keyword::Goto) => Form::Goto,
        Some(Keyword::Continue) => Form::Continue,
        Some(Keyword::Break) => Form::Break,
        Some(Keyword::Return) => Form::Return,
        _ => Form::Run,
    }
}

impl Form {
    /// Returns the height of the least statement of the form, 0 if its expression determines it.
    pub fn least_height(self) -> u32
        ensures { result ≡ least self }
    {
        match self {
            Form::Block | Form::Empty | Form::Goto => 1,
            Form::Continue | Form::Break | Form::Return => 1,
            Form::If | Form::While | Form::Do | Form::For | Form::Switch => 2,
            Form::Label | Form::Unlabelled => 2,
            Form::Run => 0,
        }
    }
}
