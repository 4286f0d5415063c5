//! The height of written declarations: specifiers are no node, so that they are as high as their highest word.
ghost use Rattle.std.specs.Prelude.{◌≡◌, ◌+◌, ◌<◌, ◌^◌, max, map};
ghost use Rattle.std.specs.Option.{option_map};
ghost use Rattle.cs_ast.specs.RawDeclarationView.{declarator, constant, spec, specs, specs_list, members_list, initial, initials_list, declared, parameter, parameters, head};
ghost use Rattle.cs_ast.specs.RawFileHeight as file;

use crate::raw::declaration::{
    RawDeclarator, RawEnumerator, RawFunction, RawInit, RawInitial, RawMember, RawParameter,
    RawParameters, RawSpecs, SpecWord,
};
use crate::raw::height::{height_of_some, highest_bound};

impl RawDeclarator {
    /// Returns the height of the declarator: 1 without bounds.
    pub fn height(&self) -> u32
        requires { file.declarator_height (declarator self.now) < 2 ^ 32 }
        ensures { result ≡ file.declarator_height (declarator self.now) }
    {
        1 + highest_bound(&self.bounds)
    }
}

/// Returns the height of the highest of some declarators, 0 if there is none.
pub fn highest_declarator(declarators: &[RawDeclarator]) -> u32
    requires { file.highest_by file.declarator_height (map declarator declarators.now) < 2 ^ 32 }
    ensures { result ≡ file.highest_by file.declarator_height (map declarator declarators.now) }
{
    let mut best = 0;
    for declarator in declarators {
        best = best.max(declarator.height());
    }
    best
}

impl RawEnumerator {
    /// Returns the height of the constant: 1 without an expression.
    pub fn height(&self) -> u32
        requires { file.constant_height (constant self.now) < 2 ^ 32 }
        ensures { result ≡ file.constant_height (constant self.now) }
    {
        1 + height_of_some(&self.value)
    }
}

/// Returns the height of the highest of some constants, 0 if there is none.
fn highest_constant(constants: &[RawEnumerator]) -> u32
    requires { file.highest_by file.constant_height (map constant constants.now) < 2 ^ 32 }
    ensures { result ≡ file.highest_by file.constant_height (map constant constants.now) }
{
    let mut best = 0;
    for constant in constants {
        best = best.max(constant.height());
    }
    best
}

impl RawSpecs {
    /// Returns the height of the specifiers: that of the highest word.
    #[cycle(specs_height)]
    pub fn height(&self) -> u32
        requires { file.specs_height (specs self.now) < 2 ^ 32 }
        ensures { result ≡ file.specs_height (specs self.now) }
    {
        highest_word(&self.words)
    }
}

/// Returns the height of the highest of some words, 0 if there is none.
#[cycle(specs_height)]
fn highest_word(words: &[SpecWord]) -> u32
    requires { file.specs_height (specs_list words.now) < 2 ^ 32 }
    ensures { result ≡ file.specs_height (specs_list words.now) }
{
    let mut best = 0;
    for word in words {
        best = best.max(word.height());
    }
    best
}

impl SpecWord {
    /// Returns the height of the word: 1 without a body.
    #[cycle(specs_height)]
    pub fn height(&self) -> u32
        requires { file.spec_height (spec self.now) < 2 ^ 32 }
        ensures { result ≡ file.spec_height (spec self.now) }
    {
        match self {
            SpecWord::Static | SpecWord::Plain(_) => 1,
            SpecWord::Struct(_, members) => 1 + highest_member(members),
            SpecWord::Enum(_, constants, _) => 1 + highest_constant(constants),
        }
    }
}

/// Returns the height of the highest of some members, 0 if there is none.
#[cycle(specs_height)]
fn highest_member(members: &[RawMember]) -> u32
    requires { file.members_height (members_list members.now) < 2 ^ 32 }
    ensures { result ≡ file.members_height (members_list members.now) }
{
    let mut best = 0;
    for member in members {
        best = best.max(
            1 + member
                .specs
                .height()
                .max(highest_declarator(&member.declarators)),
        );
    }
    best
}

impl RawInitial {
    /// Returns the height of the initializer: a list between braces is a node.
    #[cycle(initial_height)]
    pub fn height(&self) -> u32
        requires { file.initial_height (initial self.now) < 2 ^ 32 }
        ensures { result ≡ file.initial_height (initial self.now) }
    {
        match self {
            RawInitial::Value(value) => value.height(),
            RawInitial::List(items, _) => 1 + highest_initial(items),
        }
    }
}

/// Returns the height of the highest of some items between braces, 0 if there is none.
#[cycle(initial_height)]
fn highest_initial(items: &[RawInitial]) -> u32
    requires { file.initials_height (initials_list items.now) < 2 ^ 32 }
    ensures { result ≡ file.initials_height (initials_list items.now) }
{
    let mut best = 0;
    for item in items {
        best = best.max(item.height());
    }
    best
}

impl RawInit {
    /// Returns the height of the declared object: without an `=` it is that of its declarator.
    pub fn height(&self) -> u32
        requires { file.declared_height (declared self.now) < 2 ^ 32 }
        ensures { result ≡ file.declared_height (declared self.now) }
    {
        match &self.initial {
            None => self.declarator.height(),
            Some(value) => 1 + self.declarator.height().max(value.initial.height()),
        }
    }
}

/// Returns the height of the highest of some declared objects, 0 if there is none.
fn highest_object(objects: &[RawInit]) -> u32
    requires { file.highest_by file.declared_height (map declared objects.now) < 2 ^ 32 }
    ensures { result ≡ file.highest_by file.declared_height (map declared objects.now) }
{
    let mut best = 0;
    for object in objects {
        best = best.max(object.height());
    }
    best
}

/// Returns the height of a declaration of objects.
pub fn declaration_height(words: &RawSpecs, objects: &[RawInit]) -> u32
    requires { file.declaration_height (specs words.now) (map declared objects.now) < 2 ^ 32 }
    ensures { result ≡ file.declaration_height (specs words.now) (map declared objects.now) }
{
    1 + words.height().max(highest_object(objects))
}

impl RawParameter {
    /// Returns the height of the parameter.
    pub fn height(&self) -> u32
        requires { file.parameter_height (parameter self.now) < 2 ^ 32 }
        ensures { result ≡ file.parameter_height (parameter self.now) }
    {
        1 + self.specs.height().max(highest_bound(&self.bounds))
    }
}

/// Returns the height of the highest of some parameters, 0 if there is none.
fn highest_parameter(parameters: &[RawParameter]) -> u32
    requires { file.highest_by file.parameter_height (map parameter parameters.now) < 2 ^ 32 }
    ensures { result ≡ file.highest_by file.parameter_height (map parameter parameters.now) }
{
    let mut best = 0;
    for parameter in parameters {
        best = best.max(parameter.height());
    }
    best
}

impl RawParameters {
    /// Returns the height of a parameter list, which is a node of its own even if it is empty.
    pub fn height(&self) -> u32
        requires { file.parameters_height (parameters self.now) < 2 ^ 32 }
        ensures { result ≡ file.parameters_height (parameters self.now) }
    {
        match self {
            RawParameters::Empty | RawParameters::Void => 1,
            RawParameters::List(parameters) => 1 + highest_parameter(parameters),
        }
    }
}

impl RawFunction {
    /// Returns the height of a function's declarator: its name with its parameters.
    pub fn height(&self) -> u32
        requires { file.head_height (head self.now) < 2 ^ 32 }
        ensures { result ≡ file.head_height (head self.now) }
    {
        1 + self.parameters.height()
    }
}
