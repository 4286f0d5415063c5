//! Functions (C11 6.9.1).
ghost use Rattle.std.specs.Prelude.{◌≡◌, map, IfOk};
ghost use Rattle.cs_types.specs.Shape.{shape_of};
ghost use Rattle.cs_ast.specs.TypedProgram.{variable, routine};
ghost use Rattle.cs_scopes.specs.Meanings.{signature_of};
ghost use Rattle.cs_scopes.specs.Verdicts.{lift};
ghost use Rattle.cs_declarations.specs.Answered.{AnswersWith};
ghost use Rattle.cs_declarations.specs.Environment.{meaning_here};
ghost use Rattle.cs_declarations.specs.View.{environment_of};
ghost use Rattle.cs_file_scope.specs.Functions as functions;
ghost use Rattle.cs_file_scope.specs.Objects.{changed};
ghost use Rattle.cs_file_scope.specs.Functions.{is_result, same_types, types_of, has_body, may_be_function, number_in, bodiless, numbered, declared_once};
ghost use Rattle.cs_file_scope.specs.View.{filed_of, routed_of};

use crate::filed::Filed;
use cs_ast::raw::declaration::RawFunction;
use cs_ast::typed::program::{Function, Local};
use cs_declarations::Head;
use cs_names::Name;
use cs_scopes::{Callee, DeclaredFunction, Meaning, TypeCode, TypeRefusal};
use cs_types::CType;
use std::alloc::{AllocError, Global};

/// Whether a function may have a result of this type (C11 6.9.1, paragraph 3).
pub fn is_result(ty: &CType) -> bool
    ensures { result ≡ is_result (shape_of ty.now) }
{
    match ty {
        CType::Array(_, _) | CType::Struct(_) => false,
        _ => true,
    }
}

// Whether these are the types of the parameters.
fn same_types(types: &[CType], parameters: &[Local]) -> bool
    ensures { result ≡ same_types (map (λ ty. shape_of ty) types.now)
        (types_of (map variable parameters.now)) }
{
    match (types, parameters) {
        ([], []) => true,
        ([ty, types @ ..], [parameter, parameters @ ..]) => {
            *ty == parameter.ty && same_types(types, parameters)
        }
        ([], [_, ..]) => false,
        ([_, ..], []) => false,
    }
}

// The declaration of a function, by which later calls are typed.
fn signature(
    alloc: Global,
    number: u32,
    returns: &CType,
    parameters: &[Local],
) -> Result<DeclaredFunction, AllocError>
    ensures { IfOk result (λ made.
        signature_of made ≡ numbered number (shape_of returns.now)
        (map variable parameters.now)) }
{
    let mut types = Vec::new(alloc);
    for parameter in parameters {
        types.push(parameter.ty.copy(alloc)?)?;
    }
    Ok(DeclaredFunction {
        callee: Callee::Numbered(number),
        result: returns.copy(alloc)?,
        parameters: types,
    })
}

// A copy of parameters.
fn copied(alloc: Global, parameters: &[Local]) -> Result<Vec<Local>, AllocError>
    ensures { IfOk result (λ made. map variable made.items ≡ map variable parameters.now) }
{
    let mut list = Vec::new(alloc);
    for parameter in parameters {
        list.push(Local {
            name: parameter.name.copy()?,
            ty: parameter.ty.copy(alloc)?,
            block: parameter.block,
        })?;
    }
    Ok(list)
}

// A function without a body.
fn bodiless(
    alloc: Global,
    head: &RawFunction,
    returns: &CType,
    parameters: &Head,
) -> Result<Function, AllocError>
    ensures { IfOk result (λ made.
        routine made ≡ bodiless head.now (shape_of returns.now)
        (map variable parameters.now.parameters.items) parameters.now.written.items) }
{
    let list = parameters.parameters.as_slice();
    Ok(Function {
        name: head.name.copy()?,
        place: head.place,
        result: returns.copy(alloc)?,
        parameters: u32::try_from(list.len()).map_err(|_| AllocError)?,
        locals: copied(alloc, list)?,
        body: None,
        end: head.place,
        written: Vec::from_slice(alloc, &parameters.written)?,
    })
}

// Replaces the blank function with this number.
fn put(functions: &mut Vec<Function>, number: u32, function: Function)
    ensures { map routine functions.new.items
        ≡ changed number (λ blank. routine function) (map routine functions.old.items) }
{
    if let Some(blank) = functions.get_mut(number as usize) {
        *blank = function;
    }
}

impl Filed {
    // Whether a function has a body already, or may not have one in a file, as it is the library's.
    fn has_body(&self, callee: Callee) -> bool
        ensures { result ≡ has_body (filed_of self.now) callee }
    {
        match callee {
            Callee::Numbered(number) => match self.functions.get(number as usize) {
                Some(function) => function.body.is_some(),
                None => false,
            },
            Callee::Malloc | Callee::Calloc | Callee::Free => true,
        }
    }

    /// Whether a name may be declared as a function with this result, and with a body, if it gets one: the file hasn't
    /// declared it yet, or as a function with this result, which gets at most one body.
    pub fn may_be_function(&self, name: &Name, with_body: bool, returns: &CType) -> bool
        ensures { result ≡ may_be_function (filed_of self.now) with_body (shape_of returns.now)
            (meaning_here name.now (environment_of self.now.known)) }
    {
        match self.known.meaning_here(name) {
            None => true,
            Some(Meaning::Function(before)) => {
                before.result == *returns && !(with_body && self.has_body(before.callee))
            }
            Some(_) => false,
        }
    }

    // The number of a function of the file.
    #[tactic(auto, using(crate::proofs::FunctionNumbers::place_or_length))]
    fn number_of(&self, name: &Name) -> Result<u32, AllocError>
        ensures { IfOk result (λ number. number ≡ number_in (filed_of self.now).order name.now) }
    {
        let place = self.order.get_index_of(name);
        u32::try_from(place.unwrap_or(self.order.len())).map_err(|_| AllocError)
    }

    // Declares a function without a body under its number.
    fn add_function(
        &mut self,
        alloc: Global,
        head: &RawFunction,
        returns: &CType,
        parameters: &Head,
    ) -> Result<Callee, AllocError>
        ensures { IfOk result (λ callee.
            routed_of callee self.new ≡ functions.new_function (filed_of self.old) head.now
            (shape_of returns.now) (map variable parameters.now.parameters.items)
            parameters.now.written.items) }
    {
        let number = self.number_of(&head.name)?;
        let meaning = Meaning::Function(signature(alloc, number, returns, &parameters.parameters)?);
        self.known.declare(&head.name, meaning)?;
        let function = bodiless(alloc, head, returns, parameters)?;
        put(&mut self.functions, number, function);
        Ok(Callee::Numbered(number))
    }

    // The function that a declaration declares: a new one, or the one that was declared before, whose parameters have the same types.
    fn function_of(
        &mut self,
        alloc: Global,
        head: &RawFunction,
        returns: &CType,
        parameters: &Head,
    ) -> Result<Callee, TypeRefusal>
        ensures { AnswersWith routed_of
            (functions.function_of (filed_of self.old) head.now (shape_of returns.now)
            (map variable parameters.now.parameters.items) parameters.now.written.items
            (meaning_here head.now.name (environment_of self.old.known))) result self.new }
    {
        match self.known.meaning_here(&head.name) {
            Some(Meaning::Function(before)) => {
                if same_types(&before.parameters, &parameters.parameters) {
                    Ok(before.callee)
                } else {
                    Err(TypeRefusal::Code(TypeCode::DeclaredTwice, head.place))
                }
            }
            _ => {
                let callee = self.add_function(alloc, head, returns, parameters)?;
                Ok(callee)
            }
        }
    }

    /// Returns the function that a declaration declares, if no name is declared twice among its parameters.
    #[tactic(auto, using(cs_scopes::proofs::Lifting::lifts))]
    pub fn function_once(
        &mut self,
        alloc: Global,
        head: &RawFunction,
        returns: &CType,
        parameters: &Head,
    ) -> Result<Callee, TypeRefusal>
        ensures { AnswersWith routed_of
            (lift (declared_once parameters.now.twice)
            (functions.function_of (filed_of self.old) head.now (shape_of returns.now)
            (map variable parameters.now.parameters.items) parameters.now.written.items
            (meaning_here head.now.name (environment_of self.old.known)))) result self.new }
    {
        let callee = self.function_of(alloc, head, returns, parameters)?;
        match parameters.twice {
            Some(place) => Err(TypeRefusal::Code(TypeCode::DeclaredTwice, place)),
            None => Ok(callee),
        }
    }
}
