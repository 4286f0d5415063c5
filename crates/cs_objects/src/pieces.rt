//! The pieces of an initializer (C11 6.7.9), and the contents of an object with a constant one.
ghost use Rattle.std.specs.Prelude.{◌≡◌, ◌+◌, ◌++◌, ◌∷◌, List, map, take, nat_le, IsTrue, IfSome, IfOk, OnOk};
ghost use Rattle.cs_types.specs.Shape.{Shape, struct};
ghost use Rattle.cs_ast.specs.TypedProgram.{HasLayouts, TypedProgram, typed_program};
ghost use Rattle.cs_ast.specs.TypedView.{initial, initial_list};
ghost use Rattle.cs_meaning.specs.Types as types;
ghost use Rattle.cs_meaning.specs.Initials as initials;
ghost use Rattle.cs_values.specs.View.{cell_of};
ghost use Rattle.cs_objects.specs.BlockView.{type_of, piece_of};
ghost use Rattle.cs_objects.specs.PieceOrder.{start_of, end_of, ascends_from};
ghost use Rattle.cs_objects.specs.TypeView.{or_cell};

use crate::blocks::{BlockType, Piece};
use crate::scalars::members_of;
use cs_ast::typed::program::Program;
use cs_ast::typed::statement::Initial;
use cs_types::{CType, DataModel, IntType, wrap};
use cs_values::Cell;
use cs_values::constants::{constant, integer_of};
use std::alloc::{AllocError, Global};

/// Returns the pieces of an initializer of an object of a type.
pub fn pieces<'a>(
    alloc: Global,
    program: &'a Program,
    ty: BlockType<'a>,
    first: &'a Initial,
) -> Result<Vec<Piece<'a>>, AllocError>
    requires { HasLayouts program.now }
    ensures { IfOk result (λ made.
        map piece_of made.items ≡ initials.pieces (typed_program program.now) (type_of ty.entry) 0
        (initial first.now)) }
{
    let mut made = Vec::new(alloc);
    push_pieces(program, ty, 0, first, &mut made)?;
    Ok(made)
}

// Adds the pieces of an initializer of an object of a type, at an offset.
#[cycle(pieces)]
fn push_pieces<'a>(
    program: &'a Program,
    ty: BlockType<'a>,
    from: u64,
    first: &'a Initial,
    made: &mut Vec<Piece<'a>>,
) -> Result<(), AllocError>
    requires { HasLayouts program.now }
    ensures { OnOk result (map piece_of made.new.items
        ≡ map piece_of made.old.items
        ++ initials.pieces (typed_program program.now) (type_of ty.entry) from
        (initial first.now)) }
{
    match first {
        Initial::Value(value) => {
            made.push(Piece::Value(from, value))?;
            Ok(())
        }
        Initial::List(parts) => push_parts(program, ty, from, parts, made),
        Initial::Text(bytes) => {
            made.push(Piece::Text(from, beginning(bytes.as_bytes(), ty.count())))?;
            Ok(())
        }
    }
}

// Adds the pieces of the parts of an array or of a struct.
#[cycle(pieces)]
fn push_parts<'a>(
    program: &'a Program,
    ty: BlockType<'a>,
    from: u64,
    parts: &'a [Initial],
    made: &mut Vec<Piece<'a>>,
) -> Result<(), AllocError>
    requires { HasLayouts program.now }
    ensures { OnOk result (map piece_of made.new.items
        ≡ map piece_of made.old.items
        ++ initials.pieces_from (typed_program program.now) (type_of ty.entry) from 0
        (initial_list parts.now)) }
{
    for (number, part) in parts.iter().enumerate() {
        let number = number as u64;
        let offset = ty.part_offset(program, number)?;
        let at = from.checked_add(offset).ok_or(AllocError)?;
        push_pieces(program, ty.part(program, number), at, part, made)?;
    }
    Ok(())
}

impl<'a> BlockType<'a> {
    // Returns the number of elements of an array (C11 6.7.6.2).
    fn count(self) -> u64
        ensures { result ≡ types.count_of (type_of self.entry) }
    {
        match self {
            BlockType::Of(CType::Array(_, count)) => *count,
            BlockType::Of(CType::Void) => 0,
            BlockType::Of(CType::Int(_)) => 0,
            BlockType::Of(CType::Pointer(_)) => 0,
            BlockType::Of(CType::Struct(_)) => 0,
            BlockType::Text(count) => count,
            BlockType::Integer(_) => 0,
            BlockType::Void => 0,
        }
    }

    // Returns the type of a part of an array or of a struct, by its number (C11 6.7.9, paragraph 17).
    fn part(self, program: &'a Program, number: u64) -> BlockType<'a>
        ensures { type_of result ≡ types.part_type (typed_program program.now)
            (type_of self.entry) number }
    {
        match self {
            BlockType::Of(CType::Array(element, _)) => BlockType::Of(element),
            BlockType::Of(CType::Struct(tag)) => member_type(program, *tag, number),
            BlockType::Of(CType::Void) => self,
            BlockType::Of(CType::Int(_)) => self,
            BlockType::Of(CType::Pointer(_)) => self,
            BlockType::Text(_) => BlockType::Integer(IntType::Char),
            BlockType::Integer(ty) => BlockType::Integer(ty),
            BlockType::Void => BlockType::Void,
        }
    }

    // Returns the offset of a part of an array or of a struct.
    fn part_offset(self, program: &'a Program, number: u64) -> Result<u64, AllocError>
        requires { HasLayouts program.now }
        ensures { IfOk result (λ offset.
            offset ≡ types.part_offset (typed_program program.now) (type_of self.entry) number) }
    {
        match self {
            BlockType::Of(CType::Array(element, _)) => {
                let size = BlockType::Of(element).size(program)?;
                number.checked_mul(size).ok_or(AllocError)
            }
            BlockType::Of(CType::Struct(tag)) => Ok(member_offset(program, *tag, number)),
            BlockType::Of(CType::Void) => Ok(0),
            BlockType::Of(CType::Int(_)) => Ok(0),
            BlockType::Of(CType::Pointer(_)) => Ok(0),
            BlockType::Text(_) => Ok(number),
            BlockType::Integer(_) => Ok(0),
            BlockType::Void => Ok(0),
        }
    }
}

// Returns the type of a member of a struct.
fn member_type<'a>(program: &'a Program, tag: u32, number: u64) -> BlockType<'a>
    ensures { type_of result ≡ types.part_type (typed_program program.now) (struct tag) number }
{
    match members_of(program, tag) {
        Some(members) => match members.get(number as usize) {
            Some(member) => BlockType::Of(member.ty()),
            None => BlockType::Void,
        },
        None => BlockType::Void,
    }
}

// Returns the offset of a member of a struct.
fn member_offset(program: &Program, tag: u32, number: u64) -> u64
    ensures { result ≡ types.part_offset (typed_program program.now) (struct tag) number }
{
    match members_of(program, tag) {
        Some(members) => match members.get(number as usize) {
            Some(member) => member.offset(),
            None => 0,
        },
        None => 0,
    }
}

// Returns at most `count` bytes of the beginning of a text.
fn beginning(bytes: &[u8], count: u64) -> &[u8]
    ensures { result.now ≡ take count bytes.now }
{
    if count < bytes.len() as u64 {
        &bytes[..count as usize]
    } else {
        bytes
    }
}

/// Whether pieces ascend: each ends before the next one begins.
pub fn ascend(pieces: &[Piece]) -> bool
    ensures { IsTrue result → IsTrue (ascends_from 0 pieces.now) }
{
    let mut end = 0;
    for piece in pieces {
        match piece.end_from(end) {
            Some(next) => end = next,
            None => return false,
        }
    }
    true
}

/// Returns, of ascending pieces, the last one that begins at or before an offset, if there is one.
pub fn nearest<'p, 'a>(pieces: &'p [Piece<'a>], offset: u64) -> &'p [Piece<'a>]
    requires { IsTrue (ascends_from 0 pieces.now) }
    ensures { (program : TypedProgram) (scalar : Shape)
        → initials.initial_cell program scalar (map piece_of result.now) offset
        ≡ initials.initial_cell program scalar (map piece_of pieces.now) offset }
{
    let count = pieces.partition_point(
        |piece: &Piece| -> bool
            ensures { result ≡ nat_le (start_of piece.now) offset }
        { piece.start() <= offset },
    );
    if count == 0 {
        &pieces[..0]
    } else {
        &pieces[count - 1..count]
    }
}

impl<'a> Piece<'a> {
    // Returns the offset of a piece.
    fn start(&self) -> u64
        ensures { result ≡ start_of self.now }
    {
        match self {
            Piece::Value(from, _) => *from,
            Piece::Text(from, _) => *from,
        }
    }

    // Returns the first offset after a piece, if the piece begins at or after an offset.
    fn end_from(&self, from: u64) -> Option<u64>
        ensures { IfSome result (λ end.
            IsTrue (nat_le from (start_of self.now)) × (end ≡ end_of self.now)) }
    {
        if self.start() < from {
            return None;
        }
        match self {
            Piece::Value(start, _) => start.checked_add(1),
            Piece::Text(start, bytes) => start.checked_add(bytes.len() as u64),
        }
    }
}

/// Returns the cell that the pieces of a constant initializer determine for the scalar at an offset; it is zero if there is no piece for it.
pub fn initial_cell(
    program: &Program,
    scalar: BlockType,
    pieces: &[Piece],
    offset: u64,
) -> Result<Cell, AllocError>
    requires { HasLayouts program.now }
    ensures { IfOk result (λ cell.
        cell_of cell ≡ initials.initial_cell (typed_program program.now) (type_of scalar.entry)
        (map piece_of pieces.now) offset) }
{
    for piece in pieces {
        if let Some(cell) = piece_cell(program, scalar, piece, offset)? {
            return Ok(cell);
        }
    }
    Ok(zero_of(scalar))
}

// Returns the cell that a piece determines for the scalar at an offset, if the piece covers it.
fn piece_cell(
    program: &Program,
    scalar: BlockType,
    piece: &Piece,
    offset: u64,
) -> Result<Option<Cell>, AllocError>
    requires { HasLayouts program.now }
    ensures { IfOk result (λ found.
        (others : List initials.Piece)
        → initials.initial_cell (typed_program program.now) (type_of scalar.entry)
        (piece_of piece.now ∷ others) offset
        ≡ or_cell found (initials.initial_cell (typed_program program.now) (type_of scalar.entry)
        others offset)) }
{
    match piece {
        Piece::Value(from, value) => {
            if *from == offset {
                let cell = constant(program, value)?;
                Ok(Some(cell))
            } else {
                Ok(None)
            }
        }
        Piece::Text(from, bytes) => {
            let Some(at) = offset.checked_sub(*from) else {
                return Ok(None);
            };
            match bytes.get(at as usize) {
                Some(byte) => Ok(Some(byte_cell(program.model, scalar, *byte))),
                None => Ok(None),
            }
        }
    }
}

/// Returns the zero of a scalar: 0, or a null pointer (C11 6.7.9, paragraph 10).
pub fn zero_of(scalar: BlockType) -> Cell
    ensures { cell_of result ≡ initials.zero_of (type_of scalar.entry) }
{
    match scalar {
        BlockType::Of(CType::Pointer(_)) => Cell::Null,
        BlockType::Of(CType::Void) => Cell::Number(0),
        BlockType::Of(CType::Int(_)) => Cell::Number(0),
        BlockType::Of(CType::Array(_, _)) => Cell::Number(0),
        BlockType::Of(CType::Struct(_)) => Cell::Number(0),
        BlockType::Integer(_) | BlockType::Text(_) | BlockType::Void => Cell::Number(0),
    }
}

/// Returns the cell of a byte of a text, in a scalar of a character type.
pub fn byte_cell(model: DataModel, scalar: BlockType, byte: u8) -> Cell
    ensures { cell_of result ≡ initials.byte_cell model (type_of scalar.entry) byte }
{
    Cell::Number(wrap(model, scalar.integer(), i128::from(byte)))
}

impl<'a> BlockType<'a> {
    // Returns the type as an integer type.
    fn integer(self) -> IntType
        ensures { result ≡ types.integer_of (type_of self.entry) }
    {
        match self {
            BlockType::Of(ty) => integer_of(ty),
            BlockType::Integer(ty) => ty,
            BlockType::Text(_) | BlockType::Void => IntType::Int,
        }
    }
}
