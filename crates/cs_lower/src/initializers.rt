//! The lowering of declarations (C11 6.7.9).
ghost use Rattle.std.specs.Prelude.{◌≡◌, ◌∷◌, [], map, IfOk, Some, option_map, option_copied};
ghost use Rattle.cs_ast.specs.TypedProgram.{HasLayouts};
ghost use Rattle.cs_ast.specs.TypedView.{typed, initial};
ghost use Rattle.cs_meaning.specs.Initials as initials;
ghost use Rattle.cs_meaning.specs.Types as types;
ghost use Rattle.cs_cfg.specs.Executing.{type_in};
ghost use Rattle.cs_objects.specs.BlockView.{type_of, piece_of};
ghost use Rattle.cs_lower.specs.Building.{point_of, built_of};
ghost use Rattle.cs_lower.specs.Statements.{Declares, StoresPieces};
ghost use Rattle.cs_lower.specs.Builds.{program_of, function_of};

use crate::building::GraphBuilder;
use crate::context::Lowering;
use crate::strips::Strip;
use cs_ast::Place;
use cs_ast::typed::expression::Expr;
use cs_ast::typed::statement::Initial;
use cs_cfg::Work;
use cs_names::Bytes;
use cs_objects::access::is_scalar;
use cs_objects::blocks::{BlockType, Piece};
use cs_objects::pieces::pieces;
use std::alloc::AllocError;

impl Lowering<'_> {
    /// Returns code for a declaration: the object becomes unset, gets a value, or becomes zero before its pieces are stored.
    pub fn lower_declaration(
        &self,
        graph: &mut GraphBuilder,
        place: Place,
        declaration: u32,
        first: Option<&Initial>,
        following: Strip,
    ) -> Result<Strip, AllocError>
        requires { HasLayouts self.now.program.now }
        ensures { IfOk result (λ made.
            Declares (program_of self.now) (function_of self.now) place declaration
            (option_map initial (option_copied first.entry)) (built_of graph.old)
            (built_of graph.new) (point_of made) (point_of following)) }
    {
        match first {
            None => {
                let scalar = self.is_scalar_local(declaration);
                following.prepend(place, 0, Work::Clear(declaration, scalar))
            }
            Some(first) => {
                let made = self.lower_initial(graph, place, declaration, first, following)?;
                Ok(made)
            }
        }
    }

    // Initializes an object.
    fn lower_initial(
        &self,
        graph: &mut GraphBuilder,
        place: Place,
        declaration: u32,
        first: &Initial,
        following: Strip,
    ) -> Result<Strip, AllocError>
        requires { HasLayouts self.now.program.now }
        ensures { IfOk result (λ made.
            Declares (program_of self.now) (function_of self.now) place declaration
            (Some (initial first.now)) (built_of graph.old) (built_of graph.new) (point_of made)
            (point_of following)) }
    {
        match first {
            Initial::Value(value) => {
                let made = self.lower_store(graph, place, declaration, 0, value, following)?;
                Ok(made)
            }
            Initial::List(_) => {
                let stored = self.lower_parts(graph, place, declaration, first, following)?;
                stored.prepend(place, 0, Work::Zero(declaration))
            }
            Initial::Text(_) => {
                let stored = self.lower_parts(graph, place, declaration, first, following)?;
                stored.prepend(place, 0, Work::Zero(declaration))
            }
        }
    }

    // Stores the pieces of an initializer of an object.
    fn lower_parts(
        &self,
        graph: &mut GraphBuilder,
        place: Place,
        declaration: u32,
        first: &Initial,
        following: Strip,
    ) -> Result<Strip, AllocError>
        requires { HasLayouts self.now.program.now }
        ensures { IfOk result (λ made.
            StoresPieces (program_of self.now) (function_of self.now) place declaration
            (initials.pieces (program_of self.now) (type_in (function_of self.now) declaration) 0
            (initial first.now)) (built_of graph.old) (built_of graph.new) (point_of made)
            (point_of following)) }
    {
        let ty = self.local_type(declaration);
        let pieces = pieces(self.alloc, self.program, ty, first)?;
        let made = self.lower_pieces(graph, place, declaration, &pieces, following)?;
        Ok(made)
    }

    // Stores pieces, one after another.
    fn lower_pieces(
        &self,
        graph: &mut GraphBuilder,
        place: Place,
        declaration: u32,
        pieces: &[Piece],
        following: Strip,
    ) -> Result<Strip, AllocError>
        requires { HasLayouts self.now.program.now }
        ensures { IfOk result (λ made.
            StoresPieces (program_of self.now) (function_of self.now) place declaration
            (map piece_of pieces.now) (built_of graph.old) (built_of graph.new) (point_of made)
            (point_of following)) }
    {
        let mut made = following;
        let mut left = pieces.len();
        while left > 0 {
            left -= 1;
            made = self.lower_piece(graph, place, declaration, pieces[left], made)?;
        }
        Ok(made)
    }

    // Stores a piece.
    fn lower_piece(
        &self,
        graph: &mut GraphBuilder,
        place: Place,
        declaration: u32,
        piece: Piece,
        following: Strip,
    ) -> Result<Strip, AllocError>
        requires { HasLayouts self.now.program.now }
        ensures { IfOk result (λ made.
            StoresPieces (program_of self.now) (function_of self.now) place declaration
            (piece_of piece.entry ∷ []) (built_of graph.old) (built_of graph.new) (point_of made)
            (point_of following)) }
    {
        match piece {
            Piece::Value(offset, value) => {
                self.lower_store(graph, place, declaration, offset, value, following)
            }
            Piece::Text(offset, bytes) => {
                let bytes = Bytes::from_slice(self.alloc, bytes)?;
                following.prepend(place, 0, Work::Spell(declaration, offset, bytes))
            }
        }
    }

    // Stores the value of an expression in a local, at an offset.
    fn lower_store(
        &self,
        graph: &mut GraphBuilder,
        place: Place,
        declaration: u32,
        offset: u64,
        value: &Expr,
        following: Strip,
    ) -> Result<Strip, AllocError>
        requires { HasLayouts self.now.program.now }
        ensures { IfOk result (λ made.
            StoresPieces (program_of self.now) (function_of self.now) place declaration
            (initials.Evaluated offset (typed value.now) ∷ []) (built_of graph.old)
            (built_of graph.new) (point_of made) (point_of following)) }
    {
        let ty = value.ty.copy(self.alloc)?;
        let scalar = self.is_scalar_local(declaration);
        let work = Work::StoreLocal(declaration, offset, ty, scalar);
        let following = following.prepend(place, 0, work)?;
        self.lower_used(graph, value, 0, following)
    }

    // Whether a local is a scalar.
    fn is_scalar_local(&self, declaration: u32) -> bool
        ensures { result ≡ types.is_scalar (type_in (function_of self.now) declaration) }
    {
        match self.function.locals.get(declaration as usize) {
            Some(local) => is_scalar(&local.ty),
            None => false,
        }
    }

    // Returns the type of a local.
    fn local_type(&self, declaration: u32) -> BlockType<'_>
        ensures { type_of result ≡ type_in (function_of self.now) declaration }
    {
        match self.function.locals.get(declaration as usize) {
            Some(local) => BlockType::Of(&local.ty),
            None => BlockType::Void,
        }
    }
}
