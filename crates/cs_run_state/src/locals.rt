//! Locals of the current frame: stores to them, and the pieces of initializers (C11 6.7.9).
ghost use Rattle.std.specs.Prelude.{◌≡◌, OnOk, Some, map};
ghost use Rattle.cs_types.specs.Shape.{shape_of};
ghost use Rattle.cs_ast.specs.TypedProgram.{HasLayouts, typed_program};
ghost use Rattle.cs_ast.specs.TypedView.{initial};
ghost use Rattle.cs_events.specs.Acts.{Goes};
ghost use Rattle.cs_events.specs.Objects.{LocalObject};
ghost use Rattle.cs_meaning.specs.Access as access;
ghost use Rattle.cs_meaning.specs.Types as types;
ghost use Rattle.cs_meaning.specs.Initials as initials;
ghost use Rattle.cs_meaning.specs.Machine as machine;
ghost use Rattle.cs_meaning.specs.Memory as memory;
ghost use Rattle.cs_meaning.specs.Statements as meaning;
ghost use Rattle.cs_objects.specs.Prepared as settings;
ghost use Rattle.cs_objects.specs.BlockView.{type_of, fill_of, piece_of};
ghost use Rattle.cs_run_state.specs.MachineView.{state_of};
ghost use Rattle.cs_run_state.specs.Storing.{with_piece};

use crate::items::{ExprStep, Item};
use crate::machine::Machine;
use cs_ast::Place;
use cs_ast::typed::program::Program;
use cs_ast::typed::statement::Initial;
use cs_objects::Setting;
use cs_objects::access::is_scalar;
use cs_objects::blocks::{BlockType, Change, Fill, Piece};
use cs_objects::pieces::pieces;
use cs_types::CType;
use cs_values::Object;
use std::alloc::AllocError;

impl<'a> Machine<'a> {
    /// Pops the newest value, of a type, and writes it in a local at an offset.
    #[tactic(auto, using(crate::proofs::States::states), unfolding(crate::specs::MachineView::state_of))]
    pub fn store_newest(
        &mut self,
        setting: &Setting,
        ty: &CType,
        declaration: u32,
        offset: u64,
    ) -> Result<(), AllocError>
        requires { settings.IsReady setting.now }
        ensures { OnOk result (state_of self.new
            ≡ machine.with_memory (memory.changed
            (access.write_operand (typed_program setting.now.program.now) (shape_of ty.now) offset
            (machine.operand_at (state_of self.old) 0))
            (LocalObject (state_of self.old).frame.number declaration) (state_of self.old).memory)
            (machine.pop (state_of self.old))) }
    {
        let operand = self.pop();
        let object = Object::Local(self.frame.number, declaration);
        self.memory
            .write_operand(setting, ty, &object, offset, &operand)?;
        Ok(())
    }

    /// Stores bytes in a local.
    #[tactic(auto, using(crate::proofs::States::states), unfolding(crate::specs::MachineView::state_of))]
    pub fn spell_local(
        &mut self,
        program: &'a Program,
        declaration: u32,
        offset: u64,
        bytes: &[u8],
    ) -> Result<(), AllocError>
        requires { HasLayouts program.now }
        ensures { OnOk result (Goes (state_of self.new)
            ≡ meaning.spell_local (typed_program program.now) declaration offset bytes.now
            (state_of self.old)) }
    {
        let object = Object::Local(self.frame.number, declaration);
        self.memory.write_bytes(program, &object, offset, bytes)?;
        Ok(())
    }

    /// Zeroes an object, and schedules the stores of the pieces of its initializer, one after another.
    pub fn initialize_local(
        &mut self,
        program: &'a Program,
        place: Place,
        declaration: u32,
        first: &'a Initial,
    ) -> Result<(), AllocError>
        requires { HasLayouts program.now }
        ensures { OnOk result (state_of self.new
            ≡ machine.to_do (meaning.stores_pieces place declaration
            (initials.pieces (typed_program program.now)
            (meaning.local_type (typed_program program.now) declaration (state_of self.old)) 0
            (initial first.now)) (state_of self.old).frame.todo)
            (meaning.refilled memory.ZeroFill declaration (state_of self.old))) }
    {
        let alloc = *self.frame.todo.allocator();
        let ty = self.local_type(program, declaration);
        let pieces = pieces(alloc, program, ty, first)?;
        self.put_pieces(place, declaration, &pieces)?;
        self.refill_local(declaration, Fill::Zero)?;
        Ok(())
    }

    // Schedules the stores of pieces, one after another.
    fn put_pieces(
        &mut self,
        place: Place,
        declaration: u32,
        pieces: &[Piece<'a>],
    ) -> Result<(), AllocError>
        ensures { OnOk result (state_of self.new
            ≡ machine.to_do (meaning.stores_pieces place declaration (map piece_of pieces.now)
            (state_of self.old).frame.todo) (state_of self.old)) }
    {
        let mut left = pieces.len();
        while left > 0 {
            left -= 1;
            self.put_piece(place, declaration, pieces[left])?;
        }
        Ok(())
    }

    // Schedules the store of a piece of an initializer.
    fn put_piece(
        &mut self,
        place: Place,
        declaration: u32,
        piece: Piece<'a>,
    ) -> Result<(), AllocError>
        ensures { OnOk result (state_of self.new
            ≡ machine.to_do (with_piece place declaration (piece_of piece.entry)
            (state_of self.old).frame.todo) (state_of self.old)) }
    {
        match piece {
            Piece::Value(offset, value) => {
                self.put(Item::Store(place, declaration, offset, &value.ty))?;
                self.put_expr(ExprStep::Evaluate, value)
            }
            Piece::Text(offset, bytes) => self.put(Item::Spell(declaration, offset, bytes)),
        }
    }

    /// Gives a local of the current frame the contents of a fill.
    pub fn refill_local(&mut self, declaration: u32, fill: Fill<'a>) -> Result<(), AllocError>
        ensures { OnOk result (state_of self.new
            ≡ meaning.refilled (fill_of fill.entry) declaration (state_of self.old)) }
    {
        let local = Object::Local(self.frame.number, declaration);
        self.memory.change(&local, Change::Refill(fill))?;
        Ok(())
    }

    // Returns the type of a local of the current function.
    #[tactic(auto, using(crate::proofs::States::states), unfolding(crate::specs::MachineView::state_of))]
    fn local_type<'p>(&self, program: &'p Program, declaration: u32) -> BlockType<'p>
        ensures { type_of result ≡ meaning.local_type (typed_program program.now) declaration
            (state_of self.now) }
    {
        match program.functions.get(self.frame.function as usize) {
            Some(function) => match function.locals.get(declaration as usize) {
                Some(local) => BlockType::Of(&local.ty),
                None => BlockType::Void,
            },
            None => BlockType::Void,
        }
    }

    /// Returns the declaration of a local of the current frame, if it is a scalar.
    pub fn scalar_local(&self, program: &Program, declaration: u32) -> Option<u32>
        ensures { result ≡ meaning.if_scalar
            (meaning.local_type (typed_program program.now) declaration (state_of self.now))
            declaration }
    {
        if is_scalar_type(self.local_type(program, declaration)) {
            Some(declaration)
        } else {
            None
        }
    }
}

// Whether a type is a scalar.
fn is_scalar_type(ty: BlockType) -> bool
    ensures { result ≡ types.is_scalar (type_of ty.entry) }
{
    match ty {
        BlockType::Of(ty) => is_scalar(ty),
        BlockType::Integer(_) => true,
        BlockType::Text(_) => false,
        BlockType::Void => false,
    }
}
