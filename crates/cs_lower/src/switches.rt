//! The lowering of `switch` (C11 6.8.4.2).
ghost use Rattle.std.specs.Prelude.{◌≡◌, ◌++◌, ℕ, [], IfOk, OnOk, length, map};
ghost use Rattle.cs_ast.specs.TypedProgram.{HasLayouts};
ghost use Rattle.cs_ast.specs.TypedTree.{Switch};
ghost use Rattle.cs_ast.specs.TypedView.{typed, statement_list};
ghost use Rattle.cs_meaning.specs.Statements.{default_item};
ghost use Rattle.cs_cfg.specs.GraphView.{switch_case};
ghost use Rattle.cs_lower.specs.Building.{point_of};
ghost use Rattle.cs_lower.specs.Expressions.{used_one};
ghost use Rattle.cs_lower.specs.Ready.{IsReady};
ghost use Rattle.cs_lower.specs.Statements as statements;
ghost use Rattle.cs_lower.specs.Switching.{with_case, cases_to, leads_to};
ghost use Rattle.cs_lower.specs.Builds.{BuildsBefore, BuildsStatement};

use crate::building::GraphBuilder;
use crate::context::Lowering;
use crate::statements::Exits;
use crate::strips::Strip;
use cs_ast::Place;
use cs_ast::typed::expression::Expr;
use cs_ast::typed::statement::{Case, Stmt};
use cs_cfg::{BlockEnd, SwitchCase};
use std::alloc::AllocError;

impl Lowering<'_> {
    /// Returns code for a `switch`. Its statements follow one another, and `break` leads to the end of the last one.
    #[cycle(statements)]
    pub fn lower_switch(
        &self,
        graph: &mut GraphBuilder,
        statements: &[Stmt],
        place: Place,
        value: &Expr,
        cases: &[Case],
        around: u32,
        following: Strip,
    ) -> Result<Strip, AllocError>
        requires { IsReady self.now }
        ensures { IfOk result (λ made.
            (out : ℕ) → BuildsStatement self.now graph.old graph.new
            (Switch place (typed value.now) cases.now (statement_list statements.now)) out around
            made following) }
    {
        let end = graph.seal(following)?;
        let exits = Exits {
            out: end,
            again: around,
        };
        let entries = self.lower_entries(graph, statements, exits, end)?;
        let made = self.lower_cases(graph, place, value, cases, &entries, end)?;
        Ok(made)
    }

    // Selects the block of the case for the value of a `switch`. `blocks` are those of its statements, and `end` comes after them.
    fn lower_cases(
        &self,
        graph: &mut GraphBuilder,
        place: Place,
        value: &Expr,
        cases: &[Case],
        blocks: &[u32],
        end: u32,
    ) -> Result<Strip, AllocError>
        requires { HasLayouts self.now.program.now }
        ensures { IfOk result (λ made.
            BuildsBefore self.now graph.old graph.new (used_one (typed value.now) 0) made
            (leads_to place cases.now blocks.now end)) }
    {
        let following = self.choice(place, cases, blocks, end)?;
        self.lower_used(graph, value, 0, following)
    }

    // Returns the selection of the block of a case.
    fn choice(
        &self,
        place: Place,
        cases: &[Case],
        blocks: &[u32],
        end: u32,
    ) -> Result<Strip, AllocError>
        ensures { IfOk result (λ made. point_of made ≡ leads_to place cases.now blocks.now end) }
    {
        let ways = self.ways(cases, blocks, end)?;
        let otherwise = default_block(cases, blocks, end);
        let end = BlockEnd::Switch(place, 0, ways, otherwise);
        Ok(Strip::ending(self.alloc, end))
    }

    // Returns the cases with a value, each with its block.
    fn ways(&self, cases: &[Case], blocks: &[u32], end: u32) -> Result<Vec<SwitchCase>, AllocError>
        ensures { IfOk result (λ ways.
            map switch_case ways.items ≡ cases_to blocks.now end cases.now) }
    {
        let mut ways = Vec::new(self.alloc);
        for case in cases {
            add_way(&mut ways, case, block_at(blocks, case.item, end))?;
        }
        Ok(ways)
    }
}

// Adds a case with its block, if it has a value.
fn add_way(ways: &mut Vec<SwitchCase>, case: &Case, block: u32) -> Result<(), AllocError>
    ensures { OnOk result (map switch_case ways.new.items
        ≡ map switch_case ways.old.items ++ with_case case.now.value block []) }
{
    match case.value {
        Some(value) => {
            ways.push(SwitchCase { value, block })?;
            Ok(())
        }
        None => Ok(()),
    }
}

// Returns the block of the statement with a number, or the one after all of them.
fn block_at(blocks: &[u32], item: u32, end: u32) -> u32
    ensures { result ≡ statements.block_at blocks.now end item }
{
    match blocks.get(item as usize) {
        Some(block) => *block,
        None => end,
    }
}

// Returns the block of `default`, or the one after all statements.
fn default_block(cases: &[Case], blocks: &[u32], end: u32) -> u32
    ensures { result ≡ statements.block_at blocks.now end
        (default_item cases.now (length blocks.now)) }
{
    for case in cases {
        if case.value.is_none() {
            return block_at(blocks, case.item, end);
        }
    }
    end
}
