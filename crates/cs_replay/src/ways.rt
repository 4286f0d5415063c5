//! The cases of a `switch`, as ways out of it (C11 6.8.4.2).
ghost use Rattle.std.specs.Prelude.{◌≡◌, IfOk, map};
ghost use Rattle.cs_cfg.specs.CodeSteps as steps;
ghost use Rattle.cs_cfg.specs.GraphView as view;
ghost use Rattle.cs_replay.specs.Ways.{way_seen};

use cs_cfg::SwitchCase;
use std::alloc::AllocError;

/// A way out of a `switch`: the number of its case among those with a value, and the block to which it leads.
#[derive(Clone, Copy)]
pub struct Way {
    pub number: u32,
    pub block: u32,
}

/// Returns the way for a number: that of the first case with it.
pub fn way_of(cases: &[SwitchCase], otherwise: u32, number: i128) -> Result<Way, AllocError>
    ensures { IfOk result (λ way.
        way_seen way ≡ steps.way_of (map view.switch_case cases.now) otherwise number 0) }
{
    let mut count = 0;
    for case in cases {
        if case.value == number {
            return Ok(Way {
                number: count,
                block: case.block,
            });
        }
        count = count.checked_add(1).ok_or(AllocError)?;
    }
    Ok(Way {
        number: count,
        block: otherwise,
    })
}
