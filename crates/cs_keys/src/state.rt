//! The key of a state.
ghost use Rattle.std.specs.Prelude.{◌≡◌, option_map, IfOk, OnOk};
ghost use Rattle.cs_keys.specs.Live.{live_value, live_part};
ghost use Rattle.cs_keys.specs.Words.{with_model, with_counters, with_returned, with_position, with_memory, with_counted, words_of};

use crate::word_list::Key;
use cs_constraints::Constraints;
use cs_state::{Counters, State};
use cs_store::Value;
use cs_types::DataModel;
use std::alloc::{AllocError, Global};

impl Key {
    fn model(&mut self, model: DataModel) -> Result<(), AllocError>
        ensures { OnOk result (self.new ≡ with_model self.old model) }
    {
        match model {
            DataModel::Lp64 => self.word(0),
            DataModel::Ilp32 => self.word(1),
        }
    }

    fn counters(&mut self, counters: &Counters) -> Result<(), AllocError>
        ensures { OnOk result (self.new ≡ with_counters self.old counters.now) }
    {
        self.word(counters.frames)?;
        self.word(counters.allocations)?;
        self.word(counters.calls)?;
        self.word(counters.events)
    }

    fn returned(
        &mut self,
        constraints: &Constraints,
        returned: &Option<Value>,
    ) -> Result<(), AllocError>
        ensures { OnOk result
            (self.new ≡ with_returned self.old
            (option_map (live_value constraints.now) returned.now)) }
    {
        let Some(value) = returned else {
            return self.word(0);
        };
        self.value(constraints, value)?;
        self.word(1)
    }

    // Writes the position of a run: frames, answers and result.
    fn position(&mut self, state: &State) -> Result<(), AllocError>
        ensures { OnOk result (self.new ≡ with_position self.old (live_part state.now)) }
    {
        self.frame(&state.constraints, &state.frame)?;
        self.callers(&state.constraints, &state.callers)?;
        self.terms(&state.constraints, state.answers.as_slice())?;
        self.returned(&state.constraints, &state.result)
    }

    // Writes the contents of memory.
    fn memory(&mut self, state: &State) -> Result<(), AllocError>
        ensures { OnOk result (self.new ≡ with_memory self.old (live_part state.now)) }
    {
        self.store(&state.constraints, &state.store)?;
        self.blocks(&state.constraints, &state.blocks)?;
        self.read(&state.constraints, &state.read)
    }

    // Writes the data model, the counters and the phase.
    fn counted(&mut self, state: &State) -> Result<(), AllocError>
        ensures { OnOk result (self.new ≡ with_counted self.old (live_part state.now)) }
    {
        self.model(state.model)?;
        self.counters(&state.counters)?;
        self.word(u64::from(state.phase))
    }
}

/// Returns the key of a state: the words of its live part.
pub fn key(alloc: Global, state: &State) -> Result<Key, AllocError>
    ensures { IfOk result (λ key. key ≡ words_of (live_part state.now)) }
{
    let mut key = Key::new(alloc)?;
    key.position(state)?;
    key.memory(state)?;
    key.counted(state)?;
    Ok(key)
}
