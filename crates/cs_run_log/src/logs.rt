//! The log of a run: its events, lookups and touches.
#![tactic(auto, using(crate::proofs::Performing::performing))]

ghost use Rattle.std.specs.Prelude.{◌≡◌, true, false, IfOk, OnOk, IfErr};
ghost use Rattle.cs_events.specs.Acts.{Asks, Allocates, Reaches, Reads, Touches};
ghost use Rattle.cs_events.specs.Runs as runs;
ghost use Rattle.cs_events.specs.Operations as operations;
ghost use Rattle.cs_meaning.specs.Access.{shows_then};
ghost use Rattle.cs_values.specs.View.{object_of, cell_of};
ghost use Rattle.cs_run_log.specs.LogView.{touch_of, pending_of, setting_of, log_of};
ghost use Rattle.cs_run_log.specs.declared.logs.Stop.TheVariants.{Memory};
ghost use Rattle.cs_objects.specs.declared.settings.Setting.{Setting as SettingOfRun};
ghost use Rattle.cs_values.specs.Results.{IsOwn};
ghost use Rattle.cs_run_log.specs.Pieces.{GoesOn, Gives, EndsIn, StopsIn};

use cs_ast::Place;
use cs_events::{
    Budget, Event, Guess, InputKind, Label, Lookup, Operation, Outcome, PointKind, Wrap,
    guess_range, lies_in,
};
use cs_inputs::Path;
use cs_objects::Setting;
use cs_objects::inputs::input_cell;
use cs_types::DataModel;
use cs_values::arithmetic::{Computed, is_true, own_result};
use cs_values::{Cell, Object};
use std::alloc::{AllocError, AllocFailed, Global};

/// A control point that is reached, or an access to a scalar local of a frame at a source position.
#[derive(Clone, Copy, Debug, PartialEq, Eq)]
pub enum Touch {
    Meets(PointKind, Place),
    /// A load of a local, by the frame's number and the declaration's.
    Loads(u64, u32, Place),
    /// A store to it.
    Stores(u64, u32, Place),
    /// A declaration that makes it unset.
    Clears(u64, u32, Place),
}

/// What is about to show as an event at a source position.
#[derive(Drop)]
pub enum Pending {
    /// An operation with its operands.
    Operates(Place, Operation),
    /// An allocation, by the path of the input that decides whether it returns a block.
    Tries(Place, Path),
    /// An access to an object at an offset in bytes. The object is boxed, so that an entry takes no more than an operation needs.
    Accesses(Place, Box<Object>, i128),
}

/// The events, lookups and touches of a run so far, each in order.
#[derive(Drop)]
pub struct Log {
    pub events: Vec<Event>,
    /// What was pending at each event.
    pub pending: Vec<Pending>,
    pub read: Vec<Lookup>,
    pub touches: Vec<Touch>,
}

/// Why a run can't continue.
#[derive(Clone, Copy, Debug, PartialEq, Eq)]
pub enum Stop {
    /// The run ended with this outcome.
    Outcome(Outcome),
    /// Memory ran out.
    Memory,
}

impl From<AllocError> for Stop {
    ghost from_gives = { λ _ stop. stop ≡ Memory };

    fn from(_error: AllocError) -> Stop {
        Stop::Memory
    }
}

impl<T: Drop> From<AllocFailed<T>> for Stop {
    ghost from_gives = { λ _ stop. stop ≡ Memory };

    fn from(_error: AllocFailed<T>) -> Stop {
        Stop::Memory
    }
}

impl Log {
    /// Returns an empty log.
    pub fn new(alloc: Global) -> Log
        ensures { log_of result ≡ runs.empty }
    {
        Log {
            events: Vec::new(alloc),
            pending: Vec::new(alloc),
            read: Vec::new(alloc),
            touches: Vec::new(alloc),
        }
    }

    /// Shows an operation at a source position. Returns its result, or the number that is guessed instead.
    pub fn ask(
        &mut self,
        setting: &Setting,
        place: Place,
        operation: Operation,
    ) -> Result<i128, Stop>
        ensures ok { IfOk result (Gives setting.now self.old self.new (Asks place operation)) }
        ensures err { IfErr result (StopsIn setting.now self.old self.new (Asks place operation)) }
    {
        if !self.allows_event(setting) {
            return Err(Stop::Outcome(Outcome::Over(Budget::Events, place)));
        }
        let guess = self.used_guess(setting, operation);
        let own = own_result(setting.program.model, operation)?;
        let shown = label(operation, own, guess);
        self.push(Pending::Operates(place, operation), place, shown)?;
        Ok(leading(own.number, guess))
    }

    /// Shows a label at a source position.
    pub fn show(&mut self, setting: &Setting, place: Place, label: Label) -> Result<(), Stop>
        ensures ok { OnOk result (GoesOn setting.now self.old self.new (shows_then place label)) }
        ensures err { IfErr result (EndsIn setting.now self.old self.new (shows_then place label)) }
    {
        if !self.allows_event(setting) {
            return Err(Stop::Outcome(Outcome::Over(Budget::Events, place)));
        }
        self.push(
            Pending::Operates(place, Operation::Show(label)),
            place,
            label,
        )?;
        Ok(())
    }

    /// Looks up an input of a kind, and returns its cell.
    pub fn read_input(
        &mut self,
        setting: &Setting,
        path: &Path,
        kind: InputKind,
    ) -> Result<Cell, Stop>
        ensures ok { IfOk result (λ cell.
            Gives setting.now self.old self.new (Reads path.now kind) (cell_of cell)) }
        ensures err { IfErr result
            (StopsIn setting.now self.old self.new (Reads path.now kind)) }
    {
        let number = setting.inputs.get(path);
        self.look_up(path.copy()?, kind)?;
        let cell = input_cell(setting.program.model, path, kind, &number)?;
        Ok(cell)
    }

    /// Shows an allocation at a source position, and returns whether it returns a block: that is an input.
    pub fn try_allocation(
        &mut self,
        setting: &Setting,
        place: Place,
        path: Path,
    ) -> Result<bool, Stop>
        ensures ok { IfOk result (Gives setting.now self.old self.new (Allocates place path)) }
        ensures err { IfErr result (StopsIn setting.now self.old self.new (Allocates place path)) }
    {
        if !self.allows_event(setting) {
            return Err(Stop::Outcome(Outcome::Over(Budget::Events, place)));
        }
        let given = is_true(setting.inputs.get(&path));
        self.look_up(path.copy()?, InputKind::Allocation)?;
        self.push(Pending::Tries(place, path), place, Label::Alloc(given))?;
        Ok(given)
    }

    /// Shows the offset that an access has reached in an object.
    pub fn show_offset(
        &mut self,
        setting: &Setting,
        place: Place,
        object: &Object,
        offset: i128,
    ) -> Result<(), Stop>
        ensures ok { OnOk result
            (GoesOn setting.now self.old self.new (Reaches place (object_of object.now) offset)) }
        ensures err { IfErr result
            (EndsIn setting.now self.old self.new (Reaches place (object_of object.now) offset)) }
    {
        if !self.allows_event(setting) {
            return Err(Stop::Outcome(Outcome::Over(Budget::Events, place)));
        }
        let object = Box::new(*self.events.allocator(), object.copy()?)?;
        let shown = Label::Offset(offset_shown(offset));
        self.push(Pending::Accesses(place, object, offset), place, shown)?;
        Ok(())
    }

    /// Records a touch, which shows no event.
    pub fn touch(&mut self, touch: Touch) -> Result<(), AllocError>
        ensures { OnOk result ((setting : SettingOfRun)
            → GoesOn setting self.old self.new (Touches (touch_of touch))) }
    {
        self.touches.push(touch)?;
        Ok(())
    }

    // Whether the budget of events allows one more.
    fn allows_event(&self, setting: &Setting) -> bool
        ensures { result ≡ runs.allows_event (setting_of setting.now) (log_of self.now) }
    {
        (self.events.len() as u64) < setting.budgets.events
    }

    // Appends an event, and what was pending there.
    fn push(&mut self, pending: Pending, place: Place, label: Label) -> Result<(), AllocError>
        ensures { OnOk result (log_of self.new
            ≡ runs.with_event (log_of self.old) (pending_of pending)
            (record { place = place; label = label })) }
    {
        self.events.push(Event { place, label })?;
        self.pending.push(pending)?;
        Ok(())
    }

    // Appends an input that was looked up.
    fn look_up(&mut self, path: Path, kind: InputKind) -> Result<(), AllocError>
        ensures { OnOk result (log_of self.new ≡ runs.with_read (log_of self.old) path kind) }
    {
        self.read.push(Lookup { path, kind })?;
        Ok(())
    }

    // Returns the guess that is used at the next event, if any.
    fn used_guess(&self, setting: &Setting, operation: Operation) -> Option<i128>
        ensures { result ≡ runs.used_guess (setting_of setting.now) (log_of self.now) operation }
    {
        let range = guess_range(setting.program.model, operation)?;
        let number = guess_at(setting.guesses, self.events.len() as u64 + 1)?;
        if lies_in(range, number) {
            Some(number)
        } else {
            None
        }
    }
}

// Returns the number of the first guess listed for an event.
fn guess_at(guesses: &[Guess], event: u64) -> Option<i128>
    ensures { result ≡ runs.guess_at guesses.now event }
{
    for guess in guesses {
        if guess.event == event {
            return Some(guess.number);
        }
    }
    None
}

// Returns the number that a run continues with: the guess, or the operation's own result.
fn leading(number: i128, guess: Option<i128>) -> i128
    ensures { (model : DataModel) (operation : Operation)
        → number ≡ operations.own_result model operation
        → result ≡ operations.result_with model operation guess }
{
    match guess {
        Some(guess) => guess,
        None => number,
    }
}

// Returns the label of a truth value.
fn truth_label(number: i128) -> Label
    ensures { result ≡ Label.Truth (operations.is_true number) }
{
    Label::Truth(is_true(number))
}

// Returns the label of an operation.
fn label(operation: Operation, own: Computed, guess: Option<i128>) -> Label
    ensures { (model : DataModel) → IsOwn model operation own
        → result ≡ operations.shows model operation guess }
{
    match operation {
        Operation::Show(label) => label,
        Operation::Compare(_, _, _) => truth_label(leading(own.number, guess)),
        Operation::Order(_, _) => truth_label(leading(own.number, guess)),
        Operation::Product(_, _) => truth_label(leading(own.number, guess)),
        Operation::Binary(_, _, _, _) => Label::Wrap(wrap_or_guess(own.wrap, guess)),
        Operation::Unary(_, _, _) => Label::Wrap(wrap_or_guess(own.wrap, guess)),
        Operation::Convert(_, _) => Label::Wrap(wrap_or_guess(own.wrap, guess)),
        Operation::Sum(_, _, _) => Label::Wrap(wrap_or_guess(own.wrap, guess)),
        Operation::Difference(_, _, _) => Label::Wrap(wrap_or_guess(own.wrap, guess)),
    }
}

// Returns the label of a wrap quotient, or that of a guess.
fn wrap_or_guess(wrap: Wrap, guess: Option<i128>) -> Wrap
    ensures { (model : DataModel) (operation : Operation)
        → wrap ≡ operations.wrap_of (operations.own_quotient model operation)
        → result ≡ operations.wrap_or_guess model operation guess }
{
    match guess {
        Some(_) => Wrap::Guessed,
        None => wrap,
    }
}

// Returns the label of an access: its offset modulo 2^64.
fn offset_shown(offset: i128) -> u64
    ensures { result ≡ operations.offset_shown offset }
{
    offset.rem_euclid(1 << 64) as u64
}
