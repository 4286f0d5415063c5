//! Guesses at the same events.
ghost use Rattle.std.specs.Prelude.{◌≡◌, ◌↔◌, ◌<◌, ◌≤◌, IsTrue, length};
ghost use Rattle.cs_judge.specs.Agreement.{AreBefore, AreAtEvents};

use cs_events::Guess;

/// Whether exactly the guesses at indices below a place are before an event.
pub fn are_before(place: usize, event: u64, guesses: &[Guess]) -> bool
    ensures { IsTrue result ↔ AreBefore place event guesses.now }
{
    for (index, guess) in guesses.iter().enumerate() {
        if (guess.event < event) != (index < place) {
            return false;
        }
    }
    true
}

/// Whether the other guesses are at the events of the first ones of mine, as many as this place.
pub fn are_at_events(place: usize, mine: &[Guess], other: &[Guess]) -> bool
    ensures { IsTrue result ↔ AreAtEvents place mine.now other.now }
{
    other.len() == place && place <= mine.len() && same_events(mine, other)
}

fn same_events(mine: &[Guess], other: &[Guess]) -> bool
    requires { length other.now ≤ length mine.now }
    ensures { IsTrue result ↔ AreAtEvents (length other.now) mine.now other.now }
{
    for index in 0..other.len() {
        if other[index].event != mine[index].event {
            return false;
        }
    }
    true
}
