//! Whether lists of words that are kept in runs have the same bytes, however they are divided into runs.
ghost use Rattle.std.specs.Prelude.{◌≡◌, []};
ghost use Rattle.std.specs.Prelude.{nat_eq};
ghost use Rattle.std.specs.Cmp.Lexicographic.{pointwise};
ghost use Rattle.cs_keys.specs.Runs.{bytes_left};

use cs_word_lists::SharedWords;

/// The bytes that remain to be compared.
#[derive(Drop)]
pub(crate) struct Left<'a> {
    pub run: &'a [u8],
    pub later: &'a [SharedWords],
    pub last: &'a [u8],
}

impl<'a> Left<'a> {
    // Advances to the next bytes, if those of the current run are used up.
    fn go_on(&mut self)
        ensures same { bytes_left self.new ≡ bytes_left self.old }
        ensures done { self.new.run.now ≡ [] → bytes_left self.new ≡ [] }
    {
        while self.run.is_empty() {
            if let Some((run, later)) = self.later.split_first() {
                self.run = run.words().bytes();
                self.later = later;
            } else if self.last.is_empty() {
                return;
            } else {
                self.run = self.last;
                self.last = &[];
            }
        }
    }
}

/// Whether the same bytes remain.
pub(crate) fn are_same(mut one: Left<'_>, mut other: Left<'_>) -> bool
    ensures { result ≡ pointwise nat_eq (bytes_left one.entry) (bytes_left other.entry) }
{
    loop {
        one.go_on();
        other.go_on();
        let count = one.run.len().min(other.run.len());
        if count == 0 {
            return one.run.len() == other.run.len();
        }
        if one.run[..count] != other.run[..count] {
            return false;
        }
        one.run = &one.run[count..];
        other.run = &other.run[count..];
    }
}
