//! The top call of the program.
ghost use Rattle.std.specs.Prelude.{◌≡◌, ℕ, map};
ghost use Rattle.std.specs.Io.KnownBytes.{IsAtEnd, Keeps};
ghost use Rattle.cs_io.specs.Count.{Rose};
ghost use Rattle.cs_words.specs.Meaning.{words_text, WordsMean, AreRefusedAt};
ghost use Rattle.cs_words.specs.declared.command.Command.{Command};
ghost use Rattle.cs_words.specs.declared.command.Command.TheVariants.{Generate};
ghost use Rattle.cs_words.specs.declared.command.GenerateWords.{GenerateWords};
ghost use Rattle.cs_app.specs.Answers.{IsWritten, IsPartWritten, IsDone, IsRead, Reads, IsAnswered, IsAcceptable, IsTypeRefused, refused_line, IsRefusedWith, SinkRose};

use crate::command::answer_for;
use cs_answers::Status;
use cs_checker::Checker;
use cs_io::{Sink, Source, write_all_of};
use std::alloc::Global;

/// Runs the program: given the command line, it reads the file from the source, writes the answer to the sink, and returns the status. The
/// checkers are queried for each operation that the analysis reaches. With one of each kind, the analysis of an integer function misses no
/// fault, unless it states that it was cut.
///
/// The checks come in this order: command line, reading, length, lexing, syntax, types, entry, analysis or run, writing. The whole text is
/// made before the first write, so nothing is written if the source fails or memory runs out.
pub fn csa<S: Source, K: Sink>(
    alloc: Global,
    words: &[String],
    source: &mut S,
    sink: &mut K,
    checkers: &mut Vec<Box<dyn Checker>>,
) -> Status
    // The whole text for the command line, the file and the status is written.
    ensures written { IsDone result
        → IsWritten (map (λ b. kind_of b) checkers.old.items) (words_text words.now)
        (S.left source.old) result (K.written sink.old) (K.written sink.new) }
    ensures read_to_the_end { (command : Command) → WordsMean (words_text words.now) command
        → Reads command → IsRead result → IsAtEnd (S.left source.new) }
    ensures unread { (n : ℕ) → AreRefusedAt (words_text words.now) n
        → source.new ≡ source.old }
    ensures generated { (generation : GenerateWords)
        → WordsMean (words_text words.now) (Generate generation) → source.new ≡ source.old }

    // Every other status has its cause, and the sink is unchanged or took a part of such a text.
    ensures read_fault { result ≡ Status.ReadFault
        → Rose (S.faults source.old) (S.faults source.new) }
    ensures read_fault_writes_nothing { result ≡ Status.ReadFault
        → Keeps (K.written sink.old) (K.written sink.new) }
    ensures write_fault { result ≡ Status.WriteFault
        → SinkRose (K.faults sink.old) (K.faults sink.new) (K.empty_takes sink.old)
        (K.empty_takes sink.new) }
    ensures write_fault_writes_a_part { result ≡ Status.WriteFault →
        IsPartWritten (map (λ b. kind_of b) checkers.old.items) (words_text words.now)
        (S.left source.old) (K.written sink.old) (K.written sink.new) }
    ensures memory_writes_nothing { result ≡ Status.Memory
        → Keeps (K.written sink.old) (K.written sink.new) }

    // The checkers keep their kinds and their order.
    ensures kinds { map (λ b. kind_of b) checkers.new.items
        ≡ map (λ b. kind_of b) checkers.old.items }

    // An accepted file is answered, unless a count increases or memory runs out.
    ensures complete { IsAcceptable (words_text words.now) (S.left source.old)
        → (Rose (S.faults source.old) (S.faults source.new) → ⊥)
        → (SinkRose (K.faults sink.old) (K.faults sink.new) (K.empty_takes sink.old)
        (K.empty_takes sink.new) → ⊥)
        → (result ≡ Status.Memory → ⊥) → IsAnswered result }

    // If the file's tree has a type error, that is the answer, with the same exceptions.
    ensures refused_by_types { (r : IsTypeRefused (words_text words.now) (S.left source.old))
        → (Rose (S.faults source.old) (S.faults source.new) → ⊥)
        → (SinkRose (K.faults sink.old) (K.faults sink.new) (K.empty_takes sink.old)
        (K.empty_takes sink.new) → ⊥)
        → (result ≡ Status.Memory → ⊥)
        → IsRefusedWith (refused_line r) result (K.written sink.old) (K.written sink.new) }
{
    match answer_for(alloc, words, source, checkers) {
        Ok(answer) => answer.ended(write_all_of(sink, answer.text.as_slice())),
        Err(failure) => failure.ended(),
    }
}
