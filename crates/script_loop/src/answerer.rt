//! What answers the lines of a script.
ghost use Rattle.std.specs.Prelude.{ℕ, List, Bool, IfOk};
ghost use Rattle.script_loop.specs.Turns.{TakesTurn};

use std::io;
use std::io::Write;

/// What came of a line.
pub enum LineTurn<S> {
    /// It was answered, and the reply was written.
    Replied {
        /// Whether the reply was a refusal.
        is_refusal: bool,
    },
    /// The same, and something is to be done before the next line is read.
    Stopped {
        /// Whether the reply was a refusal.
        is_refusal: bool,
        /// What is to be done.
        why: S,
    },
    /// It is no line of the script. Nothing was written.
    NotUnderstood,
    /// There was no memory for it. Nothing was written.
    NoMemory,
}

/// What answers the lines of a script, each in the state in which the last one left it. `C` is what it takes for that:
/// a source of memory, or more.
pub trait Answerer<C> {
    /// What is to be done before a further line is read.
    type Stop;

    /// From one state to another a line is answered by this text, which is a refusal or not.
    ghost answers: { Self → List ℕ → List ℕ → Bool → Self → Type 0 };

    /// The same, and this is to be done before the next line.
    ghost stops: { Self → List ℕ → List ℕ → Bool → Self.Stop → Self → Type 0 };

    /// A line is none.
    ghost is_none: { List ℕ → Type 0 };

    /// A line that isn't answered may leave one state as another.
    ghost unanswered: { Self → Self → Type 0 };

    /// Answers a line. `Err` says that a write failed: then the line may have been carried out.
    fn answer<W: Write>(
        &mut self,
        context: &C,
        line: &[u8],
        writer: &mut W,
    ) -> io::Result<LineTurn<Self::Stop>>
        ensures { IfOk result (λ turn. TakesTurn answers stops is_none unanswered self.old line.now
            (W.contents writer.old) turn self.new (W.contents writer.new)) };
}
