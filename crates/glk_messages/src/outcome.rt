// How a program ends.
ghost use Rattle.std.specs.Prelude.{◌≡◌};
ghost use Rattle.glk_messages.specs.Outcomes.{outcome_of, status_of};

use glk_base::Fault;
use glk_cause::Cause;
use glk_words::UsageBad;

/// How a program ended.
#[derive(Debug, Drop, PartialEq)]
pub enum Outcome {
    /// All that was asked for is done.
    Done,
    Refused(Cause),
    /// The command line is faulty.
    Usage(UsageBad),
    OutOfMemory,
}

impl Outcome {
    /// The outcome of what a command answered.
    pub fn of_answer<T: Drop>(answer: Result<T, Fault<Cause>>) -> Outcome
        ensures { result ≡ outcome_of answer }
    {
        match answer {
            Ok(_) => Outcome::Done,
            Err(Fault::Bad(refusal)) => Outcome::Refused(refusal),
            Err(Fault::OutOfMemory) => Outcome::OutOfMemory,
        }
    }

    /// The program's exit status.
    pub fn status(&self) -> u8
        ensures { result ≡ status_of self.now }
    {
        match self {
            Outcome::Done => 0,
            Outcome::Refused(_) => 1,
            Outcome::Usage(_) => 2,
            Outcome::OutOfMemory => 3,
        }
    }
}
