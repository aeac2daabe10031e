// Document 02, R-1: the reader as a record over the log's bytes and its position. Each method takes it apart and calls the reader on
// a plain slice and a position; whoever wants no record calls that one.
#![tactic(auto)]

ghost use Rattle.std.specs.Prelude.{◌≡◌};
ghost use Rattle.refusals.specs.Numbers.{numbered, numbered_by};
ghost use Rattle.refusals.specs.Readings.{some_or};
ghost use Rattle.log_model.specs.Read.{read_hop};
ghost use Rattle.log_reader.specs.Reader.{advanced};

use refusals::{Refusal, Refuses};

#[derive(Clone, Copy)]
pub struct LogReader<'a> {
    pub log: &'a [u8],
    pub at: usize,
}

// Where a reader that stood at `at` stands after an answer: only a hop that was read moves it.
pub fn place_after<E: Refuses>(answer: Result<Option<usize>, E>, at: usize) -> usize
    ensures { result ≡ some_or at (numbered_by E.number answer) }
{
    match answer {
        Ok(Some(next)) => next,
        Ok(None) | Err(_) => at,
    }
}

impl<'a> LogReader<'a> {
    // Before the first hop, behind the two bytes of n.
    pub fn open(log: &'a [u8]) -> LogReader<'a>
        ensures { (result.log ≡ log.entry) × (result.at ≡ 2) }
    {
        LogReader { log, at: 2 }
    }

    // Where the reader stands.
    pub fn place(self) -> usize
        ensures { result ≡ self.entry.at }
    {
        self.at
    }

    // One hop on.
    pub fn next(
        &mut self,
        db_bits: &mut [u64],
        power_bits: &mut [u32],
    ) -> Result<Option<usize>, Refusal>
        ensures { ((numbered result, db_bits.new, power_bits.new) ≡ read_hop self.old.log.now self.old.at db_bits.old power_bits.old) × (self.new ≡ advanced self.old (numbered result)) }
    {
        let answer = log_read::log_read(self.log, self.at, db_bits, power_bits);
        self.at = place_after(answer, self.at);
        answer
    }
}
