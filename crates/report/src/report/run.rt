// How calls are read and run.
ghost use Rattle.std.specs.Prelude.{◌≡◌, ◌<◌, false, [], ◌++◌, IfNone, IfSome};
ghost use Rattle.record.specs.Look.{state};
ghost use Rattle.lines.specs.Told.{Modest};
ghost use Rattle.report.specs.Left.{file_of, left, told_of, ahead};
ghost use Rattle.report.specs.Statement.{called};
ghost use Rattle.rules.specs.Calls.{Did};

use crate::report::Report;
use callfile::call::Call;
use lines::line::Line;
use record::record::Record;
use rules::refusal::Refusal;

// Makes a call of a file on a record.
fn make(ledger: &mut Record, call: Call) -> Result<(), Refusal>
    ensures { Did (state ledger.old) (called call) tt (state ledger.new) result }
{
    match call {
        Call::Enrol { name, contribution } => ledger.enrol(name, contribution),
        Call::CloseRoll => ledger.close_roll(),
        Call::Multiplier { thousandths } => ledger.set_multiplier(thousandths),
    }
}

impl Report<'_> {
    // Reads and runs one call more, and says what there is to tell of it.
    fn advance(&mut self) -> Option<Line>
        requires { self.old.ended ≡ false }
        ensures file { file_of self.new ≡ file_of self.old }
        ensures lines { left self.old ≡ told_of result ++ left self.new }
        ensures modest { IfSome result Modest }
        ensures nearer { ahead self.new < ahead self.old }
    {
        let Some(read) = self.reader.next() else {
            self.ended = true;
            return None;
        };
        match read {
            Err(fault) => {
                self.ended = true;
                Some(Line::Stopped(fault))
            }
            Ok(call) => {
                let count = self.count;
                self.count = count + 1;
                match make(&mut self.ledger, call) {
                    Ok(()) => None,
                    Err(refusal) => Some(Line::Refused { count, refusal }),
                }
            }
        }
    }

    // Reads on until there is something to tell.
    pub(crate) fn next_line(&mut self) -> Option<Line>
        ensures file { file_of self.new ≡ file_of self.old }
        ensures lines { left self.old ≡ told_of result ++ left self.new }
        ensures modest { IfSome result Modest }
        ensures all_told { IfNone result (left self.new ≡ []) }
    {
        while !self.ended {
            let line = self.advance();
            if line.is_some() {
                return line;
            }
        }
        None
    }
}
