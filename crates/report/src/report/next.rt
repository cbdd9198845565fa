// The next line of a report.
ghost use Rattle.std.specs.Prelude.{◌≡◌, ◌≤◌, true, take, IfSome, IfOk};
ghost use Rattle.report.specs.Left.{file_of, left, is_short, answered, written, remaining};
ghost use Rattle.report.specs.Statement.{statement};

use crate::report::Report;
use callfile::reader::Reader;
use lines::put::put_line;
use record::record::Record;
use rules::refusal::Refusal;
use std::alloc::{AllocError, Global};

// The bytes of a file that are read.
fn front(file: &[u8]) -> &[u8]
    ensures { result.now ≡ take 65536 file.now }
{
    if file.len() > 65536 {
        &file[0..65536]
    } else {
        file
    }
}

impl<'a> Report<'a> {
    // The report on the first 65,536 bytes of a file, from its first line on.
    pub fn new(heap: Global, file: &'a [u8]) -> Result<Report<'a>, AllocError>
        ensures { IfOk result (λ x. left x ≡ statement file.now) }
    {
        let ledger = Record::new(heap)?;
        Ok(Report {
            reader: Reader::new(front(file)),
            ledger,
            count: 0,
            ended: false,
        })
    }

    // Puts the next line at the front of `memory` and answers its length; absence where no line is left.
    // Memory under 32 bytes is refused first, and nothing is read then.
    pub fn line(&mut self, memory: &mut [u8]) -> Result<Option<usize>, Refusal>
        ensures file { file_of self.new ≡ file_of self.old }
        ensures answer { result ≡ answered (left self.old) memory.old }
        ensures fits { IfOk result (λ next. IfSome next (λ length. length ≤ 32)) }
        ensures memory { memory.new ≡ written (left self.old) memory.old }
        ensures kept { is_short memory.old ≡ true → self.new ≡ self.old }
        ensures left { left self.new ≡ remaining (left self.old) memory.old }
    {
        if memory.len() < 32 {
            return Err(Refusal::ShortMemory);
        }
        match self.next_line() {
            Some(line) => Ok(put_line(memory, line)),
            None => Ok(None),
        }
    }
}
