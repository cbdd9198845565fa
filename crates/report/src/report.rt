// A report runs the calls of a file on a new record and tells what became of them.
ghost use Rattle.std.specs.Prelude.{◌≤◌, length};

use callfile::reader::Reader;
use record::record::Record;

pub mod next;
mod run;

// `count` calls were read: no more than bytes. Of a file only the first 65,536 bytes are read. The reader stays once the
// reading has ended, and no `Option` holds it: what is promised of a report speaks of its file.
#[derive(Drop)]
pub struct Report<'a> {
    reader: Reader<'a>,
    ledger: Record,
    count: u64,
    ended: bool,
    ghost few: { count ≤ reader.place },
    ghost short: { length reader.file.now ≤ 65536 },
}
