// A reader of the calls of a file.
ghost use Rattle.std.specs.Prelude.{◌≡◌};
ghost use Rattle.callfile.specs.Places.{Read, first_call};

use crate::call::Call;
use crate::field::Field;
use rules::refusal::{Fault, Stop};

// The call of the field at the front of `bytes`, with how many bytes the field takes.
fn first_call(bytes: &[u8]) -> Result<(Call, usize), Stop>
    ensures { result ≡ first_call bytes.now }
{
    let field = Field::front(bytes).ok_or(Stop::CutShort)?;
    let call = Call::of(field.tag, field.value)?;
    Ok((call, field.size()))
}

// Its file is lent, and is read in place.
#[derive(Drop)]
pub struct Reader<'a> {
    file: &'a [u8],
    place: usize,
}

impl<'a> Reader<'a> {
    // A reader at the first field.
    pub fn new(file: &'a [u8]) -> Reader<'a>
        ensures file { result.file.now ≡ file.now }
        ensures place { result.place ≡ 0 }
    {
        Reader { file, place: 0 }
    }

    // Where the next field stands.
    pub fn place(&self) -> usize
        ensures { result ≡ self.now.place }
    {
        self.place
    }
}

impl Iterator for Reader<'_> {
    type Item = Result<Call, Fault>;

    // Behind a fault the same fault comes again.
    ghost next_gives = { Read };

    // The call at the reader's place; none at the end of the file. At a fault the reader stays where it is.
    fn next(&mut self) -> Option<Result<Call, Fault>> {
        let place = self.place;
        if place >= self.file.len() {
            return None;
        }
        match first_call(&self.file[place..]) {
            Ok((call, size)) => {
                self.place = place + size;
                Some(Ok(call))
            }
            Err(stop) => Some(Err(Fault { stop, place })),
        }
    }
}
