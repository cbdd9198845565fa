// The fields of a file.
ghost use Rattle.std.specs.Prelude.{◌≡◌, length, Some, None, MatchOption};
ghost use Rattle.callfile.specs.Fields.{front, laid, tagged};

// Its value is lent from the bytes that it stands in.
#[derive(Clone, Copy)]
pub struct Field<'a> {
    pub tag: u8,
    pub value: &'a [u8],
}

impl<'a> Field<'a> {
    // The field at the front of `bytes`; none where it is cut short.
    pub fn front(bytes: &'a [u8]) -> Option<Field<'a>>
        ensures { MatchOption result (front bytes.now ≡ None) (λ f. front bytes.now ≡ Some (tagged f.tag f.value.now)) }
    {
        let [tag, high, low, rest @ ..] = bytes else {
            return None;
        };
        let length = usize::from(u16::from_be_bytes([*high, *low]));
        Some(Field {
            tag: *tag,
            value: rest.get(..length)?,
        })
    }

    // How many bytes it takes, its tag and its length among them.
    pub fn size(&self) -> usize
        ensures { result ≡ length (laid (tagged self.now.tag self.now.value.now)) }
    {
        3 + self.value.len()
    }
}
