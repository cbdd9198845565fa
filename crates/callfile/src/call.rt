// The calls that a file can hold, and which call a field makes.
ghost use Rattle.std.specs.Prelude.{◌≡◌, length};
ghost use Rattle.callfile.specs.Calls.{call_of};

use rules::name::Name;
use rules::refusal::Stop;

#[derive(Clone, Copy, PartialEq, Eq, Debug)]
pub enum Call {
    Enrol { name: Name, contribution: u64 },
    CloseRoll,
    Multiplier { thousandths: u32 },
}

impl Call {
    // The call that a value makes under a tag: each has its own tag and length of the value. No enum of tags: each tag stands
    // once, here, beside its length and its call.
    pub fn of(tag: u8, value: &[u8]) -> Result<Call, Stop>
        ensures { result ≡ call_of tag value.now }
    {
        match (tag, value.len()) {
            (1, 16) => {
                let (name, contribution) = value.split_at(8);
                Ok(Call::Enrol {
                    name: Name { bytes: array(name) },
                    contribution: u64::from_be_bytes(array(contribution)),
                })
            }
            (2, 0) => Ok(Call::CloseRoll),
            (8, 4) => Ok(Call::Multiplier {
                thousandths: u32::from_be_bytes(array(value)),
            }),
            (1 | 2 | 8, _) => Err(Stop::WrongLength),
            _ => Err(Stop::UnknownTag),
        }
    }
}

// As many bytes as an array holds, as that array.
fn array<const N: usize>(bytes: &[u8]) -> [u8; N]
    requires { length bytes.now ≡ N }
    ensures { result ≡ bytes.now }
{
    <[u8; N]>::try_from(bytes).unwrap()
}
