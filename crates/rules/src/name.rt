// A member's name.
ghost use Rattle.std.specs.Prelude.{◌≡◌};
ghost use Rattle.rules.specs.Names.{by_bytes, is_plain, is_plain_byte, spelling};
ghost use Rattle.rules.specs.NameOrder.{bytes_order};

use ranked::rank::Rank;
use std::cmp::Ordering;

// Eight bytes. On the roll each is a capital letter or a digit.
#[derive(Clone, Copy, PartialEq, Eq, Debug)]
pub struct Name {
    pub bytes: [u8; 8],
}

impl Name {
    // Whether each byte is a capital letter or a digit.
    pub fn is_plain(&self) -> bool
        ensures { result ≡ is_plain self.now.bytes }
    {
        self.bytes.iter().all(|byte| is_plain_byte(*byte))
    }
}

// The name that a number spells, highest byte first.
impl From<u64> for Name {
    ghost from_gives = { λ number name. name.bytes ≡ spelling number };

    fn from(number: u64) -> Name {
        Name {
            bytes: number.to_be_bytes(),
        }
    }
}

// The number that spells a name.
impl From<Name> for u64 {
    ghost from_gives = { λ name number. spelling number ≡ name.bytes };

    fn from(name: Name) -> u64 {
        u64::from_be_bytes(name.bytes)
    }
}

fn is_plain_byte(byte: u8) -> bool
    ensures { result ≡ is_plain_byte byte }
{
    matches!(byte, b'A'..=b'Z' | b'0'..=b'9')
}

// Byte by byte, the first that differs decides. Members rank by this, so its law is shown once, here, and no derived `Ord` says
// the same beside it.
impl Rank for Name {
    ghost ranks = { λ a b. by_bytes a.bytes b.bytes };

    ghost ordered = { record {
      turned = λ x y. bytes_order.turned x.bytes y.bytes;
      before = λ x y z. bytes_order.before x.bytes y.bytes z.bytes;
      level = λ x y z. bytes_order.level x.bytes y.bytes z.bytes;
    } };

    fn rank(&self, other: &Name) -> Ordering {
        self.bytes.cmp(&other.bytes)
    }
}
