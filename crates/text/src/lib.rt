// Words and numbers, written as bytes into lent memory.
// Each function writes at a place of the memory and answers where the text ends.
// Where there is no room it answers None, and the memory stays as it was. `write!` does not promise this: of what failed it
// says nothing. A struct of the memory and the place would hold a `&mut`, and its clauses would be longer than these.
#![tactic(auto)]

ghost use Rattle.std.specs.Prelude.{◌≡◌, ◌+◌, ◌<◌, ◌≤◌, [], ◌∷◌, length, MatchOption};
ghost use Rattle.text.specs.Writing.{Put};

use itoa::{Buffer, Integer};

// Writes one byte.
pub fn put_byte(out: &mut [u8], at: usize, byte: u8) -> Option<usize>
    ensures { Put out.old at (byte ∷ []) out.new result }
{
    put_text(out, at, &[byte])
}

// Writes a text, as `b"ROUND "`.
pub fn put_text(out: &mut [u8], at: usize, text: &[u8]) -> Option<usize>
    ensures { Put out.old at text.now out.new result }
{
    let end = end_within(at, text.len(), out.len())?;
    out[at..end].copy_from_slice(text);
    Some(end)
}

// Writes a number by its decimal digits. One below 0 has a minus before them.
pub fn put_number<I: Integer>(out: &mut [u8], at: usize, number: I) -> Option<usize>
    ensures { Put out.old at (I.text number) out.new result }
{
    put_text(out, at, Buffer::new().format(number).as_bytes())
}

// Where `count` bytes from `at` end, if that is within `size`.
fn end_within(at: usize, count: usize, size: usize) -> Option<usize>
    ensures { MatchOption result (size < at + count) (λ end. (end ≡ at + count) × (end ≤ size)) }
{
    let end = at.checked_add(count)?;
    if end <= size { Some(end) } else { None }
}

#[cfg(test)]
mod tests {
    use super::*;
    use std::test::Fail;

    // A number, and its bytes.
    const NUMBERS: [(i64, &[u8]); 6] = [
        (0, b"0"),
        (7, b"7"),
        (-10, b"-10"),
        (166_667, b"166667"),
        (i64::MAX, b"9223372036854775807"),
        (i64::MIN, b"-9223372036854775808"),
    ];

    #[test]
    fn numbers(rt: HostRuntime) -> Result<(), Fail> {
        for (number, text) in NUMBERS {
            let mut out = [b'.'; 24];
            let end = put_number(&mut out, 1, number).ok_or("no room")?;
            assert!(rt; end <= 24);
            assert!(rt; 1 <= end);
            assert!(rt; &out[1..end] == text);
            assert!(rt; out[0] == b'.' && out[23] == b'.');
        }
        Ok(())
    }

    #[test]
    fn rooms(rt: HostRuntime) {
        let mut out = [b'.'; 6];
        assert_eq!(rt; put_text(&mut out, 1, b"BID "), Some(5));
        assert_eq!(rt; put_number(&mut out, 5, 10u64), None);
        assert_eq!(rt; put_number(&mut out, 5, 9u64), Some(6));
        assert_eq!(rt; put_byte(&mut out, 6, b'!'), None);
        assert_eq!(rt; put_number(&mut out, 5, -1i64), None);
        assert_eq!(rt; put_text(&mut out, usize::MAX, b"BID"), None);
        assert_eq!(rt; out, *b".BID 9");
    }
}
