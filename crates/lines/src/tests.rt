// The longest line of each kind.
use crate::line::Line;
use crate::put::put_line;
use calls::round_number::RoundNumber;
use rules::name::Name;
use rules::refusal::{Fault, Refusal, Stop};
use std::process::Abort;
use std::test::Fail;

// The line stands at the front of the memory, and what is behind it is kept.
fn stands(rt: &impl Abort, line: Line, text: &[u8]) -> Result<(), Fail> {
    let mut memory = [b'.'; 40];
    let end = put_line(&mut memory, line).ok_or("no room")?;
    assert!(rt; end < 40);
    assert!(rt; &memory[0..end] == text);
    assert!(rt; memory[end] == b'.');
    Ok(())
}

#[test]
fn calls(rt: HostRuntime) -> Result<(), Fail> {
    let refusal = Refusal::NoOpenRound;
    let stop = Stop::CutShort;
    stands(
        &rt,
        Line::Refused {
            count: 21_844,
            refusal,
        },
        b"REFUSED 21844 10\n",
    )?;
    stands(
        &rt,
        Line::Stopped(Fault {
            stop,
            place: 65_535,
        }),
        b"STOPPED 65535 12\n",
    )
}

#[test]
fn rounds(rt: HostRuntime) -> Result<(), Fail> {
    let round = RoundNumber::Second;
    let name = Name {
        bytes: *b"ASHGROVE",
    };
    let low = -10_000_000_000;
    stands(
        &rt,
        Line::Round {
            package: 7,
            round,
            price: low,
        },
        b"ROUND 7 2 -10000000000\n",
    )?;
    stands(
        &rt,
        Line::Member {
            name,
            parts: 1_000_000,
            transfer: low,
        },
        b"ASHGROVE 1000000 -10000000000\n",
    )
}

#[test]
fn settlement(rt: HostRuntime) -> Result<(), Fail> {
    stands(
        &rt,
        Line::Charge {
            account: 60,
            charge: 10_000_000_000,
        },
        b"CHARGE 60 10000000000\n",
    )?;
    stands(
        &rt,
        Line::Unborne(170_000_000_000),
        b"UNBORNE 170000000000\n",
    )?;
    stands(&rt, Line::Surplus(0), b"SURPLUS 0\n")
}

#[test]
fn rooms(rt: HostRuntime) {
    let mut memory = [b'.'; 9];
    assert_eq!(rt; put_line(&mut memory, Line::Unborne(0)), None);
    assert_eq!(rt; put_line(&mut memory[0..0], Line::Surplus(0)), None);
    let mut memory = [b'.'; 10];
    assert_eq!(rt; put_line(&mut memory, Line::Surplus(0)), Some(10));
}
