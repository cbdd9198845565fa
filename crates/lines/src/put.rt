// The bytes of a line, put at the front of lent memory.
// Each function answers where its text ends. Where there is no room it answers None, and a part may stand there. No Display:
// a `write!` may fail where there is room, and a line that has room has to be told. Memory and place stand side by side: a
// struct of them would hold a `&mut`, and its clauses would be longer.
ghost use Rattle.std.specs.Prelude.{codes, decimal};
ghost use Rattle.lines.specs.Lines.{pair_line, sole_line, round_line, member_line, round_digit, spaced};
ghost use Rattle.lines.specs.Told.{bytes_of};
ghost use Rattle.text.specs.Writing.{Tried, Put};

use crate::line::Line;
use calls::round_number::RoundNumber;
use itoa::Integer;
use text::{put_byte, put_text};

// Puts a line at the front of `memory`, and answers its length.
pub fn put_line(memory: &mut [u8], line: Line) -> Option<usize>
    ensures { Tried memory.old 0 (bytes_of line) memory.new result }
{
    match line {
        Line::Refused { count, refusal } => put_pair(
            memory,
            b"REFUSED",
            count,
            u64::from(refusal.number()),
        ),
        Line::Stopped(fault) => put_pair(
            memory,
            b"STOPPED",
            fault.place as u64,
            u64::from(fault.number()),
        ),
        Line::Round {
            package,
            round,
            price,
        } => put_round(memory, package, round, price),
        Line::Member {
            name,
            parts,
            transfer,
        } => put_member(memory, &name.bytes, parts, transfer),
        Line::Charge { account, charge } => put_pair(memory, b"CHARGE", u64::from(account), charge),
        Line::Unborne(amount) => put_sole(memory, b"UNBORNE", amount),
        Line::Surplus(amount) => put_sole(memory, b"SURPLUS", amount),
    }
}

// A word and a number.
fn put_sole(memory: &mut [u8], word: &[u8], amount: u64) -> Option<usize>
    ensures { Tried memory.old 0 (sole_line word.now amount) memory.new result }
{
    let at = put_text(memory, 0, word)?;
    let at = put_number(memory, at, amount)?;
    put_end(memory, at)
}

// A word and two numbers.
fn put_pair(memory: &mut [u8], word: &[u8], first: u64, second: u64) -> Option<usize>
    ensures { Tried memory.old 0 (pair_line word.now first second) memory.new result }
{
    let at = put_text(memory, 0, word)?;
    let at = put_number(memory, at, first)?;
    let at = put_number(memory, at, second)?;
    put_end(memory, at)
}

// A round of a package, and its price.
fn put_round(memory: &mut [u8], number: u8, round: RoundNumber, price: i64) -> Option<usize>
    ensures { Tried memory.old 0 (round_line number round price) memory.new result }
{
    let at = put_text(memory, 0, b"ROUND")?;
    let at = put_number(memory, at, number)?;
    let at = put_turn(memory, at, round)?;
    let at = put_number(memory, at, price)?;
    put_end(memory, at)
}

// A member's name, its parts and its transfer.
fn put_member(memory: &mut [u8], name: &[u8], parts: u64, transfer: i64) -> Option<usize>
    ensures { Tried memory.old 0 (member_line name.now parts transfer) memory.new result }
{
    let at = put_text(memory, 0, name)?;
    let at = put_number(memory, at, parts)?;
    let at = put_number(memory, at, transfer)?;
    put_end(memory, at)
}

// A space and a number.
fn put_number<I: Integer>(memory: &mut [u8], at: usize, number: I) -> Option<usize>
    ensures { Tried memory.old at (spaced (I.text number)) memory.new result }
{
    let at = put_byte(memory, at, b' ')?;
    text::put_number(memory, at, number)
}

// A space, and a round by its number from 1. No `From`: only here is a round a number.
fn put_turn(memory: &mut [u8], at: usize, round: RoundNumber) -> Option<usize>
    ensures { Tried memory.old at (spaced (decimal (round_digit round))) memory.new result }
{
    match round {
        RoundNumber::First => put_number(memory, at, 1u8),
        RoundNumber::Second => put_number(memory, at, 2u8),
    }
}

// The end of a line.
fn put_end(memory: &mut [u8], at: usize) -> Option<usize>
    ensures { Put memory.old at (codes "\n") memory.new result }
{
    put_byte(memory, at, b'\n')
}
