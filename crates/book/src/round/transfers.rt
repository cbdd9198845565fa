// What the transfers of a round come to.
ghost use Rattle.std.specs.Prelude.{◌≡◌, ◌≤◌, unsigned_abs};
ghost use Rattle.auction.specs.Rows.{at_z};
ghost use Rattle.book.specs.Brought.{brought_so_far};
ghost use Rattle.book.specs.HeldRounds.{round_held};
ghost use Rattle.rules.specs.Amounts.{total_z};

use crate::round::BookRound;

impl BookRound {
    // All transfers together; nothing while it is open.
    pub(crate) fn brought(&self) -> i128
        ensures is { result ≡ brought_so_far (round_held self.now) }
        ensures small { unsigned_abs result ≤ 590295810358705651712 }
    {
        match &self.division {
            None => 0,
            Some(division) => sum_of(&division.transfers),
        }
    }
}

// The sum of a row.
fn sum_of(row: &[i64; 64]) -> i128
    ensures is { result ≡ total_z 64 (at_z row.now) }
    ensures small { unsigned_abs result ≤ 590295810358705651712 }
{
    let mut sum: i128 = 0;
    for &number in row {
        sum += i128::from(number);
    }
    sum
}
