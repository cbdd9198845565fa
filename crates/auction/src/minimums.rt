// What each member has to bid for in a first round.
ghost use Rattle.std.specs.Prelude.{◌≡◌, ℕ, ◌*◌, ◌<◌, ◌≤◌, min, true, false, not, length, MatchOption};
ghost use Rattle.shares.specs.Sums.{total};
ghost use Rattle.rules.specs.Amounts.{when};
ghost use Rattle.rules.specs.Minimums.{all_excused, ceil, counted, is_excused};
ghost use Rattle.auction.specs.Asked.{Askable, Asked, Contributing};

use crate::rows::if_so;
use crate::whole::ALL_PARTS;
use rules::member::Member;
use shares::rows::row_of;

// The minimums by the members' numbers. None where there are more than 60 members, a contribution is outside 1 to
// 25,000,000, the multiplier is outside 1,000 to 4,000 thousandths, or nobody is left unexcused.
pub fn minimums(members: &[Member], multiplier: u32, excused: u64) -> Option<[u64; 64]>
    ensures { MatchOption result (Askable members.now multiplier excused → ⊥) (λ row. Askable members.now multiplier excused × Asked members.now multiplier excused row) }
{
    if members.len() > 60
        || !(1_000..=4_000).contains(&multiplier)
        || !are_contributing(members)
        || are_all_excused(excused, members.len())
    {
        return None;
    }
    Some(ask(members, u64::from(multiplier), excused))
}

// Whether each contribution is within its limits.
fn are_contributing(members: &[Member]) -> bool
    ensures yes { result ≡ true → Contributing members.now }
    ensures not { result ≡ false → Contributing members.now → ⊥ }
{
    members
        .iter()
        .all(|member| (1..=25_000_000).contains(&member.contribution))
}

// Whether each of the first members is excused.
fn are_all_excused(excused: u64, count: usize) -> bool
    requires { count ≤ 64 }
    ensures { result ≡ all_excused excused count }
{
    // Not `all` over the range: what it answers of each number was not proved.
    for a in 0..count {
        if !is_excused(excused, a) {
            return false;
        }
    }
    true
}

// Whether member a is excused: its bit is set.
fn is_excused(excused: u64, a: usize) -> bool
    requires { a < 64 }
    ensures { result ≡ is_excused excused a }
{
    (excused >> a) % 2 == 1
}

// The minimums, where the limits are kept.
fn ask(members: &[Member], multiplier: u64, excused: u64) -> [u64; 64]
    requires { Askable members.now multiplier excused }
    ensures { Asked members.now multiplier excused result }
{
    let base = sum_counted(members, excused);
    row_of(members.len(), |a| {
        minimum_of(counted_of(&members[a], a, excused), multiplier, base)
    })
}

// The minimum of a member by what counts of its contribution, on a base: rounded up, and at most the whole.
fn minimum_of(counts: u64, multiplier: u64, base: u64) -> u64
    requires low { counts ≤ 25000000 }
    requires most { multiplier ≤ 4000 }
    requires some { 0 < base }
    requires small { base ≤ 1500000000 }
    ensures { result ≡ min 1000000 (ceil (counts * multiplier * 1000) base) }
{
    (counts * multiplier * 1_000).div_ceil(base).min(ALL_PARTS)
}

// What counts of the contributions of all members together.
fn sum_counted(members: &[Member], excused: u64) -> u64
    requires few { length members.now ≤ 60 }
    requires contributing { Contributing members.now }
    ensures is { result ≡ total (length members.now) (counted members.now excused) }
    ensures small { result ≤ 1500000000 }
{
    let mut sum = 0;
    for (a, member) in members.iter().enumerate() {
        sum += counted_of(member, a, excused);
    }
    sum
}

// What counts of the contribution of member a: nothing if it is excused.
fn counted_of(member: &Member, a: usize, excused: u64) -> u64
    requires { a < 64 }
    ensures is { result ≡ when (not (is_excused excused a)) member.now.contribution }
    ensures small { result ≤ member.now.contribution }
{
    if_so(!is_excused(excused, a), member.contribution)
}
