// What a line tells of.
use calls::round_number::RoundNumber;
use rules::name::Name;
use rules::refusal::{Fault, Refusal};

// A refused call by its count, or where the reading stopped; a struck round, and a member in it by its name; what a settlement charged an account, what nobody bore, and what was over.
#[derive(Clone, Copy, PartialEq, Eq, Debug)]
pub enum Line {
    Refused {
        count: u64,
        refusal: Refusal,
    },
    Stopped(Fault),
    Round {
        package: u8,
        round: RoundNumber,
        price: i64,
    },
    Member {
        name: Name,
        parts: u64,
        transfer: i64,
    },
    Charge {
        account: u8,
        charge: u64,
    },
    Unborne(u64),
    Surplus(u64),
}
