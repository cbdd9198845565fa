// Strikes the rounds of the worked figures and prints what comes of them.
#![tactic(auto)]

mod stop;

use auction::cuts::{cut_margin, cut_reference};
use auction::fractions::{PackageFractions, Weighed};
use auction::marks::mark;
use auction::minimums::minimums;
use auction::round::Round;
use auction::shortness::{split, total_fraction};
use rules::bid::Bid;
use rules::member::Member;
use rules::name::Name;
use std::{array, io, str};
use stop::{Missing, Stop};

const MEMBERS: [Member; 3] = [
    Member {
        name: Name {
            bytes: *b"ASHGROVE",
        },
        contribution: 600,
    },
    Member {
        name: Name {
            bytes: *b"BIRCHEND",
        },
        contribution: 300,
    },
    Member {
        name: Name {
            bytes: *b"COLDWELL",
        },
        contribution: 100,
    },
];

const MARGIN: u64 = 1_000;

const REFERENCE: i64 = -5_000;

const RESIDUAL: u64 = 400_000;

fn bid(member: u8, size: u32, price: i64) -> Bid {
    Bid {
        member,
        size,
        price,
    }
}

// A member's name as text.
fn text(member: &Member) -> Result<&str, Missing> {
    str::from_utf8(&member.name.bytes).map_err(|_| Missing::Name)
}

fn print_minimums(rt: &HostRuntime, minimums: &[u64; 64]) -> Result<(), Stop> {
    for (member, minimum) in MEMBERS.iter().zip(minimums) {
        let name = text(member)?;
        println!(rt; "{name} minimum {minimum}")?;
    }
    Ok(())
}

// Divides an offer, and prints the mark, the givings, the price, and what each member lacks, gets and pays.
fn print_division(rt: &HostRuntime, round: &Round, offer: u64) -> Result<(), Stop> {
    let division = round.divide(offer).ok_or(Missing::Division)?;
    println!(rt; "mark {}", mark(round.bids, round.reference))?;
    for given in division.givings.iter().take(round.bids.len()) {
        println!(rt; "given {given}")?;
    }
    println!(rt; "price {}", division.price)?;
    // One number reads four rows: a zip of all five is no plainer.
    for (a, member) in MEMBERS.iter().enumerate() {
        let name = text(member)?;
        let short = division.shortfalls[a];
        let covered = division.shortfall_parts[a];
        let parts = division.allotments[a];
        let pays = division.transfers[a];
        println!(rt; "{name} short {short} covered {covered} parts {parts} pays {pays}")?;
    }
    Ok(())
}

// Prints each member's total fraction, with one package, and the parts of its contribution.
fn print_parts(rt: &HostRuntime, fractions: &[PackageFractions; 3]) -> Result<(), Stop> {
    for (member, fractions) in MEMBERS.iter().zip(fractions) {
        let name = text(member)?;
        let fraction = fractions.fraction().ok_or(Missing::Fraction)?;
        let packages = [Weighed {
            margin: MARGIN,
            fraction,
        }];
        let total = total_fraction(&packages).ok_or(Missing::Total)?;
        let parts = split(member.contribution, total).ok_or(Missing::Parts)?;
        let junior = parts.junior;
        let senior = parts.senior;
        println!(rt; "{name} package {fraction} total {total} junior {junior} senior {senior}")?;
    }
    Ok(())
}

// A round with these bids in the first round of the worked package.
fn first_round<'a>(bids: &'a [Bid], minimums: &[u64; 64]) -> Round<'a> {
    Round {
        bids,
        minimums: *minimums,
        members: MEMBERS.len(),
        reference: REFERENCE,
        margin: MARGIN,
    }
}

// The worked default with a third bid, a residual, and the second round without bids.
fn print_residual(rt: &HostRuntime, first: &Round) -> Result<(), Stop> {
    print_division(rt, first, 1_000_000)?;
    println!(rt; "-- divided anew")?;
    print_division(rt, first, 1_000_000 - RESIDUAL)?;
    let minimums = first
        .second_minimums(RESIDUAL)
        .ok_or(Missing::SecondMinimums)?;
    let margin = cut_margin(MARGIN, RESIDUAL).ok_or(Missing::Margin)?;
    let reference = cut_reference(REFERENCE, RESIDUAL).ok_or(Missing::Reference)?;
    println!(rt; "-- second round: margin {margin}, reference {reference}")?;
    print_minimums(rt, &minimums)?;
    let second = Round {
        bids: &[],
        minimums,
        members: MEMBERS.len(),
        reference,
        margin,
    };
    print_division(rt, &second, 1_000_000)?;
    let f = first.fractions().ok_or(Missing::Fractions)?;
    let s = second.fractions().ok_or(Missing::Fractions)?;
    let both = array::from_fn(|a| PackageFractions::WithResidual {
        first: f[a],
        residual: RESIDUAL,
        second: s[a],
    });
    print_parts(rt, &both)
}

// The worked default, and the fractions after it.
fn print_default(rt: &HostRuntime, least: &[u64; 64]) -> Result<(), Stop> {
    let bids = [bid(0, 750_000, -4_000), bid(1, 375_000, -4_500)];
    let worked = first_round(&bids, least);
    print_division(rt, &worked, 1_000_000)?;
    let f = worked.fractions().ok_or(Missing::Fractions)?;
    print_parts(rt, &array::from_fn(|a| PackageFractions::FirstOnly(f[a])))
}

// All rounds of the worked figures.
fn print_all(rt: &HostRuntime) -> Result<(), Stop> {
    let least = minimums(&MEMBERS, 1_250, 0).ok_or(Missing::Minimums)?;
    print_minimums(rt, &least)?;
    println!(rt; "-- the worked default")?;
    print_default(rt, &least)?;
    println!(rt; "-- one bid at the margin")?;
    let at = [bid(0, 750_000, -6_000)];
    print_division(rt, &first_round(&at, &least), 1_000_000)?;
    println!(rt; "-- one bid past the margin")?;
    let past = [bid(0, 750_000, -6_001)];
    print_division(rt, &first_round(&past, &least), 1_000_000)?;
    println!(rt; "-- before a residual")?;
    let bids = [
        bid(2, 300_000, -3_000),
        bid(0, 750_000, -4_000),
        bid(1, 375_000, -4_500),
    ];
    print_residual(rt, &first_round(&bids, &least))
}

fn main(rt: HostRuntime) -> io::Result<()> {
    match print_all(&rt) {
        Ok(()) => Ok(()),
        Err(Stop::Missing(what)) => println!(rt; "no {what}"),
        Err(Stop::Print(error)) => Err(error),
    }
}
