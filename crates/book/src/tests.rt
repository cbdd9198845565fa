// The worked default and the worked residual, as a package answers them.
use crate::errors::{AlreadyStruck, CutError};
use crate::packages::Package;
use calls::round_number::RoundNumber;
use rules::bid::Bid;
use rules::member::Member;
use rules::name::Name;
use std::alloc::Global;
use std::process::Abort;
use std::test::Fail;

fn member(bytes: [u8; 8], contribution: u64) -> Member {
    Member {
        name: Name { bytes },
        contribution,
    }
}

// A package of the worked roll, opened with the margin 1,000 and the reference price -5,000.
fn opened(heap: Global) -> Result<Package, Fail> {
    let members = [
        member(*b"ASHGROVE", 600),
        member(*b"BIRCHEND", 300),
        member(*b"COLDWELL", 100),
    ];
    let mut package = Package::new(heap)?;
    package.open(&members, 1_250, 1_000, -5_000, 0)?;
    Ok(package)
}

fn bids(package: &mut Package, bids: &[(u8, u32, i64)]) -> Result<(), Fail> {
    for &(member, size, price) in bids {
        package.bid(Bid {
            member,
            size,
            price,
        })?;
    }
    Ok(())
}

// What a member gets and pays in a round, and its fraction there.
fn has(
    rt: &impl Abort,
    package: &Package,
    n: RoundNumber,
    member: usize,
    want: (u64, i64, u64),
) -> Result<(), Fail> {
    let it = package.member_result(n, member).ok_or("no result")?;
    assert_eq!(rt; it.parts, want.0);
    assert_eq!(rt; it.transfer, want.1);
    assert_eq!(rt; it.fraction, want.2);
    Ok(())
}

#[test]
fn worked_default(rt: HostRuntime) -> Result<(), Fail> {
    let mut package = opened(rt.alloc())?;
    bids(&mut package, &[(1, 375_000, -4_500), (0, 750_000, -4_000)])?;
    package.strike()?;
    assert_eq!(rt; package.strike(), Err(AlreadyStruck));
    let prices = package.prices(RoundNumber::First).ok_or("no prices")?;
    assert_eq!(rt; prices.mark, -4_500);
    assert_eq!(rt; prices.price, -4_500);
    has(&rt, &package, RoundNumber::First, 0, (750_000, -3_375, 0))?;
    has(&rt, &package, RoundNumber::First, 1, (125_000, -562, 0))?;
    has(
        &rt,
        &package,
        RoundNumber::First,
        2,
        (125_000, -563, 1_000_000),
    )?;
    assert_eq!(rt; package.brought(), -4_500);
    Ok(())
}

#[test]
fn worked_residual(rt: HostRuntime) -> Result<(), Fail> {
    let mut package = opened(rt.alloc())?;
    bids(
        &mut package,
        &[
            (0, 750_000, -4_000),
            (1, 375_000, -4_500),
            (2, 300_000, -3_000),
        ],
    )?;
    assert_eq!(rt; package.cut(400_000), Err(CutError::NotStruck));
    package.strike()?;
    package.cut(400_000)?;
    assert_eq!(rt; package.cut(400_000), Err(CutError::CutAlready));
    for (member, minimum) in [833_333, 416_667, 0].into_iter().enumerate() {
        assert_eq!(rt; package.minimum(RoundNumber::Second, member), Some(minimum));
    }
    package.strike()?;
    let prices = package.prices(RoundNumber::Second).ok_or("no prices")?;
    assert_eq!(rt; prices.price, -2_000);
    for (member, fraction) in [400_000, 400_000, 0].into_iter().enumerate() {
        assert_eq!(rt; package.fraction(member), Some(fraction));
    }
    Ok(())
}
