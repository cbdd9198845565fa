// Small files, read field by field.
use crate::call::Call;
use crate::reader::Reader;
use rules::name::Name;
use rules::refusal::{Fault, Stop};
use std::process::Abort;

#[test]
fn reads_to_the_end(rt: HostRuntime) {
    let file = b"\x01\0\x10MEMBER07\0\0\0\0\0\0\x01\x02\x02\0\0\x08\0\x04\0\0\x03\xe8";
    let mut reader = Reader::new(file);
    let name = Name {
        bytes: *b"MEMBER07",
    };
    let enrol = Call::Enrol {
        name,
        contribution: 258,
    };
    let multiplier = Call::Multiplier { thousandths: 1000 };
    assert_eq!(rt; reader.next(), Some(Ok(enrol)));
    assert_eq!(rt; reader.next(), Some(Ok(Call::CloseRoll)));
    assert_eq!(rt; reader.next(), Some(Ok(multiplier)));
    assert_eq!(rt; reader.next(), None);
    assert_eq!(rt; reader.place(), 29);
}

// The file stops at its second field, behind a close roll, and stays there.
fn stops(rt: &impl Abort, file: &[u8], stop: Stop) {
    let mut reader = Reader::new(file);
    let fault = Fault { stop, place: 3 };
    assert_eq!(rt; reader.next(), Some(Ok(Call::CloseRoll)));
    assert_eq!(rt; reader.next(), Some(Err(fault)));
    assert_eq!(rt; reader.next(), Some(Err(fault)));
    assert_eq!(rt; reader.place(), 3);
}

#[test]
fn stops_at_a_fault(rt: HostRuntime) {
    stops(&rt, &[2, 0, 0, 8, 0], Stop::CutShort);
    stops(&rt, &[2, 0, 0, 8, 0, 4, 0, 0, 3], Stop::CutShort);
    stops(&rt, &[2, 0, 0, 9, 0, 1, 0], Stop::UnknownTag);
    stops(&rt, &[2, 0, 0, 8, 0, 3, 0, 0, 3], Stop::WrongLength);
}
