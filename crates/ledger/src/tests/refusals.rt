// The refusals of each call.
use super::{FAR, Fixture, SIZES, opened_over};
use faults::Fault;
use memory::fault::MemoryFault;
use std::process::Abort;

#[test]
fn a_ledger_opens_once(rt: HostRuntime) {
    let mut fixture = Fixture::new(&rt, 32);
    let refused = Err(Fault::Opening { row: 64 });
    assert_eq!(rt; fixture.open(7, 5, 4), refused);
    assert_eq!(rt; fixture.open(7, 0, 16_777_217), refused);
    assert_eq!(rt; fixture.open(7, 16_777_216, 16_777_216), Ok(()));
    assert_eq!(rt; fixture.open(7, 0, 0), refused);
}

// Every call on this row that takes the memory is refused with this fault.
fn check_memory_calls<A: Abort>(fixture: &mut Fixture<'_, A>, row: u8, fault: Fault) {
    let rt = fixture.rt;
    assert_eq!(rt; fixture.read_front(row, 0, [99; 4], 0), Err(fault));
    assert_eq!(rt; fixture.read_front(row, 0, [99; 4], 1), Err(fault));
    assert_eq!(rt; fixture.read(row, 0, [9, 9]), Err(fault));
    for additional in [0, 1] {
        assert_eq!(rt; fixture.reserve(row, additional), Err(fault));
        assert_eq!(rt; fixture.try_reclaim(row, additional), Err(fault));
    }
    assert_eq!(rt; fixture.extend(row, &[]), Err(fault));
    assert_eq!(rt; fixture.extend(row, &[1, 2]), Err(fault));
}

// Every call on this row is refused with this fault; so is joining, with it as the first of two.
fn check_calls<A: Abort>(fixture: &mut Fixture<'_, A>, row: u8, fault: Fault) {
    let rt = fixture.rt;
    assert_eq!(rt; fixture.len(row), Err(fault));
    assert_eq!(rt; fixture.capacity(row), Err(fault));
    assert_eq!(rt; fixture.split_off(row, 0), Err(fault));
    assert_eq!(rt; fixture.split_to(row, 0), Err(fault));
    assert_eq!(rt; fixture.split(row), Err(fault));
    assert_eq!(rt; fixture.truncate(row, 0), Err(fault));
    assert_eq!(rt; fixture.advance(row, 0), Err(fault));
    assert_eq!(rt; fixture.try_unsplit(row, row), Err(fault));
    assert_eq!(rt; fixture.unsplit(row, row), Err(fault));
    assert_eq!(rt; fixture.release(row), Err(fault));
    check_memory_calls(fixture, row, fault);
}

#[test]
fn a_shut_ledger_refuses(rt: HostRuntime) {
    for size in SIZES {
        let mut fixture = Fixture::new(&rt, size);
        fixture.number = 0;
        let refused = Fault::Shut { row: 64 };
        assert_eq!(rt; fixture.tally(), Err(refused));
        assert_eq!(rt; fixture.with_capacity(0), Err(refused));
        assert_eq!(rt; fixture.from(&[1]), Err(refused));
        check_calls(&mut fixture, 5, Fault::Shut { row: 5 });
    }
}

// Unknown are a free row and a row past the last.
#[test]
fn unknown_rows_are_refused(rt: HostRuntime) {
    for size in SIZES {
        let mut fixture = opened_over(&rt, 4, 32, size);
        for row in [63, 64, 255] {
            check_calls(&mut fixture, row, Fault::UnknownToken { row });
        }
        assert_eq!(rt; fixture.with_capacity(8), Ok(63));
        for row in [62, 64, 255] {
            check_calls(&mut fixture, row, Fault::UnknownToken { row });
        }
    }
}

#[test]
fn a_token_of_another_ledger_is_refused(rt: HostRuntime) {
    for size in SIZES {
        let mut fixture = opened_over(&rt, 4, 32, size);
        assert_eq!(rt; fixture.with_capacity(8), Ok(63));
        fixture.number = 8;
        let refused = Fault::UnknownToken { row: 63 };
        assert_eq!(rt; fixture.extend(63, &[1]), Err(refused));
        check_calls(&mut fixture, 63, refused);
    }
}

#[test]
fn a_memory_that_ends_too_soon_is_refused(rt: HostRuntime) {
    let mut fixture = Fixture::new(&rt, 31);
    assert_eq!(rt; fixture.open(7, 4, 32), Ok(()));
    assert_eq!(rt; fixture.with_capacity(8), Ok(63));
    let fault = MemoryFault {
        position: 31,
        size: 31,
        layers: 0,
    };
    assert_eq!(rt; fixture.from(&[]), Err(Fault::Memory { row: 64, fault }));
    assert_eq!(rt; fixture.from(&[1]), Err(Fault::Memory { row: 64, fault }));
    check_memory_calls(&mut fixture, 63, Fault::Memory { row: 63, fault });
    assert_eq!(rt; fixture.advance(63, 0), Ok(()));
}

#[test]
fn arguments_past_the_length_are_refused(rt: HostRuntime) {
    for size in SIZES {
        let mut fixture = opened_over(&rt, 4, 32, size);
        assert_eq!(rt; fixture.from(&[21, 22, 23]), Ok(63));
        let refused = Fault::OutOfRange { row: 63 };
        assert_eq!(rt; fixture.advance(63, 4), Err(refused));
        assert_eq!(rt; fixture.advance(63, FAR), Err(refused));
        assert_eq!(rt; fixture.read(63, 2, [9, 9]), Err(refused));
        assert_eq!(rt; fixture.read(63, FAR, [9, 9]), Err(refused));
        assert_eq!(rt; fixture.read_front(63, 2, [99; 4], 2), Err(refused));
        assert_eq!(rt; fixture.read_front(63, FAR, [99; 4], 1), Err(refused));
        assert_eq!(rt; fixture.read_front(63, 4, [99; 4], 0), Err(refused));
        assert_eq!(rt; fixture.read_front(63, 3, [99; 4], 0), Ok([99, 99, 99, 99]));
        assert_eq!(rt; fixture.read(63, 1, [9, 9]), Ok([22, 23]));
        assert_eq!(rt; fixture.read_front(63, 1, [99; 4], 2), Ok([22, 23, 99, 99]));
        assert_eq!(rt; fixture.truncate(63, FAR), Ok(()));
    }
}
