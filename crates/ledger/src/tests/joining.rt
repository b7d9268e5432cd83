// Two handles that are joined, in place or by their bytes.
use super::{Fixture, count_up, holding, opened};
use faults::Fault;
use memory::fault::MemoryFault;
use table::tally::Tally;

#[test]
fn an_empty_first_takes_over_the_other(rt: HostRuntime) {
    let mut fixture = holding(&rt, &count_up::<10>(1));
    assert_eq!(rt; fixture.with_capacity(32), Ok(62));
    assert_eq!(rt; fixture.unsplit(62, 63), Ok(0));
    assert_eq!(rt; fixture.len(62), Ok(10));
    assert_eq!(rt; fixture.capacity(62), Ok(64));
    assert_eq!(rt; fixture.len(63), Err(Fault::UnknownToken { row: 63 }));
    let left = Tally {
        handles: 1,
        blocks: 1,
        bytes: 64,
    };
    assert_eq!(rt; fixture.tally(), Ok(left));
}

#[test]
fn an_other_that_holds_nothing_is_only_ended(rt: HostRuntime) {
    let mut fixture = opened(&rt, 16, 4096);
    assert_eq!(rt; fixture.with_capacity(64), Ok(63));
    assert_eq!(rt; fixture.with_capacity(0), Ok(62));
    assert_eq!(rt; fixture.try_unsplit(63, 62), Ok(true));
    assert_eq!(rt; fixture.capacity(63), Ok(64));
}

#[test]
fn handles_apart_are_joined_by_their_bytes(rt: HostRuntime) {
    let mut fixture = holding(&rt, &count_up::<10>(1));
    assert_eq!(rt; fixture.from(&[71, 72]), Ok(62));
    assert_eq!(rt; fixture.try_unsplit(63, 62), Ok(false));
    assert_eq!(rt; fixture.unsplit(63, 62), Ok(0));
    assert_eq!(rt; fixture.len(63), Ok(12));
    assert_eq!(rt; fixture.read(63, 8, [99; 4]), Ok([9, 10, 71, 72]));
}

// The first token's fault comes before the other's, and both before that of one row and that of the memory.
#[test]
fn joining_is_refused(rt: HostRuntime) {
    let mut fixture = Fixture::new(&rt, 4095);
    assert_eq!(rt; fixture.open(7, 16, 4096), Ok(()));
    assert_eq!(rt; fixture.with_capacity(64), Ok(63));
    assert_eq!(rt; fixture.with_capacity(8), Ok(62));
    let unknown = Fault::UnknownToken { row: 5 };
    let other = Fault::UnknownToken { row: 6 };
    let same = Fault::SameRow { row: 63 };
    assert_eq!(rt; fixture.try_unsplit(5, 6), Err(unknown));
    assert_eq!(rt; fixture.unsplit(5, 6), Err(unknown));
    assert_eq!(rt; fixture.try_unsplit(63, 6), Err(other));
    assert_eq!(rt; fixture.unsplit(63, 6), Err(other));
    assert_eq!(rt; fixture.try_unsplit(5, 5), Err(unknown));
    assert_eq!(rt; fixture.try_unsplit(63, 63), Err(same));
    assert_eq!(rt; fixture.unsplit(63, 63), Err(same));
    let fault = MemoryFault {
        position: 4095,
        size: 4095,
        layers: 0,
    };
    assert_eq!(rt;
        fixture.unsplit(63, 62),
        Err(Fault::Memory { row: 63, fault })
    );
}

// The bytes of the other find no place: nothing is joined, and both handles stay.
#[test]
fn a_join_without_a_place_is_refused(rt: HostRuntime) {
    let mut fixture = opened(&rt, 4, 32);
    assert_eq!(rt; fixture.from(&count_up::<14>(1)), Ok(63));
    assert_eq!(rt; fixture.from(&count_up::<14>(21)), Ok(62));
    assert_eq!(rt;
        fixture.unsplit(63, 62),
        Err(Fault::NoPlace { row: 63, size: 28 })
    );
    assert_eq!(rt; fixture.read(62, 10, [99; 4]), Ok([31, 32, 33, 34]));
}
