// New handles, their blocks, and what is free again.
use super::{FAR, SIZES, count_up, opened, opened_over};
use faults::Fault;
use rows::class::class_of;
use table::tally::Tally;

#[test]
fn the_working_part_holds_4096_bytes_and_no_more(rt: HostRuntime) {
    for size in SIZES {
        let mut fixture = opened_over(&rt, 16, 4112, size);
        assert_eq!(rt;
            fixture.with_capacity(4097),
            Err(Fault::NoPlace {
                row: 64,
                size: 4097,
            })
        );
        assert_eq!(rt; fixture.with_capacity(4096), Ok(63));
        assert_eq!(rt;
            fixture.with_capacity(1),
            Err(Fault::NoPlace { row: 64, size: 1 })
        );
        assert_eq!(rt; fixture.with_capacity(0), Ok(62));
        assert_eq!(rt; fixture.capacity(63), Ok(4096));
        assert_eq!(rt; fixture.capacity(62), Ok(0));
    }
}

#[test]
fn classes_go_by_units_of_1024(rt: HostRuntime) {
    for (size, class) in [(1023, 0), (1024, 1), (65535, 6), (65536, 7)] {
        assert_eq!(rt; class_of(size), class, "at {size}");
    }
}

#[test]
fn a_block_needs_one_of_32_rows(rt: HostRuntime) {
    for size in SIZES {
        let mut fixture = opened_over(&rt, 4, 32, size);
        for row in (32..64).rev() {
            assert_eq!(rt; fixture.with_capacity(0), Ok(row));
        }
        let refused = Err(Fault::NoBlockRow { row: 64 });
        assert_eq!(rt; fixture.with_capacity(100), refused);
        assert_eq!(rt; fixture.from(&[1]), refused);
    }
}

// What the growth rule answers, and a need over the working part.
#[test]
fn a_block_needs_a_place(rt: HostRuntime) {
    for size in SIZES {
        let mut fixture = opened_over(&rt, 4, 32, size);
        assert_eq!(rt; fixture.with_capacity(20), Ok(63));
        for source in [[0; 9], count_up(1)] {
            assert_eq!(rt;
                fixture.from(&source),
                Err(Fault::NoPlace { row: 64, size: 9 })
            );
        }
        assert_eq!(rt;
            fixture.reserve(63, 21),
            Err(Fault::NoPlace { row: 63, size: 40 })
        );
        assert_eq!(rt;
            fixture.reserve(63, FAR),
            Err(Fault::NoPlace { row: 63, size: FAR })
        );
        for source in [[0; 29], count_up(1)] {
            assert_eq!(rt;
                fixture.extend(63, &source),
                Err(Fault::NoPlace { row: 63, size: 29 })
            );
        }
    }
}

#[test]
fn what_is_let_go_is_free_again(rt: HostRuntime) {
    let mut fixture = opened(&rt, 4, 32);
    assert_eq!(rt; fixture.with_capacity(28), Ok(63));
    let full = Tally {
        handles: 1,
        blocks: 1,
        bytes: 28,
    };
    assert_eq!(rt; fixture.tally(), Ok(full));
    assert_eq!(rt; fixture.release(63), Ok(()));
    let empty = Tally {
        handles: 0,
        blocks: 0,
        bytes: 0,
    };
    assert_eq!(rt; fixture.tally(), Ok(empty));
    assert_eq!(rt; fixture.with_capacity(28), Ok(63));
}

// One handle cut into 32, and 31 more that hold nothing, each on a block of its own. With 32 blocks there is none to
// move out to, and with 64 handles no row for another.
#[test]
fn rows_run_out(rt: HostRuntime) {
    let mut fixture = opened(&rt, 4, 32);
    assert_eq!(rt; fixture.with_capacity(8), Ok(63));
    for row in (32..63).rev() {
        assert_eq!(rt; fixture.split_to(63, 0), Ok(row));
    }
    for row in (1..32).rev() {
        assert_eq!(rt; fixture.with_capacity(0), Ok(row));
    }
    let no_block = Fault::NoBlockRow { row: 63 };
    assert_eq!(rt; fixture.reserve(63, 9), Err(no_block));
    assert_eq!(rt; fixture.extend(63, &count_up::<9>(1)), Err(no_block));
    assert_eq!(rt;
        fixture.with_capacity(0),
        Err(Fault::NoBlockRow { row: 64 })
    );
    assert_eq!(rt; fixture.split_to(63, 0), Ok(0));
    let no_row = Fault::NoHandleRow { row: 63 };
    assert_eq!(rt; fixture.split_off(63, 0), Err(no_row));
    assert_eq!(rt; fixture.split_to(63, 0), Err(no_row));
    assert_eq!(rt;
        fixture.with_capacity(0),
        Err(Fault::NoHandleRow { row: 64 })
    );
    assert_eq!(rt; fixture.split(63), Err(no_row));
}
