use crate::malformed::Malformed;
use crate::record::{Part, Record, Worded, check_ended, parse_record, parse_worded, part_of};
use lines::line::Line;
use lines::span::Span;
use std::test::Fail;

#[test]
fn a_line_of_each_kind_is_read(rt: HostRuntime) {
    let balance = parse_record(b"B;-120");
    assert_eq!(rt; balance, Ok(Record::Balance(-120)));
    // A text may have semicolons.
    let text = Part {
        start: 6,
        length: 4,
    };
    let amount = 7;
    let payment = parse_record(b"P;007;a;b;");
    assert_eq!(rt; payment, Ok(Record::Payment(Worded { amount, text })));
    // It may be empty.
    let text = Part {
        start: 5,
        length: 0,
    };
    let amount = 0;
    let charge = parse_record(b"C;-0;");
    assert_eq!(rt; charge, Ok(Record::Charge(Worded { amount, text })));
    let text = Part {
        start: 15,
        length: 1,
    };
    let amount = 999999999999;
    let returned = parse_record(b"R;999999999999;x");
    assert_eq!(rt; returned, Ok(Record::Return(Worded { amount, text })));
}

#[test]
fn a_malformed_line_goes_wrong_at_the_first_unlawful_index(rt: HostRuntime) {
    assert_eq!(rt; parse_record(b""), Err(Malformed { at: 0 }));
    assert_eq!(rt; parse_record(b"X;5;a"), Err(Malformed { at: 0 }));
    assert_eq!(rt; parse_record(b"P"), Err(Malformed { at: 1 }));
    assert_eq!(rt; parse_record(b"P,5;a"), Err(Malformed { at: 1 }));
    assert_eq!(rt; parse_record(b"P;-"), Err(Malformed { at: 3 }));
    assert_eq!(rt; parse_record(b"P;+5;a"), Err(Malformed { at: 2 }));
    assert_eq!(rt; parse_record(b"P;5"), Err(Malformed { at: 3 }));
    // A thirteenth digit.
    assert_eq!(rt;
        parse_record(b"R;1234567890123;a"),
        Err(Malformed { at: 14 })
    );
    // A balance with a rest.
    assert_eq!(rt; parse_record(b"B;5;"), Err(Malformed { at: 3 }));
}

#[test]
fn an_invoice_line_is_an_amount_and_a_payee(rt: HostRuntime) {
    let line = b"1250;Acme";
    let text = Part {
        start: 5,
        length: 4,
    };
    let amount = 1250;
    assert_eq!(rt; parse_worded(line, 0), Ok(Worded { amount, text }));
    assert_eq!(rt; part_of(line, text), b"Acme".as_slice());
}

#[test]
fn a_line_without_an_end_goes_wrong_at_its_length(rt: HostRuntime) {
    let span = Span {
        start: 0,
        length: 3,
    };
    let ended = Line { span, ended: true };
    let cut_off = Line { span, ended: false };
    assert_eq!(rt; check_ended(ended, b"B;5"), Ok(()));
    assert_eq!(rt; check_ended(cut_off, b"B;5"), Err(Malformed { at: 3 }));
}

#[test]
fn a_malformed_line_tells_where(rt: HostRuntime) -> Result<(), Fail> {
    let told = format!(in rt.alloc(); "{}", Malformed { at: 14 })?;
    assert_eq!(rt; told.as_str(), "wrong at 14");
    Ok(())
}
