// Texts as they read, worked by hand.

use kr_base::Place;
use kr_text::{Line, put_all, put_decimal, put_pieces, put_place, put_refusal};
use std::test::Fail;

/// Whether a number alone on a line has this text.
fn is_decimal(line: &mut Line, number: i128, text: &str) -> bool {
    line.clear();
    let put = put_decimal(line, number);
    put.is_ok() && line.bytes() == text.as_bytes()
}

#[test]
fn decimals(rt: HostRuntime) -> Result<(), Fail> {
    let rows: [(i128, &str); 4] = [
        (0, "0"),
        (-7, "-7"),
        (i128::MAX, "170141183460469231731687303715884105727"),
        (i128::MIN, "-170141183460469231731687303715884105728"),
    ];
    let mut line = Line::new(rt.alloc());
    for (number, text) in rows {
        assert!(rt; is_decimal(&mut line, number, text), "{text}");
    }
    Ok(())
}

/// Whether a refusal alone on a line has this text.
fn is_refusal(line: &mut Line, place: Option<Place>, item: &str, text: &str) -> bool {
    line.clear();
    let put = put_refusal(line, "P.java", place, "N0", item);
    put.is_ok() && line.bytes() == text.as_bytes()
}

#[test]
fn refusals(rt: HostRuntime) -> Result<(), Fail> {
    let place = Place {
        file: 0,
        line: 12,
        col: 1,
    };
    let rows: [(Option<Place>, &str, &str); 4] = [
        (Some(place), "x", "P.java:12:1: N0 x\n"),
        (Some(place), "", "P.java:12:1: N0\n"),
        (None, "form", "P.java: N0 form\n"),
        (None, "", "P.java: N0\n"),
    ];
    let mut line = Line::new(rt.alloc());
    for (place, item, text) in rows {
        assert!(rt; is_refusal(&mut line, place, item, text), "{text}");
    }
    Ok(())
}

/// Whether a place, pieces and the end of a line can be written.
fn puts_line(line: &mut Line, place: Place) -> bool {
    put_place(line, "P.java", place).is_ok()
        && put_pieces(line, &[b" ", b"", b"more 0.1"]).is_ok()
        && put_all(line, b"\n").is_ok()
}

#[test]
fn pieces(rt: HostRuntime) -> Result<(), Fail> {
    let place = Place {
        file: 3,
        line: 1,
        col: 4_294_967_295,
    };
    let mut line = Line::new(rt.alloc());
    assert!(rt; puts_line(&mut line, place));
    assert!(rt; line.bytes() == b"P.java:1:4294967295 more 0.1\n".as_slice());
    Ok(())
}
