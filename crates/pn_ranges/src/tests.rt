// Ranges against versions, and texts that are refused.
use crate::{Range, RangeFault};
use semver::Version;
use std::alloc::Global;
use std::test::Fail;

fn holds(alloc: Global, range: &str, version: &str) -> Option<bool> {
    let Ok(range) = Range::read(alloc, range) else {
        return None;
    };
    let Ok(version) = Version::parse(alloc, version) else {
        return None;
    };
    Some(range.holds(&version))
}

fn any_holds(alloc: Global, version: &str) -> Option<bool> {
    let Ok(range) = Range::any(alloc) else {
        return None;
    };
    let Ok(version) = Version::parse(alloc, version) else {
        return None;
    };
    Some(range.holds(&version))
}

fn fault(alloc: Global, range: &str) -> Option<RangeFault> {
    match Range::read(alloc, range) {
        Ok(_) => None,
        Err(fault) => Some(fault),
    }
}

// A range, versions that it holds, and versions that it doesn't hold, with `;` between.
const ROWS: &[&str] = &[
    ";0.0.0 1.2.3;1.2.3-a",
    "*;0.0.0 9.9.9;0.0.0-0 1.2.3-a",
    "x;1.2.3;1.2.3-a",
    "=*;1.2.3;1.2.3-a",
    ">=*;0.0.0;0.0.0-a",
    "<=*;0.0.0;0.0.0-a",
    "~*;7.0.0;7.0.0-a",
    "^*;7.0.0;7.0.0-a",
    ">*;;0.0.0 1.2.3 0.0.0-0",
    "<*;;0.0.0 1.2.3 0.0.0-0",
    "1.2.3;1.2.3 1.2.3+b;1.2.2 1.2.4 1.2.3-p",
    "=1.2.3;1.2.3;1.2.4",
    "1.2.3-p;1.2.3-p 1.2.3-p+b;1.2.3 1.2.3-q",
    "1;1.0.0 1.9.9;0.9.9 2.0.0 2.0.0-0 1.5.0-a",
    "1.2;1.2.0 1.2.9;1.1.9 1.3.0 1.3.0-0",
    "1.x.3-p;1.0.0 1.9.9;2.0.0 1.0.3-p",
    "^1.2.3;1.2.3 1.9.0;1.2.2 2.0.0 2.0.0-0 1.3.0-a",
    "^1.2.3-p;1.2.3-p 1.2.3-q 1.2.3 1.9.0;1.2.3-o 1.2.4-p 2.0.0",
    "^1;1.0.0 1.9.9;0.9.9 2.0.0",
    "^1.2;1.2.0 1.9.9;1.1.9 2.0.0",
    "^0.2.3;0.2.3 0.2.9;0.2.2 0.3.0 1.0.0",
    "^0.0.3;0.0.3;0.0.2 0.0.4 0.0.4-0 0.1.0",
    "^0;0.0.0 0.9.9;1.0.0",
    "^0.0;0.0.0 0.0.9;0.1.0",
    "^0.2;0.2.0 0.2.9;0.1.9 0.3.0",
    "~1.2.3;1.2.3 1.2.9;1.2.2 1.3.0 1.3.0-0",
    "~1.2.3-p;1.2.3-p 1.2.3 1.2.9;1.2.3-o 1.2.4-p 1.3.0",
    "~1;1.0.0 1.9.9;0.9.9 2.0.0",
    "~1.2;1.2.0 1.2.9;1.1.9 1.3.0",
    "~>1.2;1.2.0 1.2.9;1.1.9 1.3.0",
    ">1;2.0.0 3.0.0;1.9.9 2.0.0-a",
    ">1.2;1.3.0 2.0.0;1.2.9",
    ">=1;1.0.0 2.0.0;0.9.9 1.0.0-a",
    ">=1.2;1.2.0 2.0.0;1.1.9",
    "<1;0.9.9;1.0.0 1.0.0-0",
    "<1.2;1.1.9;1.2.0 1.2.0-0",
    "<=1;1.9.9;2.0.0 2.0.0-0",
    "<=1.2;1.2.9;1.3.0",
    "<1.2.3;1.2.2;1.2.3 1.2.3-a",
    "<1.2.3-b;1.2.3-a 1.2.2;1.2.3-b 1.2.3 1.2.2-a",
    ">1.2.3;1.2.4;1.2.3 1.2.4-a",
    "<=1.2.3;1.2.3 1.2.2;1.2.4",
    ">=1.2.3;1.2.3 1.2.4;1.2.2",
    "1.2.3 - 2.3.4;1.2.3 2.3.4;1.2.2 2.3.5",
    "1.2 - 2.3;1.2.0 2.3.9;1.1.9 2.4.0 2.4.0-0",
    "1 - 2;1.0.0 2.9.9;0.9.9 3.0.0",
    "* - 2;0.0.0 2.9.9;3.0.0",
    "1 - *;1.0.0 9.9.9;0.9.9",
    "* - x;0.0.0 9.9.9;1.0.0-a",
    "1.2.3-p - v2;1.2.3-p 2.0.0;1.2.3-o 3.0.0",
    "1 || 3.x;1.5.0 3.5.0;2.0.0 4.0.0",
    "1||2 - 3||;1.0.0 2.0.0 9.0.0;1.0.0-a",
    "  >=1.2.3   <2 \t;1.2.3 1.9.9;1.2.2 2.0.0",
    "> =v1.0.0;1.0.1;1.0.0",
    ">= v1.0.0;1.0.0;0.9.9",
    ">=v=v1.0.0;1.0.0;0.9.9",
    ">=1.0.0-rc.1 <1.0.0-rc.10;1.0.0-rc.1 1.0.0-rc.2;1.0.0-rc.10 1.0.0-rc.x 1.0.1-rc.2",
    ">=2.0.0-rc.1;2.0.0-rc.2 2.0.0;2.1.0-rc.1",
    "1.2.3+b.01;1.2.3;1.2.4",
    "1.2.3-0a+b;1.2.3-0a;1.2.3-0",
    "18446744073709551615.0.0;18446744073709551615.0.0;1.0.0",
    "<18446744073709551615;18446744073709551614.9.9;18446744073709551615.0.0",
    "18446744073709551615 - x;18446744073709551615.0.0;18446744073709551614.0.0",
];

// Whether the range answers so for each of the versions.
fn answers(alloc: Global, range: &str, versions: &str, wanted: bool) -> bool {
    for version in versions.split_whitespace() {
        if holds(alloc, range, version) != Some(wanted) {
            return false;
        }
    }
    true
}

fn is_right(alloc: Global, row: &str) -> bool {
    let Some((range, versions)) = row.split_once(';') else {
        return false;
    };
    let Some((inside, outside)) = versions.split_once(';') else {
        return false;
    };
    answers(alloc, range, inside, true) && answers(alloc, range, outside, false)
}

#[test]
fn rows_of_the_table(rt: HostRuntime) -> Result<(), Fail> {
    let alloc = rt.alloc();
    for &row in ROWS {
        assert!(rt; is_right(alloc, row));
    }
    Ok(())
}

const REFUSED: &[(&str, RangeFault)] = &[
    (">", RangeFault::BadByte(1)),
    (">  ", RangeFault::BadByte(3)),
    (">  <1", RangeFault::BadByte(3)),
    ("a", RangeFault::BadByte(0)),
    (" latest", RangeFault::BadByte(1)),
    ("01", RangeFault::BadByte(1)),
    ("1.02", RangeFault::BadByte(3)),
    ("1.", RangeFault::BadByte(2)),
    ("1..2", RangeFault::BadByte(2)),
    ("1.2.3.4", RangeFault::BadByte(5)),
    ("1.2-3", RangeFault::BadByte(3)),
    ("1-2", RangeFault::BadByte(1)),
    ("1.2.3-", RangeFault::BadByte(6)),
    ("1.2.3- 2", RangeFault::BadByte(6)),
    ("1.2.3-01", RangeFault::BadByte(8)),
    ("1.2.3-01.2", RangeFault::BadByte(8)),
    ("1.2.3-a..b", RangeFault::BadByte(8)),
    ("1.2.3+", RangeFault::BadByte(6)),
    ("1.2.3+a+b", RangeFault::BadByte(7)),
    ("1.2.3-a_b", RangeFault::BadByte(7)),
    ("1 -2", RangeFault::BadByte(3)),
    ("1 -", RangeFault::BadByte(3)),
    ("1 - ", RangeFault::BadByte(4)),
    ("1 - >2", RangeFault::BadByte(4)),
    ("1 - 2 3", RangeFault::BadByte(6)),
    (">1 - 2", RangeFault::BadByte(3)),
    ("= 1 - 2", RangeFault::BadByte(4)),
    ("0 1 - 2", RangeFault::BadByte(4)),
    ("1|2", RangeFault::BadByte(2)),
    ("1 |", RangeFault::BadByte(3)),
    ("1 ||| 2", RangeFault::BadByte(5)),
    (">1<2", RangeFault::BadByte(2)),
    ("1,2", RangeFault::BadByte(1)),
    ("1\n", RangeFault::BadByte(1)),
    ("18446744073709551616", RangeFault::NumberTooLarge(0)),
    ("x.18446744073709551616 !", RangeFault::NumberTooLarge(2)),
    ("^1 ~2.18446744073709551615", RangeFault::NumberTooLarge(6)),
    (">18446744073709551615 !", RangeFault::NumberTooLarge(1)),
    ("18446744073709551615!", RangeFault::BadByte(20)),
    ("^18446744073709551615!", RangeFault::BadByte(21)),
    ("18446744073709551615 !", RangeFault::NumberTooLarge(0)),
    (">=18446744073709551615 !", RangeFault::BadByte(23)),
    ("! ^18446744073709551615", RangeFault::BadByte(0)),
    ("1|^18446744073709551615", RangeFault::BadByte(2)),
    ("^18446744073709551615|1", RangeFault::NumberTooLarge(1)),
    ("^18446744073709551615 - 1", RangeFault::NumberTooLarge(1)),
    ("1 18446744073709551615 - 2", RangeFault::NumberTooLarge(2)),
    ("18446744073709551615 -", RangeFault::BadByte(22)),
    ("18446744073709551615 - !", RangeFault::BadByte(23)),
    ("1 - 18446744073709551615!", RangeFault::BadByte(24)),
    ("1 - 18446744073709551615 !", RangeFault::NumberTooLarge(4)),
    (
        "1 || ~2.18446744073709551615 3 -",
        RangeFault::NumberTooLarge(8),
    ),
    (
        "~0.18446744073709551615 18446744073709551616",
        RangeFault::NumberTooLarge(3),
    ),
    (
        "18446744073709551616 ^18446744073709551615",
        RangeFault::NumberTooLarge(0),
    ),
    ("^0.0.18446744073709551615", RangeFault::NumberTooLarge(5)),
];

#[test]
fn odd_texts_are_refused(rt: HostRuntime) -> Result<(), Fail> {
    let alloc = rt.alloc();
    for &(range, wanted) in REFUSED {
        assert_eq!(rt; fault(alloc, range), Some(wanted));
    }
    Ok(())
}

#[test]
fn comparators_are_counted(rt: HostRuntime) -> Result<(), Fail> {
    let alloc = rt.alloc();
    let mut text = String::from_str(alloc, "1 - 2")?;
    for _ in 0..1022 {
        text.push_str("||1")?;
    }
    assert_eq!(rt; fault(alloc, text.as_str()), None);
    text.push_str(" 1")?;
    assert_eq!(rt; fault(alloc, text.as_str()), Some(RangeFault::TooMany));
    let at = text.len();
    text.push_str("!")?;
    assert_eq!(rt; fault(alloc, text.as_str()), Some(RangeFault::BadByte(at)));
    let mut led = String::from_str(alloc, "!")?;
    led.push_str(text.as_str())?;
    assert_eq!(rt; fault(alloc, led.as_str()), Some(RangeFault::BadByte(0)));
    Ok(())
}

#[test]
fn any_holds_each_release(rt: HostRuntime) -> Result<(), Fail> {
    let alloc = rt.alloc();
    assert_eq!(rt; any_holds(alloc, "0.0.0"), Some(true));
    assert_eq!(rt; any_holds(alloc, "9.9.9"), Some(true));
    assert_eq!(rt; any_holds(alloc, "1.2.3-a"), Some(false));
    Ok(())
}
