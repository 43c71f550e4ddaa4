// Patterns against paths and names, and patterns that are refused.
use crate::{GlobFault, PatternList};
use pn_text::Text;
use std::alloc::Global;
use std::test::Fail;

#[derive(Clone, Copy)]
enum Read {
    Paths,
    Names,
}

// Patterns with blanks between them, texts that they match, and texts that they don't match, with `;` between.
const PATHS: &[&str] = &[
    "packages/*;packages/a packages/b.c;packages packages/a/b packages/.a",
    "packages/**;packages packages/a packages/a/b;packages/.a packages/a/.b app",
    "**;a a/b;.a a/.b .a/b",
    "**/test/**;test a/test a/b/test/c;a .a/test test/.b",
    "**/a/**/b;a/b a/a/b x/a/y/b;a b/a a/.y/b",
    "**/.x/b;.x/b a/.x/b;.x/.x/b",
    "?;a;ab . ",
    "a?c;abc a.c;ac abbc a/c",
    ".a*;.a .ab;a .b",
    "*.x;a.x b.c.x;.x",
    "{a,b}/c;a/c b/c;c/c a,b/c {a,b}/c",
    "{a,b/c}/d;a/d b/c/d;b/d",
    "x{,y};x xy;y x,y",
    "{.a,b}*;.ab bc;a .b",
    "{a}{};a;{a}",
    "{a,b}{c,d};ac ad bc bd;ab cd",
    "./packages/*/;packages/a;./packages/a packages",
    "!./a *;b;a",
    "* !b;a c;b",
    "!a;;a b",
    ";;a",
    "a**b;ab axxb;a/b",
    "a*b*c;abc axbxc abcbc;acb axbxcx",
    "./!a,b;!a,b;a b !a",
];

const NAMES: &[&str] = &[
    "*;a @s/a .b;",
    "@s/*;@s/a @s/;@t/a s/a",
    "*eslint*;eslint @x/eslint-y;esl",
    "!a;b c;a",
    "!a !b;c ab;a b",
    "* !@s/*;a;@s/b",
    "a b;a b;c ab",
    "a?;a?;ab",
    "./a/;./a/;a",
    "!!a;a b;!a",
    ";;a",
];

fn list(alloc: Global, read: Read, patterns: &str) -> Result<PatternList, GlobFault> {
    let mut texts = Vec::new(alloc);
    for pattern in patterns.split_whitespace() {
        let Ok(text) = Text::of(alloc, pattern) else {
            return Err(GlobFault::Memory);
        };
        if texts.push(text).is_err() {
            return Err(GlobFault::Memory);
        }
    }
    match read {
        Read::Paths => PatternList::paths(alloc, &texts),
        Read::Names => PatternList::names(alloc, &texts),
    }
}

// Whether the list answers so for each of the texts.
fn answers(list: &PatternList, texts: &str, wanted: bool) -> bool {
    for text in texts.split_whitespace() {
        if list.matches(text) != wanted {
            return false;
        }
    }
    true
}

fn is_right(alloc: Global, read: Read, row: &str) -> bool {
    let Some((patterns, texts)) = row.split_once(';') else {
        return false;
    };
    let Some((inside, outside)) = texts.split_once(';') else {
        return false;
    };
    match list(alloc, read, patterns) {
        Ok(list) => answers(&list, inside, true) && answers(&list, outside, false),
        Err(_) => false,
    }
}

#[test]
fn rows_of_path_patterns(rt: HostRuntime) -> Result<(), Fail> {
    let alloc = rt.alloc();
    for &row in PATHS {
        assert!(rt; is_right(alloc, Read::Paths, row));
    }
    Ok(())
}

#[test]
fn rows_of_name_patterns(rt: HostRuntime) -> Result<(), Fail> {
    let alloc = rt.alloc();
    for &row in NAMES {
        assert!(rt; is_right(alloc, Read::Names, row));
    }
    Ok(())
}

fn fault(alloc: Global, read: Read, patterns: &str) -> Option<GlobFault> {
    match list(alloc, read, patterns) {
        Ok(_) => None,
        Err(fault) => Some(fault),
    }
}

const REFUSED_PATHS: &[(&str, GlobFault)] = &[
    ("a[b]", GlobFault::BadByte(0, 1)),
    ("a]", GlobFault::BadByte(0, 1)),
    ("(a)", GlobFault::BadByte(0, 0)),
    ("a)", GlobFault::BadByte(0, 1)),
    ("}", GlobFault::BadByte(0, 0)),
    ("{a{b}}", GlobFault::BadByte(0, 2)),
    ("{a,b]}", GlobFault::BadByte(0, 4)),
    ("{a", GlobFault::BadByte(0, 2)),
    ("!./{a/", GlobFault::BadByte(0, 6)),
    ("!./a]/", GlobFault::BadByte(0, 4)),
    ("a {b} c[ ]", GlobFault::BadByte(2, 1)),
    ("{a,b}{a,b}{a,b}{a,b}{a,b}{a,b}{a,b}", GlobFault::TooMany),
    ("{a,b}{a,b}{a,b}{a,b}{a,b}{a,b}{a,b}]", GlobFault::TooMany),
    ("a {a,b,c,d,e,f,g,h}{a,b,c,d,e,f,g,h,i}", GlobFault::TooMany),
    (
        "[{a,b}{a,b}{a,b}{a,b}{a,b}{a,b}{a,b}",
        GlobFault::BadByte(0, 0),
    ),
];

const REFUSED_NAMES: &[(&str, GlobFault)] = &[
    ("{a}", GlobFault::BadByte(0, 0)),
    ("a]", GlobFault::BadByte(0, 1)),
    ("!a(", GlobFault::BadByte(0, 2)),
    ("a b[c]", GlobFault::BadByte(1, 1)),
];

#[test]
fn refusals_name_the_first_place(rt: HostRuntime) -> Result<(), Fail> {
    let alloc = rt.alloc();
    for &(patterns, wanted) in REFUSED_PATHS {
        assert!(rt; fault(alloc, Read::Paths, patterns) == Some(wanted));
    }
    for &(patterns, wanted) in REFUSED_NAMES {
        assert!(rt; fault(alloc, Read::Names, patterns) == Some(wanted));
    }
    assert!(rt; fault(alloc, Read::Paths, "{a,b}{a,b}{a,b}{a,b}{a,b}{a,b}") == None);
    Ok(())
}

const MANY_STARS: &str = "*a*a*a*a*a*a*a*a*a*a*a*a*a*a*a*a*a*a*a*a*a*a*a*a*a*a*a*a*a*a*b";

const MANY_BYTES: &str =
    "aaaaaaaaaaaaaaaaaaaaaaaaaaaaaaaaaaaaaaaaaaaaaaaaaaaaaaaaaaaaaaaaaaaaaaaaaaaaaaaaaaaaaaaaaaaaaaaaaaaa";

const MANY_GAPS: &str =
    "**/a/**/a/**/a/**/a/**/a/**/a/**/a/**/a/**/a/**/a/**/a/**/a/**/a/**/a/**/a/**/a/**/b";

const MANY_PARTS: &str =
    "a/a/a/a/a/a/a/a/a/a/a/a/a/a/a/a/a/a/a/a/a/a/a/a/a/a/a/a/a/a/a/a/a/a/a/a/a/a/a/a/a/a/a/a/a/a/a/a/a/a/a";

// A matcher that goes back to each wildcard would not end here.
#[test]
fn many_wildcards_end(rt: HostRuntime) -> Result<(), Fail> {
    let alloc = rt.alloc();
    assert!(rt; matches!(list(alloc, Read::Names, MANY_STARS), Ok(l) if !l.matches(MANY_BYTES)));
    assert!(rt; matches!(list(alloc, Read::Paths, MANY_STARS), Ok(l) if !l.matches(MANY_BYTES)));
    assert!(rt; matches!(list(alloc, Read::Paths, MANY_GAPS), Ok(l) if !l.matches(MANY_PARTS)));
    Ok(())
}
