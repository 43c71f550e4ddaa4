// Texts with their faults.
use crate::{Why, YamlFault, read};
use std::alloc::Global;

// Texts, and the first line at fault.
const FAULTS: &[(&str, YamlFault)] = &[
    ("a:\n\tb: 1\n", YamlFault::Line(2, Why::Tab)),
    ("a:\n  b: 1\n  \tc: 1\n", YamlFault::Line(3, Why::Tab)),
    ("  a: 1\n", YamlFault::Line(1, Why::Indent)),
    ("# x\n\na: 1\n  b: 1\n", YamlFault::Line(4, Why::Indent)),
    ("[a]\nb: 1\n", YamlFault::Line(2, Why::Indent)),
    ("a:\n- b\n - c\n", YamlFault::Line(3, Why::Indent)),
    ("a: |\n  x\n y\n", YamlFault::Line(3, Why::Indent)),
    ("a: 1\nb\n", YamlFault::Line(2, Why::Key)),
    ("a: 1\n- b\n", YamlFault::Line(2, Why::Key)),
    ("a:\r\n- 1\r\nb\r\n", YamlFault::Line(3, Why::Key)),
    ("x", YamlFault::Line(1, Why::Key)),
    ("a: 'b' c\n", YamlFault::Line(1, Why::Quote)),
    ("a: 'b\n", YamlFault::Line(1, Why::Quote)),
    ("a: \"b\n", YamlFault::Line(1, Why::Quote)),
    (
        "a:\n- 1\n- x: 2\n\n# c\nb: \"\\z\"\n",
        YamlFault::Line(6, Why::Escape),
    ),
    ("a: \"\\ud800\"", YamlFault::Line(1, Why::Escape)),
    ("a: \"\\x4", YamlFault::Line(1, Why::Escape)),
    ("\n\na: {b: 1\n", YamlFault::Line(3, Why::Flow)),
    ("a: [b] c\n", YamlFault::Line(1, Why::Flow)),
    ("a: [b, # c", YamlFault::Line(1, Why::Flow)),
    ("a: {b}", YamlFault::Line(1, Why::Flow)),
    ("a: {b: }", YamlFault::Line(1, Why::Flow)),
    ("a: {'b' : 1}", YamlFault::Line(1, Why::Flow)),
    ("a: {{b: 1}", YamlFault::Line(1, Why::Flow)),
    ("x: 1\na: {[b]: 1}", YamlFault::Line(2, Why::Flow)),
    ("a: 1\na: 2\n", YamlFault::Line(2, Why::Twice)),
    ("a: 1\nb: 2\na: 3\n", YamlFault::Line(3, Why::Twice)),
    ("b: 1\na: 2\nb: 3\n", YamlFault::Line(3, Why::Twice)),
    ("a: {x: 1, x: 2}", YamlFault::Line(1, Why::Twice)),
    ("a: {y: 1, x: 2, y: 3}", YamlFault::Line(1, Why::Twice)),
    ("a: {y: 1, x: 2, x: 3}", YamlFault::Line(1, Why::Twice)),
    ("a: &x 1", YamlFault::Line(1, Why::LeftOut)),
    ("a: 1\n---\n", YamlFault::Line(2, Why::LeftOut)),
    ("... # x", YamlFault::Line(1, Why::LeftOut)),
    (
        "a: [[[[[[[[[[[[[[[[[[[[[[[[[[[[[[[[[[[[[[[[[[[[[[[[[[[[[[[[[[[[[[[x]]]]]]]]]]]]]]]]]]]]]]]]]]]]]]]]]]]]]]]]]]]]]]]]]]]]]]]]]]]]]]]",
        YamlFault::TooDeep,
    ),
    (
        "a:\n b:\n  c: [[[[[[[[[[[[[[[[[[[[[[[[[[[[[[[[[[[[[[[[[[[[[[[[[[[[[[[[[[[[[x]]]]]]]]]]]]]]]]]]]]]]]]]]]]]]]]]]]]]]]]]]]]]]]]]]]]]]]]]]]]]",
        YamlFault::TooDeep,
    ),
];

fn fault(alloc: Global, text: &str) -> Option<YamlFault> {
    if text.len() > u32::MAX as usize {
        return None;
    }
    read(alloc, text.as_bytes()).err()
}

#[test]
fn the_first_fault_is_told(rt: HostRuntime) {
    for &(text, wanted) in FAULTS {
        assert!(rt; fault(rt.alloc(), text) == Some(wanted), "{text}");
    }
}
