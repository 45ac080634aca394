//! What is accepted and refused, and where a counter lies.
use crate::loading::{
    Source, fault_of, is_named, map_named, refusal_of, settings_ended, settings_fault, sizes,
    word_of,
};
use crate::tests::{ADDS_DIGITS, PASS_DIGITS, PASS_WITH_MAPS};
use xdp_program::{Fault, LoadFault, SettingsFault, TextFault};

/// A map, a value, a counter, and the word.
const PLACES: [((u32, u32, u32), Option<usize>); 10] = [
    ((0, 0, 0), Some(0)),
    ((0, 1, 0), Some(1)),
    ((0, 2, 0), None),
    ((0, 0, 1), None),
    ((1, 0, 0), Some(2)),
    ((1, 0, 1), Some(3)),
    ((1, 2, 1), Some(7)),
    ((1, 3, 0), None),
    ((1, 0, 2), None),
    ((2, 0, 0), None),
];

#[test]
fn each_counter_has_a_word(rt: HostRuntime) {
    for (counter, word) in PLACES {
        let found = word_of(rt.alloc(), PASS_WITH_MAPS, counter);
        assert_eq!(rt; found, word, "{counter:?}");
    }
}

const SIXTEEN_MAPS: Source = Source {
    digits: PASS_DIGITS,
    maps: &[(1, 1); 16],
};

const SEVENTEEN_MAPS: Source = Source {
    digits: PASS_DIGITS,
    maps: &[(1, 1); 17],
};

#[test]
fn there_are_16_maps_at_most(rt: HostRuntime) {
    assert_eq!(rt; sizes(rt.alloc(), SIXTEEN_MAPS), Some((2, 16)));
    assert_eq!(rt; fault_of(rt.alloc(), SEVENTEEN_MAPS), Some(LoadFault::Maps));
}

/// A program without maps, and the number and the slot of its refusal.
const REFUSED: [(&str, (u8, u32)); 5] = [
    ("", (1, 0)),
    ("95000000000000", (1, 0)),
    ("9500000000000000", (7, 0)),
    ("b700000000000000b70a0000000000009500000000000000", (8, 1)),
    (ADDS_DIGITS, (16, 3)),
];

#[test]
fn a_refusal_has_its_cause_and_slot(rt: HostRuntime) {
    for (digits, refusal) in REFUSED {
        let source = Source { digits, maps: &[] };
        let found = fault_of(rt.alloc(), source).and_then(refusal_of);
        assert_eq!(rt; found, Some(refusal), "{digits}");
    }
}

/// Counts each packet under the key `01 00 00 00`, and passes it.
const COUNTS: &str = "\
program = [
  \"620afcff01000000\",
  \"bfa2000000000000\",
  \"07020000fcffffff\",
  \"18010000000000000000000000000000\",
  \"8500000001000000\",
  \"1500020000000000\",
  \"b701000001000000\",
  \"db10000000000000\",
  \"b700000002000000\",
  \"9500000000000000\",
]
[[map]]
name = \"hits\"
entries = 2
[[reloc]]
slot = 3
map = \"hits\"
";

#[test]
fn settings_give_a_program_with_its_map(rt: HostRuntime) {
    let mut counters = [5, 7];
    let end = settings_ended(rt.alloc(), COUNTS, &mut counters);
    assert_eq!(rt; (end, counters), (Some((2, 10)), [5, 8]));
}

/// A name, and the number of the map that has it.
const NAMES: [(&str, Option<usize>); 4] = [
    ("hits", Some(0)),
    ("hit", None),
    ("hits ", None),
    ("", None),
];

#[test]
fn settings_name_their_maps(rt: HostRuntime) {
    for (name, number) in NAMES {
        let found = map_named(rt.alloc(), COUNTS, name);
        assert_eq!(rt; found, number, "{name}");
    }
    assert_eq!(rt; is_named(rt.alloc(), COUNTS, 0, "hits"), Some(true));
    assert_eq!(rt; is_named(rt.alloc(), COUNTS, 1, ""), Some(true));
}

#[test]
fn settings_are_refused(rt: HostRuntime) {
    let unread = settings_fault(rt.alloc(), "program = [");
    let fault = TextFault::Refused(Fault::Syntax);
    assert_eq!(rt; unread, Some(SettingsFault::Text(fault)));
    let refused = match settings_fault(rt.alloc(), "program = [\"9500000000000000\"]") {
        Some(SettingsFault::Program(fault)) => refusal_of(fault),
        _ => None,
    };
    assert_eq!(rt; refused, Some((7, 0)));
}
