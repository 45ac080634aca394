//! Settings that say of which function of an object theirs was made.
use crate::loading::{gives_function, is_beside_refused_at, lists_beside_function};
use xdp_load::{Fault, Key, Part, Spot};

#[test]
fn reads_the_object_its_function_and_the_places(rt: HostRuntime) {
    let text = "\
program = [\"b7000000020000009500000000000000\"]
map = [{ name = \"a\", entries = 1 }]
[original]
object = \"7f454C46\"
function = \"drop\"
places = [[0, false], [4294967295, true]]
";
    let places = [(0, false), (4_294_967_295, true)];
    assert!(rt; gives_function(rt.alloc(), text, "7f454c46", "drop", &places));
}

/// An object may be of no bytes, and a function have no name: the object says what it has.
#[test]
fn reads_an_empty_object(rt: HostRuntime) {
    let text = "program = []\noriginal = { object = \"\", function = \"\" }";
    assert!(rt; gives_function(rt.alloc(), text, "", "", &[]));
}

#[test]
fn reads_lists_beside_a_function(rt: HostRuntime) {
    let text = "\
program = [\"b7000000020000009500000000000000\"]
map = [
  { name = \"a\", entries = 1 },
  { name = \"b\", entries = 2, key = \"exact\", rows = [\"0a010203\"] },
]
[original]
object = \"00\"
function = \"f\"
";
    assert!(rt; lists_beside_function(rt.alloc(), text) == Some(1));
}

/// The key `object` says which kind of original it is; the other kind's keys are unknown then.
#[test]
fn faults_of_the_function_have_their_spots(rt: HostRuntime) {
    for (text, fault, spot) in [
        (
            "[original]\nobject = 1\nfunction = \"f\"",
            Fault::Key,
            Spot::At(Key::Object),
        ),
        (
            "[original]\nobject = \"00\"",
            Fault::Key,
            Spot::At(Key::Function),
        ),
        (
            "[original]\nobject = \"00\"\nfunction = [\"f\"]",
            Fault::Key,
            Spot::At(Key::Function),
        ),
        (
            "[original]\nobject = \"00\"\nfunction = \"f\"\nplaces = [[0, 0]]",
            Fault::Key,
            Spot::Row(Key::Place, 0),
        ),
        (
            "program = []\nqueues = 9\n[original]\nobject = \"0\"\nfunction = \"f\"\nplaces = [[0, true], [-1, true]]",
            Fault::Limit,
            Spot::Row(Key::Place, 1),
        ),
        (
            "program = []\n[original]\nobject = \"0\"\nfunction = \"f\"",
            Fault::Hex,
            Spot::Row(Key::Object, 0),
        ),
    ] {
        assert!(rt; is_beside_refused_at(rt.alloc(), text, fault, Part::Original, &spot));
    }
}

/// What the settings' own keys have wrong is theirs, and a program beside an object too.
#[test]
fn faults_of_the_settings_are_their_own(rt: HostRuntime) {
    for (text, fault, spot) in [
        (
            "[original]\nobject = \"00\"\nfunction = \"f\"\nprogram = []",
            Fault::Key,
            Spot::At(Key::Original),
        ),
        (
            "[original]\nfunction = \"f\"",
            Fault::Key,
            Spot::At(Key::Original),
        ),
        (
            "program = 1\n[original]\nobject = \"0\"\nfunction = \"f\"",
            Fault::Key,
            Spot::At(Key::Program),
        ),
        (
            "program = [\"0\"]\n[original]\nobject = \"0\"\nfunction = \"f\"",
            Fault::Hex,
            Spot::Row(Key::Program, 0),
        ),
        (
            "program = []\nmap = [{ name = \"a\", entries = 2, key = \"exact\", rows = [\"0a010203\", \"0a010203\"] }]\noriginal = { object = \"\", function = \"f\" }",
            Fault::Rows,
            Spot::Row(Key::Rows, 0),
        ),
    ] {
        assert!(rt; is_beside_refused_at(rt.alloc(), text, fault, Part::Settings, &spot));
    }
}
