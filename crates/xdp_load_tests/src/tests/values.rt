//! The numbers that counters begin with.
use crate::loading::{is_listed_refused_at, is_refused_at, listed_value_at, value_at};
use xdp_load::{Fault, Key, Spot};

/// A map of two values of two counters, and one of which no number is written.
const VALUES: &str = "\
program = []
[[map]]
name = \"settings\"
entries = 2
counters = 2
values = [1500, 0, 9223372036854775807]
[[map]]
name = \"hits\"
entries = 1
";

#[test]
fn numbers_are_read_in_the_order_of_the_text(rt: HostRuntime) {
    let alloc = rt.alloc();
    for (number, place, value) in [
        (0, 0, Some(1_500)),
        (0, 1, Some(0)),
        (0, 2, Some(9_223_372_036_854_775_807)),
        (0, 3, None),
        (1, 0, None),
        (2, 0, None),
    ] {
        assert_eq!(rt; value_at(alloc, VALUES, number, place), value);
        assert_eq!(rt; listed_value_at(alloc, VALUES, number, place), value);
    }
}

#[test]
fn numbers_that_no_map_can_have_are_refused(rt: HostRuntime) {
    let alloc = rt.alloc();
    let text = "program=[]\nmap=[{name=\"a\",entries=2,counters=2,values=[1,2,3,4,5]}]";
    assert!(rt; is_refused_at(alloc, text, Fault::Limit, &Spot::Row(Key::Values, 0)));
    let text = "program=[]\nmap=[{name=\"a\",entries=1,values=[-1]}]";
    assert!(rt; is_refused_at(alloc, text, Fault::Limit, &Spot::Row(Key::Values, 0)));
    let text = "program=[]\nmap=[{name=\"a\",entries=1,values=[\"1\"]}]";
    assert!(rt; is_refused_at(alloc, text, Fault::Key, &Spot::Row(Key::Values, 0)));
    let text = "program=[]\nmap=[{name=\"a\",entries=1,values=1}]";
    assert!(rt; is_refused_at(alloc, text, Fault::Key, &Spot::Row(Key::Values, 0)));
    let text =
        "program=[]\nmap=[{name=\"a\",entries=1,key=\"constants\",size=1,rows=[\"00\"],values=[0]}]";
    assert!(rt; is_listed_refused_at(alloc, text, Fault::Limit, &Spot::Row(Key::Values, 0)));
}
