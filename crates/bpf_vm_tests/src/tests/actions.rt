//! The actions of XDP: their numbers and names are those of Linux's uapi/linux/bpf.h.
use bpf_vm::Action;

#[test]
fn the_numbers_are_those_of_bpf_h(rt: HostRuntime) {
    let actions = [0, 1, 2, 3].map(Action::of);
    assert_eq!(rt;
        actions,
        [Action::Aborted, Action::Drop, Action::Pass, Action::Tx]
    );
    let names = actions.map(Action::name);
    assert_eq!(rt; names, ["ABORTED", "DROP", "PASS", "TX"]);
}

#[test]
fn every_other_number_is_aborted(rt: HostRuntime) {
    for number in [4, 5, 0xffff, u32::MAX] {
        assert_eq!(rt; Action::of(number), Action::Aborted);
    }
}
