use crate::loading::{counts, gives_maps, gives_packets, gives_program, gives_script};
use crate::tests::EVERY_KEY;

#[test]
fn leaves_out_what_has_a_default(rt: HostRuntime) {
    for text in [
        "program = []",
        "map = []\nprogram = []\nscript = []\npacket = []",
    ] {
        assert_eq!(rt; counts(rt.alloc(), text), Ok(([0; 5], 1, 0, 0)));
    }
}

#[test]
fn reads_the_program_and_the_maps(rt: HostRuntime) {
    let alloc = rt.alloc();
    let program =
        "1811000001000000000000000000000018110000000000000000000000000000b7000000020000009500000000000000";
    assert!(rt; gives_program(alloc, EVERY_KEY, program));
    let maps = [("protocols", 16, 1), ("hits", 1024, 8)];
    assert!(rt; gives_maps(alloc, EVERY_KEY, &maps));
}

#[test]
fn reads_the_run(rt: HostRuntime) {
    let alloc = rt.alloc();
    assert_eq!(rt;
        counts(alloc, EVERY_KEY),
        Ok(([48, 2, 2, 2, 2], 2, 7, 4_294_967_295))
    );
    let script = [(0, 1), (1, 4_294_967_295)];
    assert!(rt; gives_script(alloc, EVERY_KEY, &script));
    let packets = [
        (1, "000102030405060708090a0b0c0d", 100_000),
        (0, "ffffffffffffffffffffffffffff00", 1),
    ];
    assert!(rt; gives_packets(alloc, EVERY_KEY, &packets));
}

#[test]
fn takes_a_relocation_of_each_slot(rt: HostRuntime) {
    let text =
        "program = [\"18010000000000001801000000000000\"]\nmap = [{name = \"a\", entries = 1}]\nreloc = [{slot = 1, map = \"a\"}, {slot = 0, map = \"a\"}]";
    let program = "18110000000000001811000000000000";
    assert!(rt; gives_program(rt.alloc(), text, program));
}

/// Only the destination and the offset of a wide load stay as they were.
#[test]
fn a_relocation_overwrites_what_the_load_had(rt: HostRuntime) {
    let text =
        "program = [\"1825fffeffffffff\"]\nmap = [{name = \"a\", entries = 1}, {name = \"b\", entries = 1}]\nreloc = [{slot = 0, map = \"b\"}]";
    assert!(rt; gives_program(rt.alloc(), text, "1815fffe01000000"));
}
