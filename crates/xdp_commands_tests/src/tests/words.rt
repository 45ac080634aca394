//! Words that no shell hands over as they are here.
use std::test::Fail;
use xdp_commands::run_words;

const REFUSED: &[u8] = b"words refused\n";

#[test]
fn refuses_no_words(rt: HostRuntime) {
    let none: [&str; 0] = [];
    let mut output = Vec::new(rt.alloc());
    let status = run_words(&rt, rt.alloc(), &none, &mut b"".as_slice(), &mut output);
    assert_eq!(rt; (status, output.as_slice()), (2, REFUSED));
}

#[test]
fn refuses_a_packet_of_one_byte_too_many(rt: HostRuntime) -> Result<(), Fail> {
    let alloc = rt.alloc();
    let packet = hex::encode(alloc, Vec::from_elem(alloc, 0xa5_u8, 65_536)?.as_slice())?;
    let words = [
        "xdpbox",
        "exec",
        "b7000000020000009500000000000000",
        packet.as_str(),
    ];
    let mut output = Vec::new(alloc);
    let status = run_words(&rt, alloc, &words, &mut b"".as_slice(), &mut output);
    assert_eq!(rt; (status, output.as_slice()), (2, REFUSED));
    Ok(())
}
