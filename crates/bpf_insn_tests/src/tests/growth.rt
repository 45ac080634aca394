//! Decoding again after it was refused memory. `tools/gate/refuse-growths` refuses each allocation of this test in turn, and
//! counts the runs that print `refused`.

use bpf_insn::{Cause, decode};
use std::test::Fail;

#[rattlefmt::skip]
const PROGRAM: [u8; 48] = [
    0x18, 0, 0, 0, 1, 0, 0, 0, // r0 = 8589934593 ll
    0, 0, 0, 0, 2, 0, 0, 0, // its second slot
    0xb7, 0, 0, 0, 1, 0, 0, 0, // r0 = 1
    7, 0, 0, 0, 1, 0, 0, 0, // r0 += 1
    7, 0, 0, 0, 1, 0, 0, 0, // r0 += 1
    0x95, 0, 0, 0, 0, 0, 0, 0, // exit
];

#[test]
fn a_program_is_decoded_again(rt: HostRuntime) -> Result<(), Fail> {
    let code = match decode(rt.alloc(), &PROGRAM) {
        Ok(code) => code,
        Err(refusal) => {
            assert_eq!(rt; refusal.cause, Cause::Memory);
            println!(rt; "refused")?;
            decode(rt.alloc(), &PROGRAM).map_err(|_| "refused again")?
        }
    };
    assert_eq!(rt; code.insns().len(), 6);
    Ok(())
}
