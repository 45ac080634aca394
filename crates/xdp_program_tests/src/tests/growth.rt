//! Loading again after it was refused memory. `tools/gate/refuse-growths` refuses each allocation of these tests in turn, and
//! counts the runs that print `refused`.
use crate::loading::{is_for_memory, refusal_of, run};
use std::alloc::Global;
use std::test::Fail;
use xdp_program::{LoadFault, Program, load_settings};

/// Two instructions: PASS.
const BYTES: [u8; 16] = [0xb7, 0, 0, 0, 2, 0, 0, 0, 0x95, 0, 0, 0, 0, 0, 0, 0];

fn is_out_of_memory(fault: LoadFault) -> bool {
    refusal_of(fault).is_some_and(|(number, _)| number == 0)
}

/// The number of a run of a program that is asked for again after V0.
fn load_and_run(rt: &impl Print, alloc: Global) -> Result<Option<u32>, Fail> {
    let program = match Program::load(alloc, &BYTES, &[]) {
        Err(fault) if is_out_of_memory(fault) => {
            println!(rt; "refused")?;
            Program::load(alloc, &BYTES, &[])
        }
        other => other,
    };
    Ok(program.ok().map(|it| run(&it, &mut [], &mut [1], (0, 0)).0))
}

#[test]
fn a_program_is_loaded_again(rt: HostRuntime) -> Result<(), Fail> {
    assert_eq!(rt; load_and_run(&rt, rt.alloc())?, Some(2));
    Ok(())
}

/// The number of a run of the program of settings that are asked for again after L0 or V0.
fn load_settings_and_run(rt: &impl Print, alloc: Global) -> Result<Option<u32>, Fail> {
    let text = b"program = [\"b7000000020000009500000000000000\"]";
    let program = match load_settings(alloc, text) {
        Err(fault) if is_for_memory(fault) => {
            println!(rt; "refused")?;
            load_settings(alloc, text)
        }
        other => other,
    };
    Ok(
        program
            .ok()
            .map(|it| run(&it.program, &mut [], &mut [1], (0, 0)).0),
    )
}

#[test]
fn settings_are_loaded_again(rt: HostRuntime) -> Result<(), Fail> {
    assert_eq!(rt; load_settings_and_run(&rt, rt.alloc())?, Some(2));
    Ok(())
}
