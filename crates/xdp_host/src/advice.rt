//! What C is told of a refusal's cause.
ghost use Rattle.std.specs.Prelude.{◌≡◌, ◌++◌, drop, length, take};
ghost use Rattle.xdp_host.specs.Advice.{advice_of, advice_or, cause_of};

use crate::queue_calls::copied;
use bpf_explain::advice_for;
use xdp_program::Cause;

/// The cause of a number, if there is one.
fn cause_of(number: u32) -> Option<Cause>
    ensures { result ≡ cause_of number }
{
    let causes = [
        Some(Cause::Memory),
        Some(Cause::Length),
        Some(Cause::Opcode),
        Some(Cause::Register),
        Some(Cause::Target),
        Some(Cause::BackJump),
        Some(Cause::End),
        Some(Cause::Unset),
        Some(Cause::FramePointer),
        Some(Cause::NoPointer),
        Some(Cause::Packet),
        Some(Cause::Stack),
        Some(Cause::Context),
        Some(Cause::MayBeNull),
        Some(Cause::MapAccess),
        Some(Cause::Helper),
        Some(Cause::MapNumber),
        Some(Cause::Argument),
        None,
        Some(Cause::Unsupported),
    ];
    if (number as usize) < causes.len() {
        causes[number as usize]
    } else {
        None
    }
}

/// Returns what to write instead.
fn advice(cause: Option<Cause>) -> &'static str
    ensures { result.now ≡ advice_or cause }
{
    match cause {
        Some(cause) => advice_for(&[], cause, None, None),
        None => "",
    }
}

/// Copies out what to write instead of what a cause refuses, as far as there is room. How many bytes it has: none if
/// there is no such cause.
#[unsafe(no_mangle)]
pub extern "C" fn laxonje_advice(cause: u32, out: &mut [u8]) -> usize
    ensures count { result ≡ length (advice_of cause) }
    ensures copied { out.new ≡ take (length out.old) (advice_of cause) ++ drop (length (advice_of cause)) out.old }
{
    copied(advice(cause_of(cause)).as_bytes(), out)
}
