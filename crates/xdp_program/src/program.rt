//! An accepted program that its holder owns.
use crate::fault::LoadFault;
use crate::run::run_on;
use bpf_insn::decode;
use bpf_lists::MapList;
use bpf_maps::{place, total};
use bpf_verify::{MapShape, Verified, faultless_programs_are_accepted, verify};
use bpf_vm::{Ended, PacketBuf, STACK_SIZE};
use std::alloc::{AllocError, Global};
use std::marker::Model;
use std::sync::Arc;

/// The most bytes that a packet has.
const LONGEST: usize = 65_535;

/// The most maps that a program has.
const MOST_MAPS: usize = 16;

/// The end of a run: the action's number, and how many instructions were done. One that was made has done at least one.
#[derive(Clone, Copy, Debug, PartialEq, Eq, Drop)]
pub struct Run {
    pub number: u32,
    pub instructions: u32,
}

/// The end of a run that isn't made.
const NOTHING: Run = Run {
    number: 0,
    instructions: 0,
};

/// A run, with the packet where it lies.
#[derive(Drop)]
struct Lent<'b> {
    number: u32,
    instructions: u32,
    packet: &'b mut [u8],
}

/// An accepted program with its maps. It is verified once, whoever else has it. Contracts see its instructions by slot and its
/// maps' shapes.
#[derive(Drop)]
pub struct Program {
    verified: Arc<Verified>,
}

impl Model for Program {
    ghost use Rattle.std.specs.Arc.{arc_value};
    ghost use Rattle.bpf_verify.specs.Consistent.{Accepted};

    ghost Value = { Accepted };

    ghost view = { λ p. arc_value p.verified };
}

impl Program {
    ghost use Rattle.std.specs.Prelude.{◌≡◌, ◌≤◌, ◌<◌, List, length, IfOk, IfErr, IfSome, IfNone, MatchResult};
    ghost use Rattle.bpf_insn.specs.Code.{Spells};
    ghost use Rattle.bpf_insn.specs.declared.insn.Insn.{Insn};
    ghost use Rattle.bpf_maps.specs.Layout.{total, place_of};
    ghost use Rattle.bpf_note.specs.Shape.{IsCounter, most_maps};
    ghost use Rattle.bpf_verify.specs.Consistent.{instructions};
    ghost use Rattle.bpf_verify.specs.FirstRefusal.{IsFaultless};
    ghost use Rattle.xdp_program.specs.Ran.{Ran};
    ghost use Rattle.xdp_program.specs.Refused.{IsRefused, IsOutOfMemory, IsUnmade, IsMade};

    /// Returns what [`Program::load`] does. That nothing more is refused follows from these clauses.
    #[tactic(auto, using(crate::proofs::LoadLemmas::out_of_memory_refused))]
    fn accept(alloc: Global, bytes: &[u8], shapes: &[MapShape]) -> Result<Program, LoadFault>
        ensures spelled { IfOk result (λ p. Spells p.code bytes.now) }
        ensures shapes { IfOk result (λ p. p.shapes ≡ shapes.now) }
        ensures faultless { IfOk result (λ p. IsFaultless p.code shapes.now) }
        ensures few { IfOk result (λ _. length shapes.now ≤ most_maps) }
        ensures refused { IfErr result (IsRefused bytes.now shapes.now) }
    {
        if shapes.len() > MOST_MAPS {
            return Err(LoadFault::Maps);
        }
        let code = match decode(alloc, bytes) {
            Ok(code) => code,
            Err(refusal) => return Err(LoadFault::Refused(refusal)),
        };
        match verify(alloc, code, shapes) {
            Ok(verified) => Ok(Program {
                verified: Arc::new(alloc, verified)?,
            }),
            Err(refusal) => Err(LoadFault::Refused(refusal)),
        }
    }

    /// Accepts the bytes of a program with its maps, or says why not.
    pub fn load(alloc: Global, bytes: &[u8], shapes: &[MapShape]) -> Result<Program, LoadFault>
        ensures spelled { IfOk result (λ p. Spells p.code bytes.now) }
        ensures shapes { IfOk result (λ p. p.shapes ≡ shapes.now) }
        ensures faultless { IfOk result (λ p. IsFaultless p.code shapes.now) }
        ensures few { IfOk result (λ _. length shapes.now ≤ most_maps) }
        ensures refused { IfErr result (IsRefused bytes.now shapes.now) }

        // Nothing more is refused.
        ensures accepted { (code : List Insn) → Spells code bytes.now → IsFaultless code shapes.now → length shapes.now ≤ most_maps →
            MatchResult result (λ p. p.code ≡ code) IsOutOfMemory }
    {
        faultless_programs_are_accepted();
        Program::accept(alloc, bytes, shapes)
    }

    /// The same program for another owner, as in another thread. Nothing is verified or copied.
    pub fn again(&self) -> Result<Program, AllocError>
        ensures { IfOk result (λ p. p ≡ self.now) }
    {
        Ok(Program {
            verified: Arc::try_clone(&self.verified)?,
        })
    }

    /// The program as a machine takes it.
    pub fn verified(&self) -> &Verified
        ensures { result.now ≡ self.now }
    {
        &self.verified
    }

    /// Returns the number of instructions that the program has, a wide load being one.
    pub fn instructions(&self) -> u32
        ensures { result ≡ instructions self.now.code }
    {
        self.verified.instructions()
    }

    /// Returns the number of words that its counters are.
    pub fn counters(&self) -> usize
        ensures { result ≡ total self.now.shapes }
    {
        total(self.verified.shapes())
    }

    /// Returns which word counter `j` of value `k` of map `m` is, if there is such a counter.
    pub fn place(&self, m: u32, k: u32, j: u32) -> Option<usize>
        ensures there { IfSome result (λ at. IsCounter self.now.shapes m k j × (at ≡ place_of self.now.shapes m k j)) }
        ensures none { IfNone result (IsCounter self.now.shapes m k j → ⊥) }
    {
        let shapes = self.verified.shapes();
        let shape = shapes.get(m as usize)?;
        if k >= shape.entries() {
            return None;
        }
        if j >= shape.counters() {
            return None;
        }
        Some(place(shapes, m, k, j))
    }

    /// Runs the program on a packet where it lies, and gives the packet back.
    #[inline(always)]
    fn run_lent<'b>(
        &self,
        lists: &[Option<MapList>],
        stack: &'b mut [u8; STACK_SIZE],
        counters: &mut [u64],
        packet: &'b mut [u8],
        ifindex: u32,
        queue: u32,
    ) -> Lent<'b>
        requires short { length packet.old ≤ 65535 }
        requires enough { total self.now.shapes ≤ length counters.old }
        ensures ran { Ran self.now lists.now packet.old ifindex queue counters.old result.number result.packet.now counters.new result.instructions }
        ensures lent { result.packet.ghost_name ≡ packet.entry.ghost_name }
        ensures bound { result.instructions ≤ instructions self.now.code }
        ensures words { length counters.new ≡ length counters.old }
    {
        let program = self.verified();
        // Only the proof uses what this call ensures: the program is consistent.
        let _shapes = program.shapes();
        match PacketBuf::over(packet, stack) {
            Ok(lent) => {
                // Only the proof uses what this call ensures: a packet is of bytes.
                let _bytes = lent.bytes();
                let Ended {
                    number,
                    packet,
                    instructions,
                } = run_on(program, lists, counters, lent, ifindex, queue);
                Lent {
                    number,
                    instructions,
                    packet: packet.into_bytes(),
                }
            }
            Err(_) => unreachable!(),
        }
    }

    /// Runs the program on a packet where it lies, with words enough.
    #[inline(always)]
    fn run_in_place(
        &self,
        lists: &[Option<MapList>],
        stack: &mut [u8; STACK_SIZE],
        counters: &mut [u64],
        packet: &mut [u8],
        ifindex: u32,
        queue: u32,
    ) -> Run
        requires short { length packet.old ≤ 65535 }
        requires enough { total self.now.shapes ≤ length counters.old }
        ensures ran { Ran self.now lists.now packet.old ifindex queue counters.old result.number packet.new counters.new result.instructions }
        ensures bound { result.instructions ≤ instructions self.now.code }
        ensures words { length counters.new ≡ length counters.old }
    {
        let Lent {
            number,
            instructions,
            packet: _,
        } = self.run_lent(lists, stack, counters, packet, ifindex, queue);
        Run {
            number,
            instructions,
        }
    }

    /// As [`Program::run_in_place`], if there are words enough. It isn't inlined, so that a program without maps saves
    /// no registers for it.
    #[inline(never)]
    fn run_with_maps(
        &self,
        lists: &[Option<MapList>],
        stack: &mut [u8; STACK_SIZE],
        counters: &mut [u64],
        packet: &mut [u8],
        ifindex: u32,
        queue: u32,
    ) -> Run
        requires short { length packet.old ≤ 65535 }
        ensures made { total self.now.shapes ≤ length counters.old →
            Ran self.now lists.now packet.old ifindex queue counters.old result.number packet.new counters.new result.instructions }
        ensures unmade { length counters.old < total self.now.shapes →
            (result.number ≡ 0) × (result.instructions ≡ 0) × (packet.new ≡ packet.old) × (counters.new ≡ counters.old) }
        ensures bound { result.instructions ≤ instructions self.now.code }
        ensures words { length counters.new ≡ length counters.old }
    {
        if counters.len() < self.counters() {
            return NOTHING;
        }
        self.run_in_place(lists, stack, counters, packet, ifindex, queue)
    }

    /// Runs the program on a packet where it lies. The lists of its maps stand by the maps' numbers. The counters are the first
    /// words of `counters`. With too few words, or a packet of more than 65,535 bytes, nothing is run: number 0 after no
    /// instruction. What the stack holds before doesn't matter, so one serves for each packet in turn.
    pub fn run(
        &self,
        lists: &[Option<MapList>],
        stack: &mut [u8; STACK_SIZE],
        counters: &mut [u64],
        packet: &mut [u8],
        ifindex: u32,
        queue: u32,
    ) -> Run
        ensures made { IsMade self.now.shapes counters.old packet.old →
            Ran self.now lists.now packet.old ifindex queue counters.old result.number packet.new counters.new result.instructions }
        ensures unmade { IsUnmade self.now.shapes counters.old packet.old →
            (result.number ≡ 0) × (result.instructions ≡ 0) × (packet.new ≡ packet.old) × (counters.new ≡ counters.old) }
        ensures bound { result.instructions ≤ instructions self.now.code }
        ensures words { length counters.new ≡ length counters.old }
    {
        if packet.len() > LONGEST {
            NOTHING
        } else if self.verified.shapes().is_empty() {
            self.run_in_place(lists, stack, counters, packet, ifindex, queue)
        } else {
            self.run_with_maps(lists, stack, counters, packet, ifindex, queue)
        }
    }
}
