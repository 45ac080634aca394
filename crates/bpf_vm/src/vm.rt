//! An interpreter of an accepted program.
ghost use Rattle.std.specs.Prelude.{◌≡◌, ◌+◌, ◌<◌, ◌≤◌, ◌%◌, ◌^◌, [], ℕ, None};
ghost use Rattle.bpf_lists.specs.Find.{find_in};
ghost use Rattle.bpf_note.specs.State.{State, IsStart};
ghost use Rattle.bpf_flow.specs.Step.{Exited, step};
ghost use Rattle.bpf_verify.specs.Consistent.{instructions};
ghost use Rattle.bpf_vm.specs.Advance.{Advanced, IsWantOf};
ghost use Rattle.bpf_vm.specs.Course.{Exiting, course, left, start_state};
ghost use Rattle.bpf_vm.specs.Run.{IsStep};
ghost use Rattle.bpf_vm.specs.Running.{Advances, Asks, FindsAlike, first_numbers, state_of};
ghost use Rattle.bpf_vm.specs.Stands.{Stands, now, own, exits, Ends, label_of};
ghost use Rattle.bpf_vm.specs.Wants.{IsLoad, IsAdd, IsNoStep, Waits};

use crate::ended::Ended;
use crate::machine::Machine;
use crate::packet::PacketBuf;
use crate::turn::{InsnFlow, Stop};
use crate::want::VmWant;
use bpf_insn::Register;
use bpf_lists::MapList;
use bpf_verify::Verified;
use std::marker::Model;

/// An interpreter. It holds plain numbers and tests no access: what was accepted has none to refuse.
#[derive(Drop)]
pub struct Vm<'p, 'b> {
    program: &'p Verified,
    machine: Machine<'p, 'b>,
    pc: u32,
    count: u32,
}

impl<'p, 'b> Model for Vm<'p, 'b> {
    ghost use Rattle.std.specs.Prelude.{◌≡◌};
    ghost use Rattle.bpf_vm.specs.Running.{numbers_of};
    ghost use Rattle.bpf_vm.specs.Stands.{Running, IsRunning};

    ghost Value = { Running };

    ghost view = { λ v. record { program = v.program.now; numbers = numbers_of v.pc v.machine; count = v.count } };

    ghost invariant = { λ v. (v.machine.shapes.now ≡ v.program.now.shapes)
        × IsRunning (record { program = v.program.now; numbers = numbers_of v.pc v.machine; count = v.count }) };
}

impl<'p, 'b> Vm<'p, 'b> {
    /// An interpreter before the first instruction.
    pub fn start(
        program: &'p Verified,
        packet: PacketBuf<'b>,
        ifindex: u32,
        queue: u32,
        lists: &'p [Option<MapList>],
    ) -> Vm<'p, 'b>
        ensures program { result.program ≡ program.now }
        ensures stands { (s : State) → IsStart s → s.packet ≡ packet.entry.bytes → s.ifindex ≡ ifindex →
            s.queue ≡ queue → s.shapes ≡ program.now.shapes → FindsAlike s.shapes s.find (find_in lists.now) → Stands result s }
        ensures own { own result ≡ state_of program.now.shapes (first_numbers packet.entry ifindex queue lists.now) }
        ensures itself { Stands result (own result) }
        ensures course { left result ≡ course (instructions program.now.code) program.now.code
            (start_state program.now.shapes lists.now packet.entry.bytes ifindex queue) }
        ensures room { result.numbers.packet.room ≡ packet.entry.room }
        ensures count { result.count ≡ 0 }
    {
        let machine = Machine::new(packet, ifindex, queue, program.shapes(), lists);
        machine.are_numbers();
        Vm {
            program,
            machine,
            pc: 0,
            count: 0,
        }
    }

    /// Returns what comes next.
    pub fn want(&self) -> VmWant
        ensures { IsWantOf result self.now }
    {
        let insn = *self.program.insn(self.pc);
        self.machine.want(insn)
    }

    /// Does all instructions up to one that wants a counter's number, or the exit. Without maps that is the exit.
    #[inline(always)]
    pub(crate) fn run(&mut self)
        ensures advanced { Advanced self.old self.new }
        ensures waits { Waits (now self.new) }
        ensures no_maps { self.new.program.shapes ≡ [] → Ends (now self.new) }
    {
        let Stop { pc, count } = self.machine.run(self.program, self.pc, self.count);
        self.pc = pc;
        self.count = count;
    }

    /// Does all instructions up to one that wants a counter's number, or the exit, and returns what that one wants.
    pub fn advance(&mut self) -> VmWant
        ensures advanced { Advanced self.old self.new }
        ensures waits { IsNoStep result }
        ensures want { IsWantOf result self.new }
    {
        self.run();
        self.want()
    }

    /// Does the next instruction.
    pub fn step(&mut self)
        requires { Advances (now self.old) }
        ensures { IsStep None self.old self.new }
    {
        let insn = self.program.insn(self.pc);
        match self.machine.turn(self.pc, insn) {
            InsnFlow::Goes(to) => {
                self.machine.are_numbers();
                self.pc = to;
                self.count += 1;
            }
            InsnFlow::Waits(_) => unreachable!(),
        }
    }

    /// Goes on with a counter's number.
    fn resume(&mut self, number: u64)
        requires { Asks (now self.old) }
        ensures { IsStep (label_of (now self.old) number) self.old self.new }
    {
        let insn = *self.program.insn(self.pc);
        let to = self.machine.answer(self.pc, insn, number);
        self.machine.are_numbers();
        self.pc = to;
        self.count += 1;
    }

    /// Goes on with the number that a wanted counter holds.
    pub fn loaded(&mut self, number: u64)
        requires { IsLoad (now self.old) }
        ensures { IsStep (label_of (now self.old) number) self.old self.new }
    {
        self.resume(number);
    }

    /// Goes on with the number that a counter held before a wanted add.
    pub fn added(&mut self, old: u64)
        requires { IsAdd (now self.old) }
        ensures { IsStep (label_of (now self.old) old) self.old self.new }
    {
        self.resume(old);
    }

    /// A law of every interpreter, empty at run time: it has done fewer instructions than its program does at most.
    #[inline(always)]
    pub fn is_bounded(&self)
        ensures { self.now.count < instructions self.now.program.code }
    {
        let _count = self.count;
    }

    /// Returns the number of instructions that are done, a wanted exit included.
    pub fn count(&self) -> u32
        ensures count { result ≡ self.now.count + exits (now self.now) }
        ensures bound { result ≤ instructions self.now.program.code }
    {
        match self.want() {
            VmWant::Exit { .. } => self.count + 1,
            _ => self.count,
        }
    }

    /// The number and the packet at the exit.
    pub fn finish(self) -> (u32, PacketBuf<'b>)
        requires { Ends (now self) }
        ensures stands { (s : State) → Stands self.entry s → (r0 : ℕ) ×
            (step self.entry.program.code s ≡ Exited r0) × (result.0 ≡ r0 % 2 ^ 32) × (result.1.bytes ≡ s.packet) }
        ensures own { (r0 : ℕ) × (now self.entry ≡ Exited r0) ×
            (result.0 ≡ r0 % 2 ^ 32) × (result.1.bytes ≡ (own self.entry).packet) }
        ensures course { (r0 : ℕ) × (left self.entry ≡ Exiting r0 result.1.bytes) × (result.0 ≡ r0 % 2 ^ 32) }
        ensures room { result.1.room ≡ self.entry.numbers.packet.room }
    {
        let Ended { number, packet, .. } = self.end();
        (number, packet)
    }

    /// The number, the packet and how many instructions are done, at the exit. It isn't looked up again: an exit ends with
    /// what `r0` holds.
    pub fn end(self) -> Ended<'b>
        requires { Ends (now self) }
        ensures stands { (s : State) → Stands self.entry s → (r0 : ℕ) × (step self.entry.program.code s ≡ Exited r0) ×
            (result.number ≡ r0 % 2 ^ 32) × (result.packet.bytes ≡ s.packet) }
        ensures own { (r0 : ℕ) × (now self.entry ≡ Exited r0) ×
            (result.number ≡ r0 % 2 ^ 32) × (result.packet.bytes ≡ (own self.entry).packet) }
        ensures course { (r0 : ℕ) × (left self.entry ≡ Exiting r0 result.packet.bytes) × (result.number ≡ r0 % 2 ^ 32) }
        ensures room { result.packet.room ≡ self.entry.numbers.packet.room }
        ensures instructions { result.instructions ≡ self.entry.count + 1 }
        ensures bound { result.instructions ≤ instructions self.entry.program.code }
    {
        let Vm {
            program: _,
            machine,
            pc: _,
            count,
        } = self;
        let r0 = machine.register(Register::R0);
        Ended {
            number: (r0 % 0x1_0000_0000) as u32,
            packet: machine.into_packet(),
            instructions: count + 1,
        }
    }
}
