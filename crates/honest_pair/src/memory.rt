//! The words of all frames, and whether the back's port is pending.
ghost use Rattle.std.specs.Prelude.{◌≡◌, vec_len};

use crate::awaits::Awaits;
use std::alloc::{AllocError, Global};
use xen_back::{Answer, Want};
use xen_page::Place;
use xen_ring::{REQ_EVENT, REQ_PROD, RSP_EVENT, RSP_PROD};
use xen_steps::header;

/// The number of words that a frame has.
const WORDS: u32 = 1024;
/// The number of words: 531 frames, the back's, sixteen of the grant table, two rings and 512 buffers.
const TOTAL: usize = 543_744;
/// The frames of the two rings.
const TX_RING: u32 = 17;

const RX_RING: u32 = 18;
/// The port that wakes the back.
const BACK_PORT: u32 = 0;

/// The words of all frames, one frame after another. The front's port is never taken, so nothing of it is kept.
#[derive(Drop)]
pub struct Memory {
    words: Vec<u32>,
    pending: bool,
    awaits: Awaits,
    ghost full: { vec_len words ≡ 543744 },
}

impl Memory {
    ghost use Rattle.std.specs.Prelude.{◌≡◌, ◌<◌, true, false, IfOk, replicate, vec_len};
    ghost use Rattle.honest_pair.specs.Machine.Memory.{after, answer, opening_memory, put};
    ghost use Rattle.honest_pair.specs.Words.{IsHeld, WantsHeld, empty_memory, opened, taken};
    ghost use Rattle.honest_pair.specs.Held.{memory_in};
    ghost use Rattle.xen_steps.specs.Answers.{Fits, number};
    ghost use Rattle.xen_steps.specs.Event.{Event, Occurs};
    ghost use Rattle.xen_steps.specs.Drive.{IsPageWant};

    /// `total` words, all 0.
    fn zeros(alloc: Global, total: usize) -> Result<Vec<u32>, AllocError>
        ensures items { IfOk result (λ v. v.items ≡ replicate total 0) }
        ensures count { IfOk result (λ v. vec_len v ≡ total) }
    {
        Vec::from_elem(alloc, 0, total)
    }

    /// All words 0, and the port not pending.
    fn empty(alloc: Global) -> Result<Memory, AllocError>
        ensures { IfOk result (λ m. memory_in m ≡ empty_memory) }
    {
        Ok(Memory {
            words: Memory::zeros(alloc, TOTAL)?,
            pending: false,
            awaits: Awaits::Nothing,
        })
    }

    /// A new ring's header, in a frame.
    fn open_ring(&mut self, frame: u32, start: u32)
        requires { frame < 531 }
        ensures { memory_in self.new ≡ record (memory_in self.old) { word = opened frame start (memory_in self.old).word } }
    {
        let event = start.wrapping_add(1);
        self.write(header(frame, REQ_PROD), start);
        self.write(header(frame, REQ_EVENT), event);
        self.write(header(frame, RSP_PROD), start);
        self.write(header(frame, RSP_EVENT), event);
    }

    /// Two new rings, all other words 0, and the port not pending.
    pub fn make(alloc: Global, start: u32) -> Result<Memory, AllocError>
        ensures { IfOk result (λ m. memory_in m ≡ opening_memory start) }
    {
        let mut memory = Memory::empty(alloc)?;
        memory.open_ring(TX_RING, start);
        memory.open_ring(RX_RING, start);
        Ok(memory)
    }

    fn read(&self, at: Place) -> u32
        requires { IsHeld at }
        ensures { result ≡ (memory_in self.now).word at }
    {
        self.words[(WORDS * at.frame + at.word) as usize]
    }

    fn write(&mut self, at: Place, value: u32)
        requires { IsHeld at }
        ensures { memory_in self.new ≡ record (memory_in self.old) { word = put (memory_in self.old).word at value } }
    {
        self.words[(WORDS * at.frame + at.word) as usize] = value;
    }

    /// Does what an end wants, and gives the word that it is answered.
    pub fn serve(&mut self, want: Want) -> u32
        requires { WantsHeld want }
        ensures after { memory_in self.new ≡ after want (memory_in self.old) }
        ensures answer { result ≡ answer want (memory_in self.old) 0 }
    {
        match want {
            Want::Read(at) => return self.read(at),
            Want::Write(at, value) => self.write(at, value),
            Want::Notify(port) => {
                if port.number() == BACK_PORT {
                    self.pending = true;
                }
            }
            Want::Instr => {}
            Want::Load { .. } => {}
            Want::Add { .. } => {}
            Want::Done => {}
        }
        0
    }

    /// Does what the front wants, and answers it.
    pub fn answer(&mut self, want: Want) -> Answer
        requires { IsPageWant 531 want }
        ensures after { memory_in self.new ≡ after want (memory_in self.old) }
        ensures number { number result ≡ answer want (memory_in self.old) 0 }
        ensures fits { Fits want result }
        ensures occurs { (e : Event) × Occurs want (number result) e }
    {
        match want {
            Want::Read(_) => Answer::Word(self.serve(want)),
            Want::Write(_, _) => {
                self.serve(want);
                Answer::Nothing
            }
            Want::Notify(_) => {
                self.serve(want);
                Answer::Nothing
            }
            Want::Instr => unreachable!(),
            Want::Load { .. } => unreachable!(),
            Want::Add { .. } => unreachable!(),
            Want::Done => unreachable!(),
        }
    }

    /// Clears the back's port, and returns whether it was pending. A back that was woken by it awaits nothing.
    pub fn take(&mut self) -> bool
        ensures was { result ≡ (memory_in self.old).pending }
        ensures now { memory_in self.new ≡ taken (memory_in self.old) }
    {
        let pending = self.pending;
        if pending {
            self.pending = false;
            self.awaits = Awaits::Nothing;
        }
        pending
    }

    /// Sets what the back awaits from now on.
    pub fn awaits(&mut self, awaits: Awaits)
        ensures { memory_in self.new ≡ record (memory_in self.old) { awaits = awaits } }
    {
        self.awaits = awaits;
    }
}
