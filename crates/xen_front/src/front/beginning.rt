//! The calls that begin an activity.

ghost use Rattle.std.specs.Prelude.{◌≡◌, length, get_or, OnErr, OnOk};
ghost use Rattle.xen_front.specs.Fronts.{HasBegun, IsSame, all_free, chosen, poll_answer, post_answer, send_answer, state_of, wiring_of};
ghost use Rattle.xen_front.specs.Slots.{pieces_of as pieces_of_spec};
ghost use Rattle.xen_front.specs.Tree.{poll, post, send};

use crate::by_event::feeding::is_busy;
use crate::by_event::ids::{choose, fly, fly_post, pieces_of};
use crate::by_event::posting::begin_post;
use crate::by_event::sending::first_piece;
use crate::by_event::taking::begin_poll;
use crate::front::Front;
use crate::packet::MAX_PACKET;
use crate::turn::{PollRefusal, PostRefusal, SendRefusal};

/// The bytes of an Ethernet header, without which nothing is a packet.
const MIN_PACKET: usize = 14;

impl<'p> Front<'p> {
    /// Begins to send a packet. Its bytes are copied, so the caller keeps them.
    ///
    /// # Errors
    ///
    /// The first that applies of `Halted`, `Busy`, `TooShort` (below 14 bytes), `TooLong` (above 65,535) and `NoSlot`
    /// (fewer free ids than pieces). The front is then as it was.
    pub fn send(&mut self, bytes: &[u8]) -> Result<(), SendRefusal>
        ensures answer { result ≡ send_answer self.old bytes.now }
        ensures ok { OnOk result (HasBegun self.old self.new
            (send (wiring_of self.old) (state_of self.old) bytes.now
            (chosen (pieces_of_spec (length bytes.now)) (state_of self.old).tx.out))) }
        ensures err { OnErr result (IsSame self.old self.new) }
    {
        // The borrow checker has to see these two types in the body.
        let (_table, _buffers) = (self.wiring.table, self.wiring.tx);
        match self.state.halt {
            Some(_) => return Err(SendRefusal::Halted),
            None => (),
        }
        if is_busy(&self.phase) {
            return Err(SendRefusal::Busy);
        }
        if bytes.len() < MIN_PACKET {
            return Err(SendRefusal::TooShort);
        }
        if bytes.len() > MAX_PACKET {
            return Err(SendRefusal::TooLong);
        }
        let n = pieces_of(bytes.len());
        let ids = choose(&self.state.tx, n);
        if (ids.len() as u32) < n {
            return Err(SendRefusal::NoSlot);
        }
        self.sent.fill(bytes);
        let start = self.state.tx.prod;
        fly(&mut self.state.tx, ids.as_slice());
        self.phase = first_piece(start, ids);
        Ok(())
    }

    /// Begins to post the buffer with the lowest free id.
    ///
    /// # Errors
    ///
    /// The first that applies of `Halted`, `Busy` and `NoSlot` (no free id). The front is then as it was.
    pub fn post_rx(&mut self) -> Result<(), PostRefusal>
        ensures answer { result ≡ post_answer self.old }
        ensures ok { OnOk result (HasBegun self.old self.new
            (post (wiring_of self.old) (state_of self.old) (get_or (all_free (state_of self.old).rx.out) 0 0))) }
        ensures err { OnErr result (IsSame self.old self.new) }
    {
        // The borrow checker has to see these two types in the body.
        let (_table, _buffers) = (self.wiring.table, self.wiring.tx);
        match self.state.halt {
            Some(_) => return Err(PostRefusal::Halted),
            None => (),
        }
        if is_busy(&self.phase) {
            return Err(PostRefusal::Busy);
        }
        let ids = choose(&self.state.rx, 1);
        match ids.as_slice().get(0) {
            Some(id) => {
                let start = self.state.rx.prod;
                fly_post(&mut self.state, *id);
                self.phase = begin_post(*id, start);
                Ok(())
            }
            None => Err(PostRefusal::NoSlot),
        }
    }

    /// Begins a poll: it takes all tx responses and at most one packet.
    ///
    /// # Errors
    ///
    /// The first that applies of `Halted` and `Busy`. The front is then as it was.
    pub fn poll(&mut self) -> Result<(), PollRefusal>
        ensures answer { result ≡ poll_answer self.old }
        ensures ok { OnOk result (HasBegun self.old self.new (poll (wiring_of self.old) (state_of self.old))) }
        ensures err { OnErr result (IsSame self.old self.new) }
    {
        // The borrow checker has to see these two types in the body.
        let (_table, _buffers) = (self.wiring.table, self.wiring.tx);
        match self.state.halt {
            Some(_) => return Err(PollRefusal::Halted),
            None => (),
        }
        if is_busy(&self.phase) {
            return Err(PollRefusal::Busy);
        }
        self.phase = begin_poll();
        Ok(())
    }
}
