//! The packets that a front has still to send.
ghost use Rattle.std.specs.Prelude.{◌≡◌, ◌<◌, IsSome, drop, option_map, slice_get};
ghost use Rattle.thread_pair.specs.Sending.{IsNext, left_of, still_to_send};

use xdp_load::SentPacket;

/// The packets of a queue, in order, each as often as it is to be sent.
#[derive(Drop)]
pub(crate) struct Outbox<'p> {
    queue: usize,
    left: &'p [SentPacket],
    /// The number of times the first of them was sent.
    sent: u32,
}

impl<'p> Outbox<'p> {
    pub fn new(queue: usize, packets: &'p [SentPacket]) -> Outbox<'p>
        ensures { still_to_send result ≡ left_of queue 0 packets.now }
    {
        Outbox {
            queue,
            left: packets,
            sent: 0,
        }
    }

    /// The next packet, if one is left.
    pub fn next(&mut self) -> Option<&'p [u8]>
        ensures same { still_to_send self.new ≡ still_to_send self.old }
        ensures first { option_map (λ b. b.now) result ≡ slice_get (still_to_send self.old) 0 }
        ensures next { IsNext self.new }
        ensures counts { IsSome result → self.new.sent < 4294967295 }
    {
        while let Some((packet, later)) = self.left.split_first() {
            if packet.queue == self.queue && self.sent < packet.times {
                return Some(packet.bytes.as_slice());
            }
            self.left = later;
            self.sent = 0;
        }
        None
    }

    /// The next packet was sent, or can't be.
    pub fn pass(&mut self)
        ensures { IsNext self.old → self.old.sent < 4294967295 → still_to_send self.new ≡ drop 1 (still_to_send self.old) }
    {
        self.sent = self.sent.saturating_add(1);
    }
}
