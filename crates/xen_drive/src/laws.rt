//! Whoever makes the accesses of each op, in order, and steps with the words that it has read, has made the whole.

ghost use Rattle.std.specs.Prelude.{ℕ, ◌≡◌, List, true};
ghost use Rattle.xen_netif.specs.declared.offload.RxOffload.{RxOffload};
ghost use Rattle.xen_page.specs.Access.{Performs};
ghost use Rattle.xen_steps.specs.Drive.{accesses};
ghost use Rattle.xen_turns.specs.declared.delivery.delivering.Delivery.{Delivery};
ghost use Rattle.xen_turns.specs.declared.delivery.wait.Awaited.{Awaited};
ghost use Rattle.xen_turns.specs.declared.turn.Kind.{Kind};
ghost use Rattle.xen_host.specs.Asks.{DeliveryOver, TurnOver, WaitOver, did_all, is_over};
ghost use Rattle.xen_host.specs.declared.queue.Queue.{Queue};
ghost use Rattle.xen_drive.specs.Driven.{BeginsDelivery, BeginsTurn, BeginsWait, HasAwaited, HasDelivered, HasTurned};
ghost use Rattle.xen_drive.specs.Hosts.{Held, StepsBy};

use xen_page::Bus;

/// A host that begins a turn, makes the accesses that it is asked for, and steps has made a turn once the last op says that it is over,
/// however many ops it takes at a time: its accesses are those of a row of the table of turns.
pub fn turns_are_made<B: Bus>()
    ensures { (old : Queue) (bus bus' : B) (before : List ℕ) (h h' : Held B) (n : ℕ) →
        BeginsTurn B.log B.access_gives old bus before h → StepsBy B.log B.access_gives n h h' → is_over h'.last ≡ true →
        Performs B.log B.access_gives h'.bus (accesses (did_all h'.first h'.lent)) bus' →
        (kind : Kind) × (h'.last ≡ TurnOver kind) ×
        HasTurned B.log B.access_gives old h'.queue kind bus bus' before h'.counters }
{}

/// So it is of a delivery.
pub fn deliveries_are_made<B: Bus>()
    ensures { (old : Queue) (o : RxOffload) (packet : List ℕ) (bus bus' : B) (before : List ℕ) (h h' : Held B) (n : ℕ) →
        BeginsDelivery B.log B.access_gives old o packet bus before h → StepsBy B.log B.access_gives n h h' → is_over h'.last ≡ true →
        Performs B.log B.access_gives h'.bus (accesses (did_all h'.first h'.lent)) bus' →
        (what : Delivery) × (h'.last ≡ DeliveryOver what) ×
        HasDelivered B.log B.access_gives old h'.queue o packet what bus bus' before h'.counters }
{}

/// And of a wait.
pub fn waits_are_made<B: Bus>()
    ensures { (old : Queue) (pages : ℕ) (bus bus' : B) (before : List ℕ) (h h' : Held B) (n : ℕ) →
        BeginsWait old pages bus before h → StepsBy B.log B.access_gives n h h' → is_over h'.last ≡ true →
        Performs B.log B.access_gives h'.bus (accesses (did_all h'.first h'.lent)) bus' →
        (what : Awaited) × (h'.last ≡ WaitOver what) ×
        HasAwaited B.log B.access_gives old h'.queue pages what bus bus' before h'.counters }
{}
