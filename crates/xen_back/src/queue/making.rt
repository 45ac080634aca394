//! Making a queue.

ghost use Rattle.std.specs.Prelude.{◌≡◌};
ghost use Rattle.xen_page.specs.Mapping.{IsMappedBy};
ghost use Rattle.xen_page.specs.Table.{IsTable};
ghost use Rattle.xen_page.specs.declared.entry.Rights.TheVariants.{ReadWrite};
ghost use Rattle.xen_back.specs.Making.{IsMade, IsResumed};

use crate::by_event::phase::Phase;
use crate::by_event::stage::Stage;
use crate::copy_buf::CopyBuf;
use crate::desc::QueueDesc;
use crate::queue::Queue;
use bpf_lists::MapList;
use bpf_verify::Verified;
use bpf_vm::Buffer;
use xen_host::Engine;
use xen_rx_fill::Vif;
use xen_turns::{State, Wiring};

impl<'p, 'b> Queue<'p, 'b> {
    /// A queue between turns, which keeps its packets in the buffer. The lists are those of the program's maps, by the maps'
    /// numbers.
    pub fn make(
        program: &'p Verified,
        lists: &'p [Option<MapList>],
        desc: QueueDesc<'p>,
        buffer: &'b mut Buffer,
    ) -> Queue<'p, 'b>
        requires tx { IsMappedBy desc.owners.now desc.granter desc.tx }
        requires rx { IsMappedBy desc.owners.now desc.granter desc.rx }
        requires writable { (desc.tx.rights ≡ ReadWrite) × (desc.rx.rights ≡ ReadWrite) }
        requires table { IsTable desc.owners.now desc.granter desc.table.now }
        ensures { IsMade program.now lists.now desc.entry result }
    {
        let state = State {
            tx_index: desc.start,
            rx_index: desc.start,
            halt: None,
        };
        Queue::resume(program, lists, desc, state, buffer)
    }

    /// A queue that goes on where another one over the same rings ended, maybe with another program: `state` is what that one's
    /// [`Queue::state`] was between turns. The description's `start` isn't looked at; a queue that had halted stays halted.
    pub fn resume(
        program: &'p Verified,
        lists: &'p [Option<MapList>],
        desc: QueueDesc<'p>,
        state: State,
        buffer: &'b mut Buffer,
    ) -> Queue<'p, 'b>
        requires tx { IsMappedBy desc.owners.now desc.granter desc.tx }
        requires rx { IsMappedBy desc.owners.now desc.granter desc.rx }
        requires writable { (desc.tx.rights ≡ ReadWrite) × (desc.rx.rights ≡ ReadWrite) }
        requires table { IsTable desc.owners.now desc.granter desc.table.now }
        ensures { IsResumed program.now lists.now desc.entry state result }
    {
        // Only the proof uses what this call ensures: every accepted program is consistent.
        program.instructions();
        let vif = Vif {
            tx: desc.tx.frame(),
            rx: desc.rx.frame(),
            table: desc.table,
            owners: desc.owners,
            granter: desc.granter,
            user: desc.user,
            port: desc.port,
        };
        let wiring = Wiring {
            vif,
            offers: desc.offers,
            accepts: desc.accepts,
            program,
            lists,
            ifindex: desc.ifindex,
            queue: desc.queue,
        };
        let stage = Stage::At(CopyBuf::empty(buffer), Phase::Ready);
        Queue {
            wiring,
            tx_ring: desc.tx,
            rx_ring: desc.rx,
            engine: Engine::new(state),
            stage: Some(stage),
        }
    }
}
