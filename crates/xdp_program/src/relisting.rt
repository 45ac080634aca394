//! Lists of a program that come from another settings text.
ghost use Rattle.std.specs.Prelude.{◌≡◌, ◌↔◌, IfOk, IfErr, IsTrue, MatchResult};
ghost use Rattle.xdp_load.specs.Listed.{ListedView};
ghost use Rattle.xdp_load.specs.SetupSeen.{setup_view};
ghost use Rattle.xdp_program.specs.Settings.{IsRelisted, IsRelistFault, IsSetupFor, IsSetupOf, relist_out_of_memory};

use crate::fault::RelistFault;
use crate::lists::Lists;
use crate::program::Program;
use crate::reading::read_settings;
use crate::spelled::spells;
use std::alloc::Global;
use xdp_load::{Listed, Setup};

impl Program {
    /// Returns whether a setup is of this program, with the same maps.
    fn is_of(&self, setup: &Setup) -> bool
        ensures { IsTrue result ↔ IsSetupFor self.now (setup_view setup.now) }
    {
        let program = self.verified();
        program.shapes() == setup.shapes.as_slice()
            && spells(program.insns(), setup.program.as_slice())
    }

    /// Returns what [`Program::relisted`] does. That nothing more is refused follows from these clauses.
    fn relist(&self, alloc: Global, text: &[u8]) -> Result<Lists, RelistFault>
        ensures lists { IfOk result (IsRelisted text.now self.now) }
        ensures refused { IfErr result (IsRelistFault text.now self.now) }
    {
        let Listed { setup, lists } = match read_settings(alloc, text) {
            Ok(listed) => listed,
            Err(error) => return Err(RelistFault::Text(error.fault())),
        };
        if !self.is_of(&setup) {
            return Err(RelistFault::Other);
        }
        Ok(Lists::make(alloc, lists)?)
    }

    /// The lists of a settings text, if its program is this one, with the same maps. Nothing is verified. What else the settings
    /// have, as queues and packets, is read and put away.
    pub fn relisted(&self, alloc: Global, text: &[u8]) -> Result<Lists, RelistFault>
        ensures lists { IfOk result (IsRelisted text.now self.now) }
        ensures refused { IfErr result (IsRelistFault text.now self.now) }

        // Nothing more is refused.
        ensures accepted { (x : ListedView) → IsSetupOf text.now x → IsSetupFor self.now x.setup →
            MatchResult result (λ l. l ≡ x.lists) (λ f. f ≡ relist_out_of_memory) }
    {
        self.relist(alloc, text)
    }
}
