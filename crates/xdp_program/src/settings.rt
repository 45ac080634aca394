//! Programs of settings texts, with their lists.
ghost use Rattle.std.specs.Prelude.{◌≡◌, ◌≤◌, List, IfOk, IfErr, MatchResult, length, map, string_bytes, vec_len};
ghost use Rattle.bpf_insn.specs.Code.{Spells};
ghost use Rattle.bpf_insn.specs.declared.insn.Insn.{Insn};
ghost use Rattle.bpf_note.specs.Shape.{most_maps};
ghost use Rattle.bpf_verify.specs.FirstRefusal.{IsFaultless};
ghost use Rattle.xdp_load.specs.Listed.{ListedView};
ghost use Rattle.xdp_program.specs.Refused.{IsRefused};
ghost use Rattle.xdp_program.specs.Settings.{AreListsOf, AreNamesOf, IsProgramOf, IsSettingsFault, IsSettingsOutOfMemory, IsSetupOf};

use crate::fault::{LoadFault, SettingsFault};
use crate::lists::Lists;
use crate::names::MapNames;
use crate::program::Program;
use crate::reading::read_settings;
use bpf_verify::faultless_programs_are_accepted;
use std::alloc::Global;
use xdp_load::{Listed, Setup};

/// The program of a settings text, and the names and the lists of its maps.
#[derive(Drop)]
pub struct NamedProgram {
    pub program: Program,
    pub names: MapNames,
    pub lists: Lists,
}

/// Accepts the program of a setup with its maps, which have the setup's names and lists.
#[tactic(auto, using(crate::proofs::LoadLemmas::out_of_memory_refused))]
fn named(alloc: Global, listed: Listed) -> Result<NamedProgram, LoadFault>
    ensures spelled { IfOk result (λ n. Spells n.program.code listed.setup.program.items) }
    ensures shapes { IfOk result (λ n. n.program.shapes ≡ listed.setup.shapes.items) }
    ensures faultless { IfOk result (λ n. IsFaultless n.program.code listed.setup.shapes.items) }
    ensures few { IfOk result (λ _. vec_len listed.setup.shapes ≤ most_maps) }
    ensures names { IfOk result (λ n. n.names ≡ map string_bytes listed.setup.names.items) }
    ensures lists { IfOk result (λ n. n.lists ≡ listed.lists.items) }
    ensures refused { IfErr result (IsRefused listed.setup.program.items listed.setup.shapes.items) }
{
    let Listed { setup, lists } = listed;
    let Setup {
        program,
        shapes,
        names,
        ..
    } = setup;
    let program = Program::load(alloc, program.as_slice(), shapes.as_slice())?;
    let names = MapNames::of(alloc, names)?;
    let lists = Lists::make(alloc, lists)?;
    Ok(NamedProgram {
        program,
        names,
        lists,
    })
}

/// Returns what [`load_settings`] does. That nothing more is refused follows from these clauses.
#[tactic(auto, using(crate::proofs::SettingsLemmas::fault_seen))]
fn accept(alloc: Global, text: &[u8]) -> Result<NamedProgram, SettingsFault>
    ensures program { IfOk result (λ n. IsProgramOf text.now n.program) }
    ensures names { IfOk result (λ n. AreNamesOf text.now n.names) }
    ensures lists { IfOk result (λ n. AreListsOf text.now n.lists) }
    ensures few { IfOk result (λ n. length n.program.shapes ≤ most_maps) }
    ensures refused { IfErr result (IsSettingsFault text.now) }
{
    match read_settings(alloc, text) {
        Ok(listed) => match named(alloc, listed) {
            Ok(named) => Ok(named),
            Err(fault) => Err(SettingsFault::Program(fault)),
        },
        Err(error) => Err(SettingsFault::Text(error.fault())),
    }
}

/// Accepts the program of a settings text with its maps, or says why not. What else the settings have, as queues and
/// packets, is read and put away. docs/SETTINGS.md has the keys.
pub fn load_settings(alloc: Global, text: &[u8]) -> Result<NamedProgram, SettingsFault>
    ensures program { IfOk result (λ n. IsProgramOf text.now n.program) }
    ensures names { IfOk result (λ n. AreNamesOf text.now n.names) }
    ensures lists { IfOk result (λ n. AreListsOf text.now n.lists) }
    ensures few { IfOk result (λ n. length n.program.shapes ≤ most_maps) }
    ensures refused { IfErr result (IsSettingsFault text.now) }

    // Nothing more is refused.
    ensures accepted { (x : ListedView) (code : List Insn) → IsSetupOf text.now x → Spells code x.setup.program →
        IsFaultless code x.setup.shapes →
        MatchResult result (λ n. (n.program.code ≡ code) × (n.program.shapes ≡ x.setup.shapes)) IsSettingsOutOfMemory }
{
    faultless_programs_are_accepted();
    accept(alloc, text)
}
