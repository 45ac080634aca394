//! Settings that say of which function of an object their program was made.
ghost use Rattle.std.specs.Prelude.{◌≡◌, IfErr, IfOk, IsErrAnd, None, length};
ghost use Rattle.toml.specs.View.{table_view};
ghost use Rattle.xdp_load.specs.Function.{IsBesideOf, beside_of, beside_of_table, function_of, function_of_table, names_object, of_function_of_table};
ghost use Rattle.xdp_load.specs.Function.{listed_in_beside, rows_of_function};
ghost use Rattle.xdp_load.specs.FunctionRows.{function_seen, unsorted_function_seen, unsorted_seen};
ghost use Rattle.xdp_load.specs.FunctionSeen.{IsBesideError, beside_listed, beside_view, function_view};
ghost use Rattle.xdp_load.specs.Gives.{Gives, IsError, in_original};
ghost use Rattle.xdp_load.specs.Listed.{AreListedBelow};
ghost use Rattle.xdp_load.specs.ListedFault.{IsListError};
ghost use Rattle.xdp_load.specs.ListedSeen.{lists_seen};
ghost use Rattle.xdp_load.specs.ListedSound.{IsListedSound};
ghost use Rattle.xdp_load.specs.OriginalRows.{rewritten_seen};
ghost use Rattle.xdp_load.specs.OriginalSeen.{rewritten_view};
ghost use Rattle.xdp_load.specs.Setup.{bytes_in, text_of};
ghost use Rattle.xdp_load.specs.Spot.{refused, whole};
ghost use Rattle.xdp_load.specs.declared.fault.Fault.TheVariants.{Text};
ghost use Rattle.xdp_load.specs.declared.key.Key.TheVariants as key;

use crate::fault::{Fault, LoadError, in_key};
use crate::key::Key;
use crate::keyed_limits::listed_limits;
use crate::kinds::PlaceRow;
use crate::listed::{Listed, listed_setup_of};
use crate::lists::{ListBytes, sorted_lists};
use crate::original::{OriginalPlace, limited_places};
use crate::packets::bytes_in;
use crate::rewritten::{Rewritten, Unsorted, listed_beside, rewritten_of_table};
use crate::rows::rows_at;
use crate::setup::{Setup, document_of, text_of};
use crate::spot::Spot;
use crate::table::{found, has_only, text_at};
use std::alloc::Global;
use toml::{Table, Value};

/// An object's function as it is written.
#[derive(Drop)]
pub struct Function<'a> {
    pub object: &'a str,
    pub function: &'a str,
    pub places: Vec<PlaceRow>,
}

/// The settings beside a function, the keys of their lists as they are written.
#[derive(Drop)]
pub struct UnsortedFunction {
    pub setup: Setup,
    pub lists: Vec<Option<ListBytes>>,
    pub object: Vec<u8>,
    pub function: String,
    pub places: Vec<OriginalPlace>,
}

/// The settings beside a program or a function, the keys of their lists as they are written.
#[derive(Drop)]
pub enum UnsortedBeside {
    Program(Unsorted),
    Function(UnsortedFunction),
}

/// A setup with the lists of its maps, the bytes of an object, the name of the function in it that its program was made of, and a place
/// for each slot. Nobody has to trust the places.
#[derive(Drop)]
pub struct OfFunction {
    pub listed: Listed,
    pub object: Vec<u8>,
    pub function: String,
    pub places: Vec<OriginalPlace>,
}

/// Settings beside what their program was made of.
#[derive(Drop)]
pub enum Beside {
    /// Bytes of a program with the settings' maps.
    Program(Rewritten),
    /// A function of an object.
    Function(OfFunction),
}

/// Returns what a table with known keys says of the function.
#[tactic(auto, unfolding(crate::specs::Function::rows_of_function))]
fn rows_of_function<'a>(alloc: Global, table: &'a Table) -> Result<Function<'a>, LoadError>
    ensures { Gives function_seen result (rows_of_function (table_view table.now)) }
{
    let object = in_key(Fault::Key, text_at(table, Key::Object))?;
    let function = in_key(Fault::Key, text_at(table, Key::Function))?;
    let places = rows_at(alloc, table, Key::Place)?;
    Ok(Function {
        object,
        function,
        places,
    })
}

/// Returns what a table says of the function.
#[tactic(auto, using(crate::proofs::RowLemmas::original_fails), unfolding(crate::specs::Function::function_of_table))]
fn function_of_table<'a>(alloc: Global, table: &'a Table) -> Result<Function<'a>, LoadError>
    ensures { Gives function_seen result (function_of_table (table_view table.now)) }
{
    if !has_only(table, &[Key::Object, Key::Function, Key::Place]) {
        return Err(LoadError::at(Fault::Key, Spot::At(Key::Original)));
    }
    rows_of_function(alloc, table).map_err(LoadError::in_original)
}

/// Returns what a document says of the function.
#[tactic(auto, unfolding(crate::specs::Function::function_of))]
fn function_of<'a>(alloc: Global, table: &'a Table) -> Result<Function<'a>, LoadError>
    ensures { Gives function_seen result (function_of (table_view table.now)) }
{
    match found(table, Key::Original).and_then(Value::as_table) {
        Some(original) => function_of_table(alloc, original),
        None => Err(LoadError::at(Fault::Key, Spot::At(Key::Original))),
    }
}

/// The bytes of the object, or a fault in the original's table.
#[tactic(auto, using(crate::proofs::RowLemmas::original_fails))]
fn object_in(alloc: Global, text: &str) -> Result<Vec<u8>, LoadError>
    ensures { Gives (λ v. v.items) result (in_original (bytes_in key.Object 0 text.now)) }
{
    bytes_in(alloc, Key::Object, 0, text).map_err(LoadError::in_original)
}

/// Returns what a document says beside its function.
#[tactic(auto, unfolding(crate::specs::Function::of_function_of_table))]
fn of_function_of_table(alloc: Global, table: &Table) -> Result<UnsortedFunction, LoadError>
    ensures { Gives unsorted_function_seen result (of_function_of_table (table_view table.now)) }
{
    let written_function = function_of(alloc, table)?;
    let written = listed_beside(alloc, table)?;
    let places = limited_places(alloc, written_function.places.as_slice())?;
    let limits = listed_limits(alloc, &written)?;
    let listed = listed_setup_of(alloc, &written, limits)?;
    let object = object_in(alloc, written_function.object)?;
    let function = String::from_str(alloc, written_function.function)?;
    Ok(UnsortedFunction {
        setup: listed.setup,
        lists: listed.lists,
        object,
        function,
        places,
    })
}

/// Returns whether the original's table names an object.
fn names_object(table: &Table) -> bool
    ensures { result ≡ names_object (table_view table.now) }
{
    match found(table, Key::Original).and_then(Value::as_table) {
        Some(original) => found(original, Key::Object).is_some(),
        None => false,
    }
}

/// Returns what a document says.
#[tactic(auto, unfolding(crate::specs::Function::beside_of_table))]
fn beside_of_table(alloc: Global, table: &Table) -> Result<UnsortedBeside, LoadError>
    ensures { Gives unsorted_seen result (beside_of_table (table_view table.now)) }
{
    if names_object(table) {
        Ok(UnsortedBeside::Function(of_function_of_table(alloc, table)?))
    } else {
        Ok(UnsortedBeside::Program(rewritten_of_table(alloc, table)?))
    }
}

/// The parts of a text with an original, read phase by phase.
#[tactic(auto, unfolding(crate::specs::Function::beside_of))]
fn beside_of(alloc: Global, bytes: &[u8]) -> Result<UnsortedBeside, LoadError>
    ensures gives { Gives unsorted_seen result (beside_of bytes.now) }
    ensures text { text_of bytes.now ≡ None → IsErrAnd result (IsError (refused Text whole)) }
{
    let text = text_of(bytes).ok_or(LoadError::at(Fault::Text, Spot::Text))?;
    let table = document_of(alloc, text)?;
    beside_of_table(alloc, &table)
}

/// The settings beside a program, their lists sorted.
fn sorted_program(alloc: Global, program: Unsorted) -> Result<Rewritten, LoadError>
    ensures value { IfOk result (λ r. rewritten_view r ≡ rewritten_seen program) }
    ensures listed { IfOk result (λ r. AreListedBelow r.listed.lists.items (length r.listed.lists.items)) }
    ensures refused { IfErr result (IsListError (lists_seen program.lists.items)) }
{
    let lists = sorted_lists(alloc, program.lists.as_slice())?;
    let listed = Listed {
        setup: program.setup,
        lists,
    };
    Ok(Rewritten {
        listed,
        original: program.original,
        places: program.places,
    })
}

/// The settings beside a function, their lists sorted.
fn sorted_function(alloc: Global, function: UnsortedFunction) -> Result<OfFunction, LoadError>
    ensures value { IfOk result (λ x. function_view x ≡ unsorted_function_seen function) }
    ensures listed { IfOk result (λ x. AreListedBelow x.listed.lists.items (length x.listed.lists.items)) }
    ensures refused { IfErr result (IsListError (lists_seen function.lists.items)) }
{
    let lists = sorted_lists(alloc, function.lists.as_slice())?;
    let listed = Listed {
        setup: function.setup,
        lists,
    };
    Ok(OfFunction {
        listed,
        object: function.object,
        function: function.function,
        places: function.places,
    })
}

/// The settings, their lists sorted.
fn sorted(alloc: Global, unsorted: UnsortedBeside) -> Result<Beside, LoadError>
    ensures value { IfOk result (λ b. beside_view b ≡ unsorted_seen unsorted) }
    ensures listed { IfOk result (λ b. AreListedBelow (beside_listed b).lists (length (beside_listed b).lists)) }
    ensures refused { IfErr result (IsListError (listed_in_beside (unsorted_seen unsorted)).lists) }
{
    match unsorted {
        UnsortedBeside::Program(program) => Ok(Beside::Program(sorted_program(alloc, program)?)),
        UnsortedBeside::Function(function) => {
            Ok(Beside::Function(sorted_function(alloc, function)?))
        }
    }
}

/// The settings of a text and what their program was made of, or a fault and its spot: that of the phase that comes first, the original's
/// hex and relocations after the settings' own, and the rows of lists last. docs/SETTINGS.md has the keys.
#[tactic(auto, using(crate::proofs::FunctionLemmas::unread, crate::proofs::FunctionLemmas::unlisted, crate::proofs::FunctionLemmas::sorted_sound))]
pub fn load_beside(alloc: Global, bytes: &[u8]) -> Result<Beside, LoadError>
    ensures value { IfOk result (λ b. IsBesideOf bytes.now (beside_view b)) }
    ensures refused { IfErr result (IsBesideError bytes.now) }

    // What is no text is refused before memory is taken.
    ensures text { text_of bytes.now ≡ None → IsErrAnd result (IsError (refused Text whole)) }
    ensures sound { IfOk result (λ b. IsListedSound (beside_listed b)) }
{
    let unsorted = beside_of(alloc, bytes)?;
    sorted(alloc, unsorted)
}
