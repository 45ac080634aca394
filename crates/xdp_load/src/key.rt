//! The keys of settings, and what is allowed at each.
ghost use Rattle.std.specs.Prelude.{◌≡◌, option_map};
ghost use Rattle.xdp_load.specs.Keys.{allowed, least, list_name, missing, most, name, part_name};

/// A key of the settings. `Map`, `WideMap`, `Reloc`, `Step`, `Packet` and `Place` are a list, or one of its rows, as a whole.
/// `WideMap` and `WideEntries` are `map` and its `entries` where wider limits are asked for, `ConstantSize` is its `size` of constants.
#[derive(Clone, Copy, Debug, PartialEq, Eq)]
pub enum Key {
    Program,
    Queues,
    IfIndex,
    Start,
    Map,
    Name,
    Entries,
    Counters,
    Reloc,
    Slot,
    OfMap,
    Step,
    StepQueue,
    Answer,
    Packet,
    PacketQueue,
    Bytes,
    Times,
    Original,
    Place,
    Wide,
    WideMap,
    WideEntries,
    KeyKind,
    KeySize,
    ConstantSize,
    Rows,
    Values,
    Parts,
    Object,
    Function,
}

impl Key {
    /// The key of the document that it is, or that holds the rows in which it is.
    pub fn list_name(self) -> &'static str
        ensures { result.now ≡ list_name self }
    {
        match self {
            Key::Program => "program",
            Key::Queues => "queues",
            Key::IfIndex => "ifindex",
            Key::Start => "start",
            Key::Map | Key::WideMap | Key::Name | Key::Entries | Key::WideEntries | Key::Counters =>
                "map",
            Key::KeyKind | Key::KeySize | Key::ConstantSize | Key::Rows => "map",
            Key::Values | Key::Parts => "map",
            Key::Reloc | Key::Slot | Key::OfMap => "reloc",
            Key::Step | Key::StepQueue | Key::Answer => "script",
            Key::Packet | Key::PacketQueue | Key::Bytes | Key::Times => "packet",
            Key::Original => "original",
            Key::Place => "places",
            Key::Wide => "wide",
            Key::Object => "object",
            Key::Function => "function",
        }
    }

    /// The key within a row, or the part of a step.
    pub fn part_name(self) -> Option<&'static str>
        ensures { option_map (λ s. s.now) result ≡ part_name self }
    {
        match self {
            Key::Name => Some("name"),
            Key::Entries | Key::WideEntries => Some("entries"),
            Key::Counters => Some("counters"),
            Key::Slot => Some("slot"),
            Key::OfMap => Some("map"),
            Key::StepQueue | Key::PacketQueue => Some("queue"),
            Key::Answer => Some("answer"),
            Key::Bytes => Some("bytes"),
            Key::Times => Some("times"),
            Key::KeyKind => Some("key"),
            Key::KeySize | Key::ConstantSize => Some("size"),
            Key::Rows => Some("rows"),
            Key::Values => Some("values"),
            Key::Parts => Some("parts"),
            _ => None,
        }
    }

    /// The key as it is written in its table.
    pub fn name(self) -> &'static str
        ensures { result.now ≡ name self }
    {
        match self.part_name() {
            Some(part) => part,
            None => self.list_name(),
        }
    }

    /// The least number that is allowed there.
    pub fn least(self) -> u32
        ensures { result ≡ least self }
    {
        match self {
            Key::Queues | Key::Entries | Key::Counters | Key::Times => 1,
            Key::WideEntries | Key::KeySize | Key::ConstantSize => 1,
            _ => 0,
        }
    }

    /// The greatest number that is allowed there.
    pub fn most(self) -> u32
        ensures { result ≡ most self }
    {
        match self {
            Key::Queues | Key::Counters => 8,
            Key::Entries => 1024,
            Key::Times => 100_000,
            Key::WideEntries | Key::ConstantSize => 65_536,
            Key::KeySize => 64,
            _ => u32::MAX,
        }
    }

    /// The number that it has where it is left out, if it may be.
    pub fn missing(self) -> Option<i64>
        ensures { result ≡ missing self }
    {
        match self {
            Key::Queues | Key::Counters | Key::Times => Some(1),
            Key::IfIndex | Key::Start => Some(0),
            Key::KeySize => Some(4),
            _ => None,
        }
    }

    /// Returns what is allowed there.
    pub fn allowed(self) -> &'static str
        ensures { result.now ≡ allowed self }
    {
        match self {
            Key::Program => "a list of hex texts, each with whole bytes (required)",
            Key::Queues => "a whole number, 1 to 8",
            Key::IfIndex | Key::Start | Key::Answer => "a whole number, 0 to 4294967295",
            Key::Map =>
                "at most four tables, each with name, entries and, optionally, counters and values",
            Key::Name => "a text of 1 to 32 bytes, no other map's (required)",
            Key::Entries => "a whole number, 1 to 1024 (required)",
            Key::Counters => "a whole number, 1 to 8",
            Key::Reloc => "tables, each with slot and map",
            Key::Slot =>
                "the number of a slot that holds a wide load, no other relocation's (required)",
            Key::OfMap => "the name of a map (required)",
            Key::Step => "steps, each of two whole numbers: a queue and an answer",
            Key::StepQueue => "a whole number below queues",
            Key::Packet => "tables, each with queue, bytes and, optionally, times",
            Key::PacketQueue => "a whole number below queues (required)",
            Key::Bytes => "a hex text of 14 to 65535 bytes (required)",
            Key::Times => "a whole number, 1 to 100000",
            Key::Original =>
                "a table with places, and program and reloc, or object and function (required)",
            Key::Object => "a hex text of the bytes of an object (required)",
            Key::Function => "the name of a function of the object (required)",
            Key::Place => "places, each of a whole number, 0 to 4294967295, and true or false",
            Key::Wide | Key::Parts => "true or false",
            Key::WideMap =>
                "at most 16 tables, each with name, entries and, optionally, counters, values, key, size, rows and parts",
            Key::WideEntries => "a whole number, 1 to 65536 (required)",
            Key::KeyKind => "index, exact, prefix or constants",
            Key::KeySize => "a whole number, 1 to 64; of an index 4",
            Key::ConstantSize => "a whole number, 1 to 65536",
            Key::Rows =>
                "hex texts, each a key of the map, none twice, at most as many as entries; of an index none; of constants one, their bytes",
            Key::Values =>
                "whole numbers, each 0 to 9223372036854775807, at most as many as the map has counters; of constants none",
        }
    }
}

/// The keys of a document.
pub const TOP_KEYS: [Key; 8] = [
    Key::Program,
    Key::Queues,
    Key::IfIndex,
    Key::Start,
    Key::Map,
    Key::Reloc,
    Key::Step,
    Key::Packet,
];

/// The keys of a document whose maps may have lists.
pub const LISTED_KEYS: [Key; 9] = [
    Key::Program,
    Key::Queues,
    Key::IfIndex,
    Key::Start,
    Key::Map,
    Key::Reloc,
    Key::Step,
    Key::Packet,
    Key::Wide,
];

/// The keys of a document that has its original beside them.
pub const REWRITTEN_KEYS: [Key; 10] = [
    Key::Original,
    Key::Program,
    Key::Queues,
    Key::IfIndex,
    Key::Start,
    Key::Map,
    Key::Reloc,
    Key::Step,
    Key::Packet,
    Key::Wide,
];
