// The keys of an airport file, in the order in which they are read.
ghost use Rattle.std.specs.Prelude.{◌≡◌, IfOk};
ghost use Rattle.airport_files.specs.Words.{head_word, frontage_word, stand_word, pair_word, key_text};

use apron_base::{Listed, Memory};
use std::alloc::Global;

/// The keys of the table `airport`.
#[derive(Clone, Copy, Debug, PartialEq, Eq)]
pub(crate) enum HeadKey {
    Station,
    FirstDay,
    Days,
    TaxiIn,
    Tow,
}

/// The keys of a frontage.
#[derive(Clone, Copy, Debug, PartialEq, Eq)]
pub(crate) enum FrontageKey {
    Name,
    Objects,
}

/// The keys of a stand.
#[derive(Clone, Copy, Debug, PartialEq, Eq)]
pub(crate) enum StandKey {
    Name,
    Frontage,
    Centre,
    Letter,
    Buffer,
    HalfOf,
}

/// The keys of a pair restriction.
#[derive(Clone, Copy, Debug, PartialEq, Eq)]
pub(crate) enum PairKey {
    A,
    La,
    B,
    Lb,
}

/// A key of the file. Frontages, stands and pair restrictions are counted from 1.
#[derive(Clone, Copy, Debug, PartialEq, Eq)]
pub(crate) enum FileKey {
    Airport,
    Head(HeadKey),
    Frontages,
    Frontage(usize, FrontageKey),
    Stands,
    Stand(usize, StandKey),
    Pairs,
    Pair(usize, PairKey),
}

/// The first fault along the keys, or a lack of memory.
#[derive(Clone, Copy, Debug, PartialEq, Eq)]
pub(crate) enum WalkFault {
    Missing(FileKey),
    Wrong(FileKey),
    Memory,
}

impl HeadKey {
    /// The key as the file spells it.
    pub(crate) fn word(self) -> &'static str
        ensures text { result.now ≡ head_word self }
    {
        match self {
            HeadKey::Station => "station",
            HeadKey::FirstDay => "first_day",
            HeadKey::Days => "days",
            HeadKey::TaxiIn => "taxi_in",
            HeadKey::Tow => "tow",
        }
    }
}

impl FrontageKey {
    /// The key as the file spells it.
    pub(crate) fn word(self) -> &'static str
        ensures text { result.now ≡ frontage_word self }
    {
        match self {
            FrontageKey::Name => "name",
            FrontageKey::Objects => "objects",
        }
    }
}

impl StandKey {
    /// The key as the file spells it.
    pub(crate) fn word(self) -> &'static str
        ensures text { result.now ≡ stand_word self }
    {
        match self {
            StandKey::Name => "name",
            StandKey::Frontage => "frontage",
            StandKey::Centre => "centre",
            StandKey::Letter => "letter",
            StandKey::Buffer => "buffer",
            StandKey::HalfOf => "half_of",
        }
    }
}

impl PairKey {
    /// The key as the file spells it.
    pub(crate) fn word(self) -> &'static str
        ensures text { result.now ≡ pair_word self }
    {
        match self {
            PairKey::A => "a",
            PairKey::La => "la",
            PairKey::B => "b",
            PairKey::Lb => "lb",
        }
    }
}

/// The text by which a fault names a key, as `airport.tow` or `stand 3.letter`.
pub(crate) fn key_text(alloc: Global, key: FileKey) -> Result<Listed<u8>, Memory>
    ensures text { IfOk result (λ text. text ≡ key_text key) }
{
    let text = match key {
        FileKey::Airport => format!(in alloc; "airport")?,
        FileKey::Head(word) => format!(in alloc; "airport.{}", word.word())?,
        FileKey::Frontages => format!(in alloc; "frontage")?,
        FileKey::Frontage(k, word) => format!(in alloc; "frontage {}.{}", k, word.word())?,
        FileKey::Stands => format!(in alloc; "stand")?,
        FileKey::Stand(k, word) => format!(in alloc; "stand {}.{}", k, word.word())?,
        FileKey::Pairs => format!(in alloc; "pair")?,
        FileKey::Pair(k, word) => format!(in alloc; "pair {}.{}", k, word.word())?,
    };
    Ok(Listed::from_vec(text.into_bytes()))
}
