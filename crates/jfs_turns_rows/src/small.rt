//! A volume that is a list of lines, and a log side that is counts.
ghost use Rattle.std.specs.Prelude.{◌≡◌, ◌≤◌, ◌+◌, [], ◌∷◌, ◌++◌, length, max, OnOk, OnErr};

use jfs_turns::{HasClient, Stands};
use std::alloc::{AllocError, Global};

/// An entry: the number-th line of its client.
#[derive(Clone, Copy, Drop)]
pub struct Line {
    pub client: u32,
    pub number: u32,
}

impl HasClient for Line {
    ghost client = { λ e. e.client };
}

/// A list of lines, how many of them are taken and acknowledged, and syncpoints, of which some are known to be stable.
#[derive(Drop)]
pub struct SmallVolume {
    pub lines: Vec<Line>,
    pub taken: u64,
    pub told: u64,
    pub points: Vec<u64>,
    pub known: u64,
}

impl Stands<Line> for SmallVolume {
    ghost use Rattle.std.specs.Prelude.{◌≡◌, length};

    ghost stands = { λ v base list taken durable points stable. (base ≡ []) × (v.lines.items ≡ list) × (v.taken ≡ taken) × (v.told ≡ durable) × (v.points.items ≡ points) × (v.known ≡ stable) };

    ghost count = { λ v. length v.points.items };

    fn syncpoints(&self) -> u64 {
        self.points.len() as u64
    }
}

/// How many entries are taken and durable, and how many syncpoints are stable.
#[derive(Drop)]
pub struct SmallLog {
    pub taken: u64,
    pub durable: u64,
    pub stable: u64,
}

impl Stands<Line> for SmallLog {
    ghost use Rattle.std.specs.Prelude.{◌≡◌};

    ghost stands = { λ l base list taken durable points stable. (base ≡ []) × (l.taken ≡ taken) × (l.durable ≡ durable) × (l.stable ≡ stable) };

    ghost count = { λ l. l.stable };

    fn syncpoints(&self) -> u64 {
        self.stable
    }
}

impl SmallVolume {
    /// A volume with no line.
    pub fn new(alloc: Global) -> SmallVolume
        ensures { (result.lines.items ≡ []) × (result.taken ≡ 0) × (result.told ≡ 0) × (result.points.items ≡ []) × (result.known ≡ 0) }
    {
        SmallVolume {
            lines: Vec::new(alloc),
            taken: 0,
            told: 0,
            points: Vec::new(alloc),
            known: 0,
        }
    }
}

impl SmallLog {
    /// A log with nothing in it.
    pub fn new() -> SmallLog
        ensures { (result.taken ≡ 0) × (result.durable ≡ 0) × (result.stable ≡ 0) }
    {
        SmallLog {
            taken: 0,
            durable: 0,
            stable: 0,
        }
    }
}
