// What a crash may leave of a file.
use kept_disk::DiskCall;
use std::alloc::{AllocError, Global};

/// What stands in the ranges that were given to writes since the last sync.
#[derive(Clone, Copy)]
pub(crate) enum Filling {
    Zeros,
    Ones,
    Before,
    After,
    Any,
    Mixed,
}

/// Each filling.
pub(crate) const FILLINGS: [Filling; 6] = [
    Filling::Zeros,
    Filling::Ones,
    Filling::Before,
    Filling::After,
    Filling::Any,
    Filling::Mixed,
];

/// Bytes that are drawn.
#[derive(Drop)]
pub(crate) struct Chance {
    state: u64,
}

impl Chance {
    pub(crate) fn new(seed: u64) -> Self {
        Chance { state: seed }
    }

    fn draw(&mut self) -> u8 {
        self.state ^= self.state << 13;
        self.state ^= self.state >> 7;
        self.state ^= self.state << 17;
        let [first, ..] = self.state.to_le_bytes();
        first
    }
}

/// A file at a moment: its bytes at the last sync, the calls since then, and what a read gives.
#[derive(Clone, Copy)]
pub(crate) struct Moment<'a> {
    kept: &'a [u8],
    given: &'a [DiskCall],
    seen: &'a [u8],
}

/// The moment after these calls on a file that was empty.
pub(crate) fn moment_after<'a>(calls: &'a [DiskCall], seen: &'a [u8]) -> Moment<'a> {
    let mut moment = Moment {
        kept: &[],
        given: calls,
        seen,
    };
    for (number, call) in calls.iter().enumerate() {
        if let DiskCall::Kept(bytes) = call {
            moment.kept = bytes;
            moment.given = calls.get(number + 1..).unwrap_or(&[]);
        }
    }
    moment
}

// Whether this call gave the byte at this place to a write.
fn gives(call: &DiskCall, place: u64) -> bool {
    match call {
        DiskCall::Gave { from, count } => *from <= place && place - *from < *count,
        DiskCall::Kept(_) => false,
    }
}

// Where the bytes end that this call gave to a write.
fn end_of(call: &DiskCall) -> u64 {
    match call {
        DiskCall::Gave { from, count } => from.saturating_add(*count),
        DiskCall::Kept(_) => 0,
    }
}

impl Moment<'_> {
    fn reach(&self) -> usize {
        let mut reach = self.kept.len() as u64;
        for call in self.given {
            reach = reach.max(end_of(call));
        }
        reach as usize
    }

    /// Four lengths that a crash may leave: the least, the greatest, and two between them.
    pub(crate) fn lengths(&self) -> [usize; 4] {
        let (least, most) = (self.kept.len(), self.reach());
        let more = most.saturating_sub(least);
        [
            least,
            least.saturating_add(more / 3),
            most.saturating_sub(more / 3),
            most,
        ]
    }

    fn is_given(&self, place: usize) -> bool {
        self.given.iter().any(|call| gives(call, place as u64))
    }

    // The byte that this filling leaves at a place.
    fn byte(&self, place: usize, filling: Filling, chance: &mut Chance) -> u8 {
        let before = self.kept.get(place).copied().unwrap_or(0);
        if place < self.kept.len() && !self.is_given(place) {
            return before;
        }
        let after = self.seen.get(place).copied().unwrap_or(0);
        match filling {
            Filling::Zeros => 0,
            Filling::Ones => 1,
            Filling::Before => before,
            Filling::After => after,
            Filling::Any => chance.draw(),
            Filling::Mixed if chance.draw() < 128 => before,
            Filling::Mixed => after,
        }
    }

    /// What a crash may leave, of this length and filled so.
    pub(crate) fn image(
        &self,
        alloc: Global,
        length: usize,
        filling: Filling,
        chance: &mut Chance,
    ) -> Result<Vec<u8>, AllocError> {
        let mut bytes = Vec::new(alloc);
        for place in 0..length {
            bytes.push(self.byte(place, filling, chance))?;
        }
        Ok(bytes)
    }
}
