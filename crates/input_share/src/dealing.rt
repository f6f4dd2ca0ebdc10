// The dealer.
ghost use Rattle.std.specs.Prelude.{◌≡◌, ◌≤◌, ◌<◌, ◌*◌, ◌^◌, ℕ, List, All, length, map, drop, IfOk, IfErr, OnOk};
ghost use Rattle.proto_core.specs.declared.party.Number.TheVariants.{One, Two, Three};
ghost use Rattle.value_file.specs.Values.{type_of, count_of, shape_of};
ghost use Rattle.input_share.specs.Values.{ring_of, shared_size, shared_words};
ghost use Rattle.input_share.specs.Dealing.{left_of, share_of, part_of, draws_of, need_of, dealt_entry, dealt_entries, dealt};
ghost use Rattle.input_share.specs.Refusal.{Refuses};
ghost use Rattle.input_share.specs.declared.dealing.DealErr.TheVariants.{Memory};

use crate::entry::{Part, ShareEntry, Shared};
use crate::share_file::ShareFile;
use crate::values::{count, shared_size, shared_words};
use proto_core::{AddRing, Number, ShareRing, XorRing};
use std::alloc::{AllocError, Global};
use value_file::{DataType, Domain, Entry, Inputs, Value, Words};

/// The share files of miners 1, 2 and 3.
pub struct Dealt {
    pub first: ShareFile,
    pub second: ShareFile,
    pub third: ShareFile,
}

// Written out, so that an early exit calls this once.
impl Drop for Dealt {
    fn drop(self) {
        let Dealt {
            first: _,
            second: _,
            third: _,
        } = self;
    }
}

/// Why inputs are not dealt.
#[derive(Clone, Copy, Debug)]
pub enum DealErr {
    /// The dealer has fewer words than it needs: two for each word in which a private input is shared.
    TapeShort { need: u128, have: u64 },
    /// Memory ran short.
    Memory,
}

impl From<AllocError> for DealErr {
    ghost from_gives = { λ _ e. e ≡ Memory };

    fn from(_: AllocError) -> Self {
        DealErr::Memory
    }
}

/// What two masks leave of each word.
fn left<R: ShareRing>(
    alloc: Global,
    elements: &[u64],
    first: &[u64],
    second: &[u64],
) -> Result<Vec<u64>, AllocError>
    requires first { length first.now ≡ length elements.now }
    requires second { length second.now ≡ length elements.now }
    ensures { IfOk result (λ left. left.items ≡ left_of R.ring elements.now first.now second.now) }
{
    let mut left = Vec::with_capacity(alloc, elements.len())?;
    for k in 0..elements.len() {
        left.push(R::sub(R::sub(elements[k], first[k]), second[k]))?;
    }
    Ok(left)
}

/// What two masks leave of each word, in the ring of their data type.
fn left_in(
    alloc: Global,
    data_type: DataType,
    elements: &[u64],
    first: &[u64],
    second: &[u64],
) -> Result<Vec<u64>, AllocError>
    requires first { length first.now ≡ length elements.now }
    requires second { length second.now ≡ length elements.now }
    ensures { IfOk result (λ left. left.items ≡ left_of (ring_of data_type) elements.now first.now second.now) }
{
    match data_type {
        DataType::Uint64 | DataType::Int64 => left::<AddRing>(alloc, elements, first, second),
        DataType::Bool => left::<XorRing>(alloc, elements, first, second),
    }
}

/// A miner's share of the words of a value of a data type, under the dealer's words that come next.
fn share(
    alloc: Global,
    miner: Number,
    data_type: DataType,
    elements: &[u64],
    words: &[u64],
) -> Result<Vec<u64>, AllocError>
    requires { 2 * length elements.now ≤ length words.now }
    ensures { IfOk result (λ share. share.items ≡ share_of miner (ring_of data_type) elements.now words.now) }
{
    let count = elements.len();
    let (first, rest) = words.split_at(count);
    let second = &rest[..count];
    match miner {
        Number::One => first.to_vec(alloc),
        Number::Two => second.to_vec(alloc),
        Number::Three => left_in(alloc, data_type, elements, first, second),
    }
}

/// A miner's share of a private value.
fn shared(alloc: Global, miner: Number, value: &Value, words: &[u64]) -> Result<Shared, AllocError>
    requires { 2 * shared_size (type_of value.now) (count_of value.now) ≤ length words.now }
    ensures { IfOk result (λ shared. shared ≡ record {
      data_type = type_of value.now;
      shape = shape_of value.now;
      words = share_of miner (ring_of (type_of value.now)) (shared_words value.now) words.now;
    }) }
{
    let data_type = value.data_type();
    let shared = shared_words(alloc, value)?;
    let words = share(alloc, miner, data_type, &shared, words)?;
    Ok(Shared {
        data_type,
        shape: value.shape(),
        words: Words::new(words),
    })
}

/// The words that the dealer draws for an input: two for each word in which a private one is shared.
pub fn draws(entry: &Entry) -> usize
    ensures { result ≡ draws_of entry.now }
{
    match entry.domain {
        Domain::Public => 0,
        Domain::Private => {
            2 * shared_size(entry.value.data_type(), count(&entry.value) as u64) as usize
        }
    }
}

/// The words that the dealer needs for all inputs.
pub fn need(entries: &[Entry]) -> u128
    ensures { result ≡ need_of entries.now }
{
    let mut need = 0;
    for entry in entries {
        need += draws(entry) as u128;
    }
    need
}

/// What a miner has of a value, under the dealer's words that come next.
fn part(alloc: Global, miner: Number, entry: &Entry, words: &[u64]) -> Result<Part, AllocError>
    requires { draws_of entry.now ≤ length words.now }
    ensures { IfOk result (λ part. part ≡ part_of miner entry.now.domain entry.now.value words.now) }
{
    match entry.domain {
        Domain::Public => Ok(Part::Public(entry.value.copy(alloc)?)),
        Domain::Private => Ok(Part::Private(shared(alloc, miner, &entry.value, words)?)),
    }
}

/// What a miner has of an input, under the dealer's words that come next.
fn dealt_entry(
    alloc: Global,
    miner: Number,
    entry: &Entry,
    words: &[u64],
) -> Result<ShareEntry, AllocError>
    requires { draws_of entry.now ≤ length words.now }
    ensures { IfOk result (λ mine. mine ≡ dealt_entry miner entry.now words.now) }
{
    Ok(ShareEntry {
        name: entry.name.copy(alloc)?,
        part: part(alloc, miner, entry, words)?,
    })
}

/// What a miner has of inputs.
fn dealt_entries(
    alloc: Global,
    miner: Number,
    entries: &[Entry],
    words: &[u64],
) -> Result<Vec<ShareEntry>, AllocError>
    requires { need_of entries.now ≤ length words.now }
    ensures { IfOk result (λ mine. mine.items ≡ dealt_entries miner entries.now words.now) }
{
    let mut mine = Vec::with_capacity(alloc, entries.len())?;
    let mut drawn = 0;
    for entry in entries {
        mine.push(dealt_entry(alloc, miner, entry, &words[drawn..])?)?;
        drawn += draws(entry);
    }
    Ok(mine)
}

/// Deals inputs to the three miners. A private input is shared in m words: numbers in a word each, truth values packed, 64 in
/// a word. For each private input, in order, the dealer's next m words are miner 1's share and the m words after them miner
/// 2's; miner 3 has what these leave of the input's words, for numbers modulo 2^64, for truth values under xor. Public inputs
/// stand in each file as they are. `lens` are the lengths of the tapes of the dealer and of miners 1, 2 and 3.
///
/// `TapeShort` comes exactly where the dealer has fewer words than two for each word in which a private input is shared.
pub fn deal(alloc: Global, inputs: &Inputs, words: &[u64], lens: [u64; 4]) -> Result<Dealt, DealErr>
    ensures first { IfOk result (λ files. files.first ≡ dealt One inputs.now words.now lens) }
    ensures second { IfOk result (λ files. files.second ≡ dealt Two inputs.now words.now lens) }
    ensures third { IfOk result (λ files. files.third ≡ dealt Three inputs.now words.now lens) }
    ensures enough { OnOk result (need_of inputs.now ≤ length words.now) }
    ensures short { IfErr result (Refuses (need_of inputs.now) (length words.now)) }
{
    let entries = inputs.entries();
    let need = need(entries);
    let have = words.len() as u64;
    if u128::from(have) < need {
        return Err(DealErr::TapeShort { need, have });
    }
    let first = dealt_entries(alloc, Number::One, entries, words)?;
    let second = dealt_entries(alloc, Number::Two, entries, words)?;
    let third = dealt_entries(alloc, Number::Three, entries, words)?;
    Ok(Dealt {
        first: ShareFile::new(first, lens, Number::One),
        second: ShareFile::new(second, lens, Number::Two),
        third: ShareFile::new(third, lens, Number::Three),
    })
}
