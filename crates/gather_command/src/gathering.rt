// Share files of several owners as one.
ghost use Rattle.std.specs.Prelude.{◌≡◌, ◌++◌, ◌∷◌, [], not, map, option_map, All, IfOk, IsTrue, OnOk};
ghost use Rattle.std.specs.List.{list_any};
ghost use Rattle.std.specs.Str.{bytes_eq};
ghost use Rattle.input_share.specs.Reading.{share_name_of, AreWritable};
ghost use Rattle.gather_command.specs.Gathering.{distinct, entries_in, gathered, joined_lens, lens_from, name_again, Gathers};
ghost use Rattle.gather_command.specs.declared.gathering.GatherErr.TheVariants.{Memory};

use indexmap::IndexSet;
use input_share::{Part, ShareEntry, ShareFile, Shared};
use sc_text::Name;
use std::alloc::{AllocError, Global};
use value_file::Words;

/// Why files are not gathered.
pub enum GatherErr {
    /// Two inputs have this name.
    NameTwice(Name),
    /// The lengths of this file, counted from 0, don't go with those before it: a miner's tape has another length, or the dealers' lengths
    /// add up to 2^64 or more.
    OtherLengths { file: u64 },
    /// Memory ran short.
    Memory,
}

// Written out, so that an early exit calls this once.
impl Drop for GatherErr {
    fn drop(self) {
        match self {
            GatherErr::NameTwice(_) | GatherErr::OtherLengths { file: _ } | GatherErr::Memory => {}
        }
    }
}

impl From<AllocError> for GatherErr {
    ghost from_gives = { λ _ e. e ≡ Memory };

    fn from(_: AllocError) -> Self {
        GatherErr::Memory
    }
}

// The same part in memory of its own.
fn copied_part(alloc: Global, part: &Part) -> Result<Part, AllocError>
    ensures { IfOk result (λ copy. copy ≡ part.now) }
{
    match part {
        Part::Public(value) => Ok(Part::Public(value.copy(alloc)?)),
        Part::Private(shared) => Ok(Part::Private(Shared {
            data_type: shared.data_type,
            shape: shared.shape,
            words: Words::new(Vec::from_slice(alloc, shared.words.as_slice())?),
        })),
    }
}

// The same entry in memory of its own.
fn copied(alloc: Global, entry: &ShareEntry) -> Result<ShareEntry, AllocError>
    ensures { IfOk result (λ copy. copy ≡ entry.now) }
{
    Ok(ShareEntry {
        name: entry.name.copy(alloc)?,
        part: copied_part(alloc, &entry.part)?,
    })
}

// Adds entries after those that are there.
fn add_entries(
    alloc: Global,
    all: &mut Vec<ShareEntry>,
    entries: &[ShareEntry],
) -> Result<(), AllocError>
    ensures { OnOk result (all.new.items ≡ all.old.items ++ entries.now) }
{
    for entry in entries {
        all.push(copied(alloc, entry)?)?;
    }
    Ok(())
}

// The entries of all files, end to end.
fn all_entries(
    alloc: Global,
    first: &ShareFile,
    more: &[ShareFile],
) -> Result<Vec<ShareEntry>, AllocError>
    ensures { IfOk result (λ all. all.items ≡ first.now.entries ++ entries_in more.now) }
{
    let mut all = Vec::new(alloc);
    add_entries(alloc, &mut all, first.entries())?;
    for file in more {
        add_entries(alloc, &mut all, file.entries())?;
    }
    Ok(all)
}

// Whether a name is new; it is remembered.
fn is_new<'v>(names: &mut IndexSet<&'v str>, name: &'v str) -> Result<bool, AllocError>
    ensures new { IfOk result (λ new. new ≡ not (list_any (bytes_eq name.now) (map (λ n. n.now) names.old.keys))) }
    ensures remembered { IfOk result (λ new. IsTrue new →
        map (λ n. n.now) names.new.keys ≡ map (λ n. n.now) names.old.keys ++ name.now ∷ []) }
{
    match names.insert(name) {
        Ok(new) => Ok(new),
        Err(_) => Err(AllocError),
    }
}

// The first name that an earlier entry has, too.
fn repeated(alloc: Global, entries: &[ShareEntry]) -> Result<Option<Name>, AllocError>
    ensures { IfOk result (λ found. found ≡ name_again [] (map share_name_of entries.now)) }
{
    let mut names = IndexSet::new(alloc);
    for entry in entries {
        if !is_new(&mut names, entry.name.as_str())? {
            return Ok(Some(entry.name.copy(alloc)?));
        }
    }
    Ok(None)
}

// The entries of all files, of which no two have one name.
fn distinct_entries(
    alloc: Global,
    first: &ShareFile,
    more: &[ShareFile],
) -> Result<Vec<ShareEntry>, GatherErr>
    ensures { Gathers (λ entries. entries.items) (distinct (first.now.entries ++ entries_in more.now)) result }
{
    let entries = all_entries(alloc, first, more)?;
    match repeated(alloc, &entries)? {
        None => Ok(entries),
        Some(name) => Err(GatherErr::NameTwice(name)),
    }
}

// The lengths of two dealings as those of one.
#[tactic(auto, unfolding(crate::specs::Gathering::joined_lens))]
fn joined_lens(lens: [u64; 4], more: [u64; 4]) -> Option<[u64; 4]>
    ensures { result ≡ joined_lens lens more }
{
    if lens[1] != more[1] || lens[2] != more[2] || lens[3] != more[3] {
        return None;
    }
    let dealer = lens[0].checked_add(more[0])?;
    Some([dealer, lens[1], lens[2], lens[3]])
}

// The lengths of all dealings as those of one.
fn all_lens(lens: [u64; 4], more: &[ShareFile]) -> Result<[u64; 4], GatherErr>
    ensures { Gathers (λ lens. lens) (lens_from 1 lens more.now) result }
{
    let mut all = lens;
    for (place, file) in more.iter().enumerate() {
        match joined_lens(all, file.lens()) {
            Some(both) => all = both,
            None => return Err(GatherErr::OtherLengths {
                file: place as u64 + 1,
            }),
        }
    }
    Ok(all)
}

/// The share files that several owners of inputs dealt a miner as one file: their entries end to end, in the order of the files, the sum of
/// the lengths of their dealers' tapes, and the lengths of the miners' tapes, which are the same in all.
///
/// `NameTwice` comes exactly where two inputs have one name, for the first that repeats an earlier one; else `OtherLengths` exactly where a
/// file has other lengths of miners' tapes than the first, or the dealers' lengths up to it add up to 2^64 or more, for the first such file.
#[tactic(auto, unfolding(crate::specs::Gathering::gathered))]
pub fn gather(alloc: Global, first: &ShareFile, more: &[ShareFile]) -> Result<ShareFile, GatherErr>
    ensures gathers { Gathers (λ file. file) (gathered first.now more.now) result }
    ensures form { AreWritable first.now.entries → All (λ file. AreWritable file.entries) more.now →
        IfOk result (λ file. AreWritable file.entries) }
{
    let entries = distinct_entries(alloc, first, more)?;
    let lens = all_lens(first.lens(), more)?;
    Ok(ShareFile::new(entries, lens, first.miner()))
}
