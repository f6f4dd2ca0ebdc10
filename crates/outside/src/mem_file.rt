// Files in memory, by path.
ghost use Rattle.std.specs.Prelude.{◌≡◌, ◌≢◌, ◌<◌, ◌≤◌, ◌++◌, ℕ, List, map, string_bytes, take, Some, None, length, true, false, IsSomeAnd, option_map, IfOk, OnOk, OnErr, IfSome};
ghost use Rattle.std.specs.Prelude.{IfNone};
ghost use Rattle.outside.specs.Files.{file_at, with_file, IsBelow, BytesFrom, EndsBefore};
ghost use Rattle.outside.specs.HeldFiles.{pair_of};
ghost use Rattle.outside.specs.MemFile.{contents_of, pairs_of, size_in};

use crate::held_files::HeldFile;
use std::alloc::{AllocError, Global};
use std::collections::BTreeMap;

/// A file in memory: its bytes, and the size that was last answered of it.
#[derive(Drop)]
pub(crate) struct MemFile {
    bytes: Vec<u8>,
    sized: Option<u64>,
}

/// The bytes of the file at this path.
pub(crate) fn bytes_at<'a>(files: &'a BTreeMap<String, MemFile>, path: &str) -> Option<&'a [u8]>
    ensures { option_map (λ b. b.now) result ≡ file_at (contents_of files.now) path.now }
{
    match files.get(path) {
        Some(file) => Some(file.bytes.as_slice()),
        None => None,
    }
}

// A copy of a file, with its path.
fn copy_file(alloc: Global, path: &String, file: &MemFile) -> Result<HeldFile, AllocError>
    ensures { IfOk result (λ held. pair_of held ≡ (string_bytes path.now, file.now.bytes.items)) }
{
    Ok(HeldFile {
        path: String::from_str(alloc, path.as_str())?,
        bytes: Vec::from_slice(alloc, &file.bytes)?,
    })
}

/// Copies of all files, by their paths.
pub(crate) fn copy_files(
    alloc: Global,
    files: &BTreeMap<String, MemFile>,
) -> Result<Vec<HeldFile>, AllocError>
    ensures { IfOk result (λ copies. map pair_of copies.items ≡ pairs_of files.now.entries) }
{
    let mut copies = Vec::new(alloc);
    for (path, file) in files.iter() {
        let held = copy_file(alloc, path, file)?;
        copies.push(held)?;
    }
    Ok(copies)
}

/// The size that was last answered of the file at this path.
pub(crate) fn size_at(files: &BTreeMap<String, MemFile>, path: &str) -> Option<u64>
    ensures { result ≡ size_in files.now path.now }
{
    files.get(path)?.sized
}

/// Puts these bytes in the place of the file's at this path.
pub(crate) fn put_file(
    alloc: Global,
    files: &mut BTreeMap<String, MemFile>,
    path: &str,
    bytes: &[u8],
) -> Result<(), AllocError>
    ensures ok { OnOk result (contents_of files.new ≡ with_file (contents_of files.old) path.now bytes.now) }
    ensures err { OnErr result (contents_of files.new ≡ contents_of files.old) }
    ensures sizes { (q : List ℕ) → size_in files.new q ≡ size_in files.old q }
{
    let bytes = bytes.to_vec(alloc)?;
    let sized = size_at(files, path);
    let name = String::from_str(alloc, path)?;
    files.insert(name, MemFile { bytes, sized })?;
    Ok(())
}

/// Puts these bytes after the file's at this path. Says whether there is one.
pub(crate) fn extend_file(
    files: &mut BTreeMap<String, MemFile>,
    path: &str,
    bytes: &[u8],
) -> Result<bool, AllocError>
    ensures ok { IfOk result (λ found. found ≡ true → IsSomeAnd (file_at (contents_of files.old) path.now)
        (λ all. contents_of files.new ≡ with_file (contents_of files.old) path.now (all ++ bytes.now))) }
    ensures missing { IfOk result (λ found. found ≡ false → file_at (contents_of files.old) path.now ≡ None) }
    ensures same { IfOk result (λ found. found ≡ false → contents_of files.new ≡ contents_of files.old) }
    ensures err { OnErr result (contents_of files.new ≡ contents_of files.old) }
    ensures sizes { (q : List ℕ) → size_in files.new q ≡ size_in files.old q }
{
    match files.get_mut(path) {
        Some(file) => {
            file.bytes.extend_from_slice(bytes)?;
            Ok(true)
        }
        None => Ok(false),
    }
}

/// Answers the size of the file at this path, and keeps it.
pub(crate) fn measure(files: &mut BTreeMap<String, MemFile>, path: &str) -> Option<u64>
    ensures size { result ≡ option_map length (file_at (contents_of files.old) path.now) }
    ensures contents { contents_of files.new ≡ contents_of files.old }
    ensures answered { IfSome result (λ n. size_in files.new path.now ≡ Some n) }
    ensures others { (q : List ℕ) → q ≢ path.now → size_in files.new q ≡ size_in files.old q }
    ensures none { IfNone result ((q : List ℕ) → size_in files.new q ≡ size_in files.old q) }
{
    match files.get_mut(path) {
        Some(file) => {
            let size = file.bytes.len() as u64;
            file.sized = Some(size);
            Some(size)
        }
        None => None,
    }
}

/// Copies the bytes of the file at this path from `from` on to the front of the slice, at most 7 at a time so that a
/// caller has to go on, and none from the size on that was last answered. `None` if the file is missing, or ends
/// before a place below that size.
pub(crate) fn copy_from(
    files: &BTreeMap<String, MemFile>,
    path: &str,
    from: u64,
    into: &mut [u8],
) -> Option<usize>
    ensures most { IfSome result (λ k. k ≤ length into.old) }
    ensures some { IfSome result (λ k. 0 < length into.old → IsBelow (size_in files.now path.now) from → 0 < k) }
    ensures none { IfSome result (λ k. 0 < k → IsBelow (size_in files.now path.now) from) }
    ensures bytes { IfSome result (λ k. BytesFrom (file_at (contents_of files.now) path.now) from (take k into.new)) }
    ensures ended { IfNone result (EndsBefore (file_at (contents_of files.now) path.now) (size_in files.now path.now) from) }
{
    let all = bytes_at(files, path)?;
    if !size_at(files, path).is_some_and(|size| from < size) {
        return Some(0);
    }
    if all.len() as u64 <= from {
        return None;
    }
    let rest = &all[from as usize..];
    let count = rest.len().min(into.len()).min(7);
    into[..count].copy_from_slice(&rest[..count]);
    Some(count)
}
