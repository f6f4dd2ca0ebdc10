// Files in memory, by path.
ghost use Rattle.std.specs.Prelude.{◌≡◌, OnOk, OnErr};
ghost use Rattle.kept_disk.specs.Images.{file_with};
ghost use Rattle.kept_disk.specs.Disk.{Synced, Tore, Wrote};
ghost use Rattle.kept_disk.specs.LoggedFiles.{AllStay, IsThere, OthersStay, calls_in, file_in};

use crate::disk_call::DiskCall;
use crate::logged_file::LoggedFile;
use std::alloc::{AllocError, Global};
use std::collections::BTreeMap;

/// What a read gives of the file at this path.
pub(crate) fn bytes_at<'a>(files: &'a BTreeMap<String, LoggedFile>, path: &str) -> &'a [u8]
    ensures { result.now ≡ (file_in files.now path.now).seen }
{
    match files.get(path) {
        Some(file) => file.bytes(),
        None => &[],
    }
}

/// The calls on the file at this path that changed what a crash may leave of it, in order.
pub(crate) fn calls_at<'a>(files: &'a BTreeMap<String, LoggedFile>, path: &str) -> &'a [DiskCall]
    ensures { result.now ≡ calls_in files.now path.now }
{
    match files.get(path) {
        Some(file) => file.log(),
        None => &[],
    }
}

/// Puts a file with these bytes at a path, all of them on the disk.
pub(crate) fn put_file(
    alloc: Global,
    files: &mut BTreeMap<String, LoggedFile>,
    path: &str,
    bytes: &[u8],
) -> Result<(), AllocError>
    ensures ok { OnOk result (file_in files.new path.now ≡ file_with bytes.now) }
    ensures there { OnOk result (IsThere files.new path.now) }
    ensures others { OthersStay files.old files.new path.now }
    ensures err { OnErr result (files.new.entries ≡ files.old.entries) }
{
    let file = LoggedFile::new(alloc, bytes)?;
    let name = String::from_str(alloc, path)?;
    files.insert(name, file)?;
    Ok(())
}

/// Puts an empty file at a path where none is there.
pub(crate) fn make_file(
    alloc: Global,
    files: &mut BTreeMap<String, LoggedFile>,
    path: &str,
) -> Result<(), AllocError>
    ensures there { OnOk result (IsThere files.new path.now) }
    ensures same { AllStay files.old files.new }
    ensures err { OnErr result (files.new.entries ≡ files.old.entries) }
{
    match files.get(path) {
        Some(_) => Ok(()),
        None => put_file(alloc, files, path, &[]),
    }
}

/// Writes a piece to the file at this path.
pub(crate) fn write_in(
    alloc: Global,
    files: &mut BTreeMap<String, LoggedFile>,
    path: &str,
    from: u64,
    piece: &[u8],
) -> Result<(), AllocError>
    requires { IsThere files.old path.now }
    ensures ok { OnOk result (Wrote (file_in files.old path.now) (file_in files.new path.now) from piece.now) }
    ensures err { OnErr result (file_in files.new path.now ≡ file_in files.old path.now) }
    ensures others { OthersStay files.old files.new path.now }
    ensures there { IsThere files.new path.now }
{
    match files.get_mut(path) {
        Some(file) => file.write(alloc, from, piece),
        None => unreachable!(),
    }
}

/// A write to the file at this path has failed.
pub(crate) fn tear_in(
    files: &mut BTreeMap<String, LoggedFile>,
    path: &str,
    from: u64,
    count: u64,
) -> Result<(), AllocError>
    requires { IsThere files.old path.now }
    ensures ok { OnOk result (Tore (file_in files.old path.now) (file_in files.new path.now) from count) }
    ensures seen { (file_in files.new path.now).seen ≡ (file_in files.old path.now).seen }
    ensures err { OnErr result (file_in files.new path.now ≡ file_in files.old path.now) }
    ensures others { OthersStay files.old files.new path.now }
    ensures there { IsThere files.new path.now }
{
    match files.get_mut(path) {
        Some(file) => file.tear(from, count),
        None => unreachable!(),
    }
}

/// Brings all bytes of the file at this path to the disk.
pub(crate) fn sync_in(
    alloc: Global,
    files: &mut BTreeMap<String, LoggedFile>,
    path: &str,
) -> Result<(), AllocError>
    requires { IsThere files.old path.now }
    ensures ok { OnOk result (Synced (file_in files.old path.now) (file_in files.new path.now)) }
    ensures err { OnErr result (file_in files.new path.now ≡ file_in files.old path.now) }
    ensures others { OthersStay files.old files.new path.now }
    ensures there { IsThere files.new path.now }
{
    match files.get_mut(path) {
        Some(file) => file.sync(alloc),
        None => unreachable!(),
    }
}
