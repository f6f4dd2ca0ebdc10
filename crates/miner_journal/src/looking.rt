// What stands on a disk where a journal is opened.
ghost use Rattle.std.specs.Prelude.{◌≡◌, true, IfOk, OnOk, OnErr};
ghost use Rattle.outside.specs.Causes.{HasCause};
ghost use Rattle.kept_disk.specs.Images.{moments};
ghost use Rattle.kept_disk.specs.Disk.{SameFile, held};
ghost use Rattle.miner_journal.specs.Begins.{Holds, IsSynced, OnceSynced, OnlyAt, Surveys};

use crate::reading::read_all;
use kept_disk::Disk;
use outside::FileErr;

/// What was found: whether a journal is begun there, whether there are fewer than 98 bytes, and the digests that stand after the first byte.
#[derive(Clone, Copy)]
pub(crate) struct Findings {
    pub begun: bool,
    pub short: bool,
    pub sums: [u8; 96],
}

/// Attaches a file and brings all of it to the disk.
pub(crate) fn settle<D: Disk>(disk: &mut D, path: &str) -> Result<(), FileErr>
    ensures only { OnlyAt (D.state disk.old) (D.state disk.new) path.now }
    ensures holds { OnOk result (Holds (D.state disk.new) path.now) }
    ensures ok { OnOk result ((D.state disk.old).told ≡ true → IsSynced ((D.state disk.old).files path.now) ((D.state disk.new).files path.now)) }
    ensures err { OnErr result ((D.state disk.old).told ≡ true →
        moments ((D.state disk.new).files path.now) ≡ moments ((D.state disk.old).files path.now)) }
    ensures cause { HasCause (D.state disk.old).faults (D.state disk.new).faults result }
{
    disk.attach(path)?;
    disk.sync()
}

/// Reads what tells of a journal in the attached file.
pub(crate) fn survey<D: Disk>(disk: &mut D) -> Result<Findings, FileErr>
    requires { (D.state disk.old).attached ≡ true }
    ensures ok { IfOk result (λ found. (D.state disk.old).told ≡ true → Surveys (held (D.state disk.old)).seen found) }
    ensures same { SameFile (D.state disk.old) (D.state disk.new) }
    ensures cause { HasCause (D.state disk.old).faults (D.state disk.new).faults result }
{
    let size = disk.len()?;
    if size < 98 {
        return Ok(Findings {
            begun: false,
            short: true,
            sums: [0; 96],
        });
    }
    let mut gate = [0; 1];
    read_all(disk, 0, &mut gate)?;
    let mut sums = [0; 96];
    read_all(disk, 1, &mut sums)?;
    let [gate] = gate;
    Ok(Findings {
        begun: gate == 1,
        short: false,
        sums,
    })
}

/// Attaches a file, brings all of it to the disk, and reads what tells of a journal.
pub(crate) fn look<D: Disk>(disk: &mut D, path: &str) -> Result<Findings, FileErr>
    ensures only { OnlyAt (D.state disk.old) (D.state disk.new) path.now }
    ensures holds { OnOk result (Holds (D.state disk.new) path.now) }
    ensures once { (D.state disk.old).told ≡ true → OnceSynced ((D.state disk.old).files path.now) ((D.state disk.new).files path.now) }
    ensures synced { OnOk result ((D.state disk.old).told ≡ true → IsSynced ((D.state disk.old).files path.now) ((D.state disk.new).files path.now)) }
    ensures found { IfOk result (λ found. (D.state disk.old).told ≡ true → Surveys ((D.state disk.old).files path.now).seen found) }
    ensures cause { HasCause (D.state disk.old).faults (D.state disk.new).faults result }
{
    settle(disk, path)?;
    survey(disk)
}
