// What is true of messages that are kept one after another, and of records that are read.
ghost use Rattle.std.specs.Prelude.{ℕ, List};
ghost use Rattle.kept_disk.specs.Images.{DiskFile};
ghost use Rattle.kept_frames.specs.Kept.{Kept};
ghost use Rattle.miner_journal.specs.Course.{CourseGoesOn, CourseHolds};
ghost use Rattle.miner_journal.specs.Replay.{SettlesReplayed};

/// Law: while messages are kept one after another, a crash at any moment leaves the records from before and the first of the new ones.
pub fn courses_hold()
    ensures { (sums : List ℕ) (rs kept : List Kept) (f g : DiskFile) → CourseHolds sums rs kept f g }
{}

/// Law: a message that is kept after a course is one more of it.
pub fn courses_go_on()
    ensures { (sums : List ℕ) (rs kept : List Kept) (f g h : DiskFile) (a : Kept) (place : ℕ) → CourseGoesOn sums rs kept f g h a place }
{}

/// Law: where the records of a begun journal were read to a gate that isn't open, they are all its records, and a message can be kept there.
pub fn replayed_journals_are_settled()
    ensures { (sums : List ℕ) (rs : List Kept) (file : DiskFile) (place : ℕ) → SettlesReplayed sums rs file place }
{}
