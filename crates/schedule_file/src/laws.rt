ghost use Rattle.std.specs.Prelude.{◌≡◌, ℕ, List, Ok, Err};
ghost use Rattle.proto_core.specs.declared.link.Link.{Link};
ghost use Rattle.schedule_file.specs.Text.{schedule_bytes};
ghost use Rattle.schedule_file.specs.Reading.{links_of};
ghost use Rattle.schedule_file.specs.FirstWrong.{IsFirstWrong};

/// Law: the text of a schedule is read as this schedule.
pub fn schedules_are_read_again()
    ensures { (links : List Link) → links_of (schedule_bytes links) ≡ Ok links }
{}

/// Law: what is read is the text of the schedule that is read, so a schedule has one text.
pub fn what_is_read_was_written()
    ensures { (bytes : List ℕ) (links : List Link) → links_of bytes ≡ Ok links → schedule_bytes links ≡ bytes }
{}

/// Law: the number that is named is that of the first wrong line: before it stand lines of links, and then something, which doesn't begin
/// with a link and its newline.
pub fn first_wrong_line_is_named()
    ensures { (bytes : List ℕ) (number : ℕ) → links_of bytes ≡ Err number → IsFirstWrong bytes number }
{}
