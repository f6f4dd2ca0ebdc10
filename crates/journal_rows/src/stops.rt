// A process, or the machine, stops at a call of the disk, and another process goes on.
use crate::course::{Course, End, PATH, disk_until, disk_with, go_on};
use crate::images::{Chance, FILLINGS, Filling, Moment, moment_after};
use kept_disk::MemDisk;
use row_files::Lines;
use std::alloc::{AllocError, Global};

/// How many calls of the disk it takes to begin a journal and to keep all messages.
const CALLS: u64 = 23;

/// How many calls it takes at most to open a journal, to read its records and to keep the rest.
const MOST_CALLS: u64 = 39;

/// Where the drawn bytes begin.
const SEED: u64 = 54;

/// How many images were opened, and how many of them were as they must be.
#[derive(Clone, Copy)]
struct Tally {
    opened: u32,
    right: u32,
}

impl Tally {
    fn new() -> Self {
        Tally {
            opened: 0,
            right: 0,
        }
    }
}

// Whether a process that went on found what the one before it had kept, or one record more, and ended well.
fn goes_on(before: Course, after: Course) -> bool {
    after.end == End::Whole
        && before.kept <= after.found
        && after.found <= before.kept.saturating_add(1)
}

// Opens what a crash may leave, of this length and filled so.
fn try_image(
    alloc: Global,
    moment: &Moment,
    before: Course,
    tally: &mut Tally,
    chance: &mut Chance,
    length: usize,
    filling: Filling,
) -> Result<(), AllocError> {
    let image = moment.image(alloc, length, filling, chance)?;
    let mut disk = disk_with(alloc, &image)?;
    tally.opened = tally.opened.saturating_add(1);
    if goes_on(before, go_on(alloc, &mut disk)) {
        tally.right = tally.right.saturating_add(1);
    }
    Ok(())
}

// Opens what a crash may leave now: four lengths, filled in each way.
fn try_images(
    alloc: Global,
    disk: &MemDisk,
    before: Course,
    tally: &mut Tally,
    chance: &mut Chance,
) -> Result<(), AllocError> {
    let moment = moment_after(disk.calls(PATH), disk.bytes(PATH));
    for length in moment.lengths() {
        for filling in FILLINGS {
            try_image(alloc, &moment, before, tally, chance, length, filling)?;
        }
    }
    Ok(())
}

fn end_name(end: End) -> &'static str {
    match end {
        End::Whole => "whole",
        End::Stopped => "stopped",
        End::Wrong => "wrong",
    }
}

// A process stops at this call, and another one goes on with the disk as it stands.
fn tell_stop(alloc: Global, lines: &mut Lines, call: u64) {
    let mut disk = disk_until(alloc, Some(call));
    let before = go_on(alloc, &mut disk);
    disk.pass_on(Vec::new(alloc), None);
    let after = go_on(alloc, &mut disk);
    let bytes = disk.bytes(PATH).len();
    write!(
        lines,
        "stopped at {call}: kept {}, found {}, {}, {bytes} bytes\n",
        before.kept,
        after.found,
        end_name(after.end)
    );
}

// Opens one of them: another one each time.
fn try_one_image(
    alloc: Global,
    disk: &MemDisk,
    before: Course,
    tally: &mut Tally,
    chance: &mut Chance,
) -> Result<(), AllocError> {
    let moment = moment_after(disk.calls(PATH), disk.bytes(PATH));
    let number = tally.opened as usize;
    let length = moment.lengths()[number / 6 % 4];
    try_image(
        alloc,
        &moment,
        before,
        tally,
        chance,
        length,
        FILLINGS[number % 6],
    )
}

// The machine stops while one process has the disk.
fn stop_once(
    alloc: Global,
    tally: &mut Tally,
    chance: &mut Chance,
    call: u64,
) -> Result<(), AllocError> {
    let mut disk = disk_until(alloc, Some(call));
    let before = go_on(alloc, &mut disk);
    try_images(alloc, &disk, before, tally, chance)
}

// A process stops, and then the machine does while another one has the disk.
fn stop_twice(
    alloc: Global,
    tally: &mut Tally,
    chance: &mut Chance,
    first: u64,
    second: u64,
) -> Result<(), AllocError> {
    let mut disk = disk_until(alloc, Some(first));
    let once = go_on(alloc, &mut disk);
    disk.pass_on(Vec::new(alloc), Some(second));
    let twice = go_on(alloc, &mut disk);
    let before = Course {
        found: twice.found,
        kept: once.kept.max(twice.kept),
        end: twice.end,
    };
    try_one_image(alloc, &disk, before, tally, chance)
}

// Of each call at which the second process can stop.
fn stop_after(
    alloc: Global,
    tally: &mut Tally,
    chance: &mut Chance,
    first: u64,
) -> Result<(), AllocError> {
    for second in 0..=MOST_CALLS {
        stop_twice(alloc, tally, chance, first, second)?;
    }
    Ok(())
}

fn tally_once(alloc: Global) -> Result<Tally, AllocError> {
    let (mut tally, mut chance) = (Tally::new(), Chance::new(SEED));
    for call in 0..=CALLS {
        stop_once(alloc, &mut tally, &mut chance, call)?;
    }
    Ok(tally)
}

fn tally_twice(alloc: Global) -> Result<Tally, AllocError> {
    let (mut tally, mut chance) = (Tally::new(), Chance::new(SEED));
    for first in 0..=CALLS {
        stop_after(alloc, &mut tally, &mut chance, first)?;
    }
    Ok(tally)
}

fn tell_tally(lines: &mut Lines, name: &str, tally: Result<Tally, AllocError>) {
    match tally {
        Ok(Tally { opened, right }) => write!(
            lines,
            "{name}: {opened} images opened, {right} as they must be\n"
        ),
        Err(AllocError) => lines.run_short(),
    }
}

/// A process that stops at each call of the disk; then the machine, while one process or a second one has the disk.
pub(crate) fn tell(alloc: Global, lines: &mut Lines) {
    for call in 0..=CALLS {
        tell_stop(alloc, lines, call);
    }
    tell_tally(lines, "one process", tally_once(alloc));
    tell_tally(lines, "two processes", tally_twice(alloc));
}
