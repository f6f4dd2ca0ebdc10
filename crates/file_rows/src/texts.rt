// Names, the text of a run, and the lines of ends and faults.
use row_files::Lines;
use sc_text::{
    CountedFault, Element, Elements, End, Ending, EntryField, Event, Fault, InputFault, Name,
    PlacedFault, Span, TapeOwner, TrapKind, run_text,
};
use std::alloc::{AllocError, Global};

const NAMES: [&str; 7] = [
    "a",
    "_9Z",
    "abcdefghijklmnopqrstuvwxyz_ABCDEFGHIJKLMNOPQRSTUVWXYZ_0123456789",
    "",
    "a b",
    "é",
    "abcdefghijklmnopqrstuvwxyz_ABCDEFGHIJKLMNOPQRSTUVWXYZ_0123456789x",
];

fn tell_copy(lines: &mut Lines, copy: Result<Name, AllocError>) {
    match copy {
        Ok(copy) => write!(lines, "copied as {}\n", copy.as_str()),
        Err(AllocError) => lines.run_short(),
    }
}

// A text that may be a name, and the name's copy.
fn tell_name(alloc: Global, lines: &mut Lines, source: &str) {
    write!(lines, "name {source:?}: ");
    match Name::from_str(alloc, source) {
        Ok(Some(name)) => tell_copy(lines, name.copy(alloc)),
        Ok(None) => lines.add("none\n"),
        Err(AllocError) => lines.run_short(),
    }
}

fn push_opened(alloc: Global, events: &mut Vec<Event>, list: &[Element]) -> Result<(), AllocError> {
    let elements = Elements::from_vec(list.to_vec(alloc)?);
    events.push(Event::Open(elements))?;
    Ok(())
}

fn push_published(
    alloc: Global,
    events: &mut Vec<Event>,
    name: &str,
    list: &[Element],
) -> Result<(), AllocError> {
    let elements = Elements::from_vec(list.to_vec(alloc)?);
    if let Some(name) = Name::from_str(alloc, name)? {
        events.push(Event::Publish(name, elements))?;
    }
    Ok(())
}

fn push_events(alloc: Global, events: &mut Vec<Event>) -> Result<(), AllocError> {
    push_opened(
        alloc,
        events,
        &[Element::Truth(true), Element::Truth(false)],
    )?;
    push_opened(alloc, events, &[])?;
    push_published(alloc, events, "s", &[])?;
    push_published(alloc, events, "_t", &[Element::Word(13)])
}

// The text of a run.
fn run(alloc: Global) -> Result<Vec<u8>, AllocError> {
    let mut events = Vec::new(alloc);
    push_events(alloc, &mut events)?;
    let end = End {
        how: Ending::Done,
        cost: 7,
    };
    run_text(alloc, &events, &end)
}

fn tell_run(lines: &mut Lines, run: Result<Vec<u8>, AllocError>) {
    match run {
        Ok(run) => lines.add(str::from_utf8(&run).unwrap_or("no text\n")),
        Err(AllocError) => lines.run_short(),
    }
}

const ENDS: [End; 5] = [
    End {
        how: Ending::Done,
        cost: u64::MAX,
    },
    End {
        how: Ending::Trap {
            kind: TrapKind::Argument,
            line: 2,
        },
        cost: 3,
    },
    End {
        how: Ending::Budget,
        cost: 6,
    },
    End {
        how: Ending::Tape {
            owner: TapeOwner::Miner3,
            need: 1,
            have: 0,
        },
        cost: 6,
    },
    End {
        how: Ending::Tape {
            owner: TapeOwner::Dealer,
            need: u128::MAX,
            have: 1,
        },
        cost: 0,
    },
];

// The faults of a program and its files, by number.
fn fault(alloc: Global, number: u32) -> Result<Fault, AllocError> {
    Ok(match number {
        0 => Fault::Input(InputFault::BadField {
            entry: 0,
            field: EntryField::Value,
        }),
        1 => Fault::Input(InputFault::BadLens),
        2 => Fault::Input(InputFault::TooMany { entry: 1 }),
        3 => Fault::Usage,
        4 => Fault::Placed {
            fault: PlacedFault::PrivateCondition,
            span: Span {
                line: 2,
                column: 33,
            },
        },
        5 => Fault::Counted {
            fault: CountedFault::TooManyInstances,
            count: 1025,
        },
        6 => Fault::BadView { line: 1 },
        7 => Fault::BadTape { place: 159 },
        8 => Fault::ShortTape { need: 4, have: 3 },
        9 => Fault::BadSchedule { line: 2 },
        10 => Fault::File {
            path: String::from_str(alloc, "no.sc")?,
        },
        11 => Fault::Write,
        _ => Fault::Memory,
    })
}

fn tell_ends(lines: &mut Lines) {
    for end in ENDS {
        write!(lines, "{end}");
    }
}

fn tell_fault(lines: &mut Lines, fault: Result<Fault, AllocError>) {
    match fault {
        Ok(fault) => write!(lines, "{fault}"),
        Err(AllocError) => lines.run_short(),
    }
}

fn tell_faults(alloc: Global, lines: &mut Lines) {
    for number in 0..13u32 {
        tell_fault(lines, fault(alloc, number));
    }
}

/// The lines of names, of a run, of ends and of faults.
pub fn tell(alloc: Global, lines: &mut Lines) {
    for name in NAMES {
        tell_name(alloc, lines, name);
    }
    tell_run(lines, run(alloc));
    tell_ends(lines);
    tell_faults(alloc, lines);
}
