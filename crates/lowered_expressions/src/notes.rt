// What is known of expressions before their code is made. Each node's note stands in front of those of its operands, and says how
// many there are, so that whoever makes the code finds each by one look.
ghost use Rattle.std.specs.Prelude.{◌≡◌, IfOk};
ghost use Rattle.lowered_expressions.specs.inner.Notes.{behind_first, behind_part, first_is_private, first_kind, first_note, first_part};
ghost use Rattle.lowered_expressions.specs.inner.Notes.{first_private_kind, noted_domains, nothing_noted};

use crate::kinds::kind_of;
use bytecode::Kind;
use program_trees::{DataType, Shape};
use reached_instances::BoundDomain;
use std::alloc::{AllocError, Global};

/// Who may see what an expression gives, and its shape.
#[derive(Clone, Copy)]
pub struct Given {
    pub domain: BoundDomain,
    pub shape: Shape,
}

/// What is noted of an expression, and how many notes it has with those of its operands.
#[derive(Clone, Copy)]
pub struct Note {
    pub given: Given,
    pub nodes: usize,
}

/// The note of a public number, of no node.
pub fn nothing_noted() -> Note
    ensures { result ≡ nothing_noted }
{
    Note {
        given: Given {
            domain: BoundDomain::Public,
            shape: Shape::scalar(DataType::Uint64),
        },
        nodes: 0,
    }
}

// The first note.
fn first_note(notes: &[Note]) -> Note
    ensures { result ≡ first_note notes.now }
{
    match notes.split_first() {
        None => nothing_noted(),
        Some((note, _)) => *note,
    }
}

/// Whether the first expression gives a private value.
pub fn first_is_private(notes: &[Note]) -> bool
    ensures { result ≡ first_is_private notes.now }
{
    first_note(notes).given.domain.is_private()
}

/// The kind of what the first expression gives.
pub fn first_kind(notes: &[Note]) -> Kind
    ensures { result ≡ first_kind notes.now }
{
    let given = first_note(notes).given;
    kind_of(given.domain.is_private(), given.shape)
}

/// The kind of what the first expression gives, once it is classified.
pub fn first_private_kind(notes: &[Note]) -> Kind
    ensures { result ≡ first_private_kind notes.now }
{
    kind_of(true, first_note(notes).given.shape)
}

/// The notes of an expression's operands, of those of the expression.
pub fn behind_first(notes: &[Note]) -> &[Note]
    ensures { result.now ≡ behind_first notes.now }
{
    match notes.split_first() {
        None => notes,
        Some((_, behind)) => behind,
    }
}

/// The notes of the first expression, and those after them.
pub fn parted(notes: &[Note]) -> (&[Note], &[Note])
    ensures first { result.0.now ≡ first_part notes.now }
    ensures behind { result.1.now ≡ behind_part notes.now }
{
    let nodes = first_note(notes).nodes;
    if nodes <= notes.len() {
        notes.split_at(nodes)
    } else {
        (notes, &[])
    }
}

/// Who may see what so many expressions give, one after another.
pub fn noted_domains(
    alloc: Global,
    notes: &[Note],
    count: usize,
) -> Result<Vec<BoundDomain>, AllocError>
    ensures { IfOk result (λ domains. domains.items ≡ noted_domains count notes.now) }
{
    let mut domains = Vec::new(alloc);
    let mut rest = notes;
    for number in 0..count {
        domains.push(first_note(rest).given.domain)?;
        let (_, behind) = parted(rest);
        rest = behind;
    }
    Ok(domains)
}
