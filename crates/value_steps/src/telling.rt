// What a run tells: events and opened words; and the answers that it is given.
ghost use Rattle.std.specs.Prelude.{◌≡◌, ◌≤◌, length, IfOk};
ghost use Rattle.language_model.specs.Effects.{emit, show, answer, next_answers};
ghost use Rattle.value_steps.specs.Steps.{Does, itself};
ghost use Rattle.value_steps.specs.Views.{stage_seen, source_seen, words_seen};

use crate::halt::Halt;
use crate::stage::Stage;
use crate::world::Source;
use sc_text::Event;
use std::alloc::Global;

/// Tells an event.
pub(crate) fn emit(stage: &mut Stage<'_>, event: Event) -> Result<(), Halt>
    ensures step { Does itself (emit event) (stage_seen stage.old) result (stage_seen stage.new) }
    ensures spends { stage.new.left ≤ stage.old.left }
{
    stage.events.push(event)?;
    Ok(())
}

/// Tells opened words.
pub(crate) fn show(stage: &mut Stage<'_>, words: &[u64]) -> Result<(), Halt>
    ensures step { Does itself (show words.now) (stage_seen stage.old) result (stage_seen stage.new) }
    ensures spends { stage.new.left ≤ stage.old.left }
{
    stage.opened.extend_from_slice(words)?;
    Ok(())
}

/// Takes the next answers. Where too few are left the run stops.
fn next_answers(alloc: Global, stage: &mut Stage<'_>, count: usize) -> Result<Vec<u64>, Halt>
    ensures step { Does words_seen (next_answers count) (stage_seen stage.old) result (stage_seen stage.new) }
    ensures spends { stage.new.left ≤ stage.old.left }
    ensures size { IfOk result (λ words. length words.items ≡ count) }
{
    let answers = stage.answers;
    if count <= answers.len() {
        let taken = Vec::from_slice(alloc, &answers[..count])?;
        stage.answers = &answers[count..];
        Ok(taken)
    } else {
        Err(Halt::Short)
    }
}

/// What an opened value is, where it has these words.
pub(crate) fn answer(
    alloc: Global,
    source: Source,
    stage: &mut Stage<'_>,
    words: Vec<u64>,
) -> Result<Vec<u64>, Halt>
    ensures step { Does words_seen (answer (source_seen source) words.items) (stage_seen stage.old) result (stage_seen stage.new) }
    ensures spends { stage.new.left ≤ stage.old.left }
    ensures size { IfOk result (λ told. length told.items ≡ length words.items) }
{
    match source {
        Source::Clear => Ok(words),
        Source::Answers => next_answers(alloc, stage, words.len()),
    }
}
