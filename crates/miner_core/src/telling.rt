// What there is to tell of a step.
ghost use Rattle.std.specs.Prelude.{◌≡◌, drop, length};
ghost use Rattle.driven_nodes.specs.Steps.{last_of};

use gates::Values;
use value_steps::Stage;

/// The words of the value that was made last; none where there is no value.
pub fn last_words(values: &Values) -> &[u64]
    ensures { result.now ≡ last_of values.now }
{
    values.value(values.len().saturating_sub(1) as u64)
}

/// The words after so many.
pub fn words_behind(words: &[u64], count: usize) -> &[u64]
    ensures { result.now ≡ drop count words.now }
{
    if count <= words.len() {
        &words[count..]
    } else {
        &[]
    }
}

/// How much a stage has told.
#[derive(Clone, Copy)]
pub struct Told {
    pub events: usize,
    pub opened: usize,
}

/// How much a stage has told.
pub fn told_yet(stage: &Stage<'_>) -> Told
    ensures events { result.events ≡ length stage.now.events.items }
    ensures opened { result.opened ≡ length stage.now.opened.items }
{
    Told {
        events: stage.events.len(),
        opened: stage.opened.len(),
    }
}
