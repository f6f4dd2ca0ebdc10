// Marks of a stage, to which a run that was stopped is taken back.
ghost use Rattle.std.specs.Prelude.{◌≡◌};
ghost use Rattle.language_model.specs.Effects.{Stage as Reached};
ghost use Rattle.value_steps.specs.Views.{stage_seen};
ghost use Rattle.code_machine.specs.Marks.{HasGained, IsMarkOf, again_at, rewound};

use value_steps::{Drawn, Stage};

/// How far a stage was: what was left of the budget, the drawn words, the made values, and the counts of gates, events and opened
/// words.
#[derive(Clone, Copy)]
pub struct Mark {
    left: u64,
    drawn: Drawn,
    made: u64,
    gates: usize,
    events: usize,
    opened: usize,
}

/// The mark of a stage.
pub fn marked(stage: &Stage<'_>) -> Mark
    ensures { IsMarkOf result (stage_seen stage.now) }
{
    Mark {
        left: stage.left,
        drawn: stage.drawn,
        made: stage.made,
        gates: stage.gates.len(),
        events: stage.events.len(),
        opened: stage.opened.len(),
    }
}

/// Takes a stage back to a mark. One that has only gained after the marked stage is again as this was; answers that were taken since
/// stay taken.
pub fn rewind(stage: &mut Stage<'_>, mark: &Mark)
    ensures exactly { stage_seen stage.new ≡ rewound mark.now (stage_seen stage.old) }
    ensures again { (s : Reached) → IsMarkOf mark.now s → HasGained s (stage_seen stage.old) →
        stage_seen stage.new ≡ again_at s (stage_seen stage.old).answers }
{
    stage.left = mark.left;
    stage.drawn = mark.drawn;
    stage.made = mark.made;
    stage.gates.truncate(mark.gates);
    stage.events.truncate(mark.events);
    stage.opened.truncate(mark.opened);
}
