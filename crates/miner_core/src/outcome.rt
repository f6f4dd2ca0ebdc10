// Where a step leads.
use sc_text::Ending;

/// Where a step leads.
#[derive(Clone, Copy)]
pub enum Turned {
    /// On.
    On,
    /// The run has ended so.
    Over(Ending),
    /// The step was told all that was opened, and wants more.
    Short,
}
