// The two ways of a map.
use proto_core::Number;

/// Which way tapes are mapped.
#[derive(Clone, Copy)]
pub enum Way {
    /// From the tapes that are drawn from to those that a view is made of.
    ToView,
    /// From those that a view is made of back to those that are drawn from.
    FromView,
}

/// The map of the tapes for one miner's view, or its way back.
#[derive(Clone, Copy)]
pub struct ViewMap {
    pub miner: Number,
    pub way: Way,
}

/// Who looks at a run.
#[derive(Clone, Copy)]
pub enum Looker {
    /// A miner, at all that comes to it.
    Miner(Number),
    /// The client, at what is handed over to it.
    Client,
}

/// The map of the tapes for what one of them sees, or its way back.
#[derive(Clone, Copy)]
pub struct TapeMap {
    pub looker: Looker,
    pub way: Way,
}
