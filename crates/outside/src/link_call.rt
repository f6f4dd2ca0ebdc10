// The calls of links.

/// A call of links that was answered.
#[derive(Debug, Drop)]
pub enum LinkCall {
    /// This miner joined its peers at three ports, of which this is the first.
    Joined { me: u8, port: u16 },
    /// This peer was given these bytes.
    Gave { peer: u8, bytes: Vec<u8> },
    /// These bytes were taken from this peer.
    Took { peer: u8, bytes: Vec<u8> },
}
