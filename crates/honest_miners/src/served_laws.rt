// What three miners come to that run as programs of their own.
ghost use Rattle.honest_miners.specs.Laws.{ThreeServedMiners};

/// Law: of three miners with the code of an accepted program, the share files and own tapes of one dealing, and one budget, to each of which has come on
/// its links a front of the bytes that its peers have sent: each has sent on a link a front of the hello and the frames of the joint run's messages;
/// what it has opened and told begins what evaluation opens and tells; it waits for more of its peers' bytes, and else has ended as evaluation does,
/// at its cost, having opened and told all. So none refuses what its peers have sent. Where all that was sent has come, each has ended; and the texts
/// of three that have ended are put together to the text of the run.
///
/// Beside this, of one node alone: that it does what its miner does on the messages that it has received, and that it ends as evaluation does where its
/// peers send all that the joint run sends; of messages instead of bytes, what three come to; and of texts, that those of a run make its text.
pub fn three_served_miners()
    ensures { ThreeServedMiners }
{}
