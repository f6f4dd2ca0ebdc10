// A miner serves its links.
ghost use Rattle.std.specs.Prelude.{◌≡◌, true, Some, None, IfOk, IfErr};
ghost use Rattle.outside.specs.Links.{LinksState};
ghost use Rattle.proto_core.specs.Parties.{count_of, sender_of, receiver_of};
ghost use Rattle.proto_core.specs.Standing.{Awaits};
ghost use Rattle.miner_core.specs.declared.answer.Lost.TheVariants as lost;
ghost use Rattle.miner_core.specs.declared.kept.Kept.TheVariants as kept;
ghost use Rattle.miner_core.specs.Drawing.{left_for};
ghost use Rattle.miner_core.specs.Miners.{held};
ghost use Rattle.miner_core.specs.Story.{Story, stands_at, strand_in};
ghost use Rattle.miner_core.specs.Streams.{ForEachTape, with_tape, story_so_far};
ghost use Rattle.miner_node.specs.Answers.{ReadsMessage};
ghost use Rattle.miner_node.specs.Serves.{IsFresh, DeliversOne, HasServed, HasStopped, Exchanges};
ghost use Rattle.miner_node.specs.Tapes.{Along, IsReady, ServesInOrder, StoppedBy, node_answer};
ghost use Rattle.miner_node.specs.Faults.{IsLater};
ghost use Rattle.miner_node.specs.Order.{InOrder};
ghost use Rattle.miner_node.specs.Turns.{EndsTurns, IsServing, TakesMessage, TurnAnswers};

use crate::greeting::greet;
use crate::node_err::{NodeErr, ServeErr};
use crate::reading::read_message;
use crate::sending::{SentCounts, send_new};
use miner_core::{End, Lost, Miner, MinerErr, NoTapes, Step};
use outside::{Links, TapeSource};
use proto_core::{Link, Msg, Party};
use sc_text::Ending;
use std::alloc::Global;
use wire::Hello;

/// What a node answers to a delivery.
fn as_node(answer: Result<Step, MinerErr>) -> Result<(), NodeErr>
    ensures { result ≡ node_answer answer }
{
    match answer {
        Ok(_) => Ok(()),
        Err(MinerErr::BadMessage { link, cause }) => Err(NodeErr::BadMessage { link, cause }),
        Err(MinerErr::NotAwaited { link: _ }) => Err(NodeErr::Memory),
        Err(MinerErr::Lost(_)) => Err(NodeErr::Memory),
    }
}

/// A message that came is delivered.
fn deliver<P: Party, T: TapeSource>(
    miner: &mut Miner<P>,
    link: Link,
    message: &Msg,
    tapes: &mut T,
) -> Result<(), NodeErr>
    requires to { receiver_of link ≡ P.me }
    requires kept { miner.old.past ≡ kept.All }
    requires going { miner.old.lost ≡ None }
    requires left { left_for P.me (T.state tapes.old) ≡ miner.old.ahead }
    requires awaited { ForEachTape (held miner.old) (λ s. stands_at P.me s ≡ Awaits link) }
    ensures { Along P.me (held miner.old) (held miner.new) (T.state tapes.old) (T.state tapes.new) result
        (λ tape. DeliversOne P.me (with_tape (held miner.old) tape) (with_tape (held miner.new) tape) link message.now result) }
{
    as_node(miner.deliver(link, message, tapes))
}

/// Whether a link ends at this miner.
fn ends_here<P: Party>(link: Link) -> bool
    ensures { result ≡ true → receiver_of link ≡ P.me }
{
    link.receiver().as_u8() == P::number().as_u8()
}

/// Reads the message of the next frame of a link.
fn read_of<L: Links>(links: &mut L, link: Link) -> Result<Msg, NodeErr>
    ensures { ReadsMessage (L.state links.old) (L.state links.new) (count_of (sender_of link)) result }
{
    read_message(links, link.sender().as_u8())
}

/// The next message of the awaited link is read, and delivered.
fn take_message<P: Party, L: Links, T: TapeSource>(
    miner: &mut Miner<P>,
    link: Link,
    links: &mut L,
    tapes: &mut T,
) -> Result<(), NodeErr>
    requires kept { miner.old.past ≡ kept.All }
    requires going { miner.old.lost ≡ None }
    requires left { left_for P.me (T.state tapes.old) ≡ miner.old.ahead }
    requires awaited { ForEachTape (held miner.old) (λ s. stands_at P.me s ≡ Awaits link) }
    ensures { Along P.me (held miner.old) (held miner.new) (T.state tapes.old) (T.state tapes.new) result
        (λ tape. TakesMessage P.me link (with_tape (held miner.old) tape) (with_tape (held miner.new) tape) (L.state links.old) (L.state links.new) result) }
{
    if !ends_here::<P>(link) {
        return Err(NodeErr::Memory);
    }
    let message = read_of(links, link)?;
    deliver(miner, link, &message, tapes)
}

/// One turn of a node: it sends what is new, and reads and delivers the next message, for which it waits. Else how its run has ended.
fn turn<P: Party, L: Links, T: TapeSource>(
    alloc: Global,
    miner: &mut Miner<P>,
    counts: &mut SentCounts,
    links: &mut L,
    tapes: &mut T,
) -> Result<Option<Ending>, NodeErr>
    requires kept { miner.old.past ≡ kept.All }
    requires going { miner.old.lost ≡ None }
    requires left { left_for P.me (T.state tapes.old) ≡ miner.old.ahead }
    ensures { Along P.me (held miner.old) (held miner.new) (T.state tapes.old) (T.state tapes.new) result (λ tape. (start : LinksState) (first : Story) →
        IsServing P.me start (L.state links.old) first (with_tape (held miner.old) tape) counts.old →
        TurnAnswers P.me start (L.state links.new) first (with_tape (held miner.new) tape) counts.new result) }
{
    send_new(alloc, miner, counts, links)?;
    match miner.stands() {
        Ok(Step::Waits(link)) => {
            take_message(miner, link, links, tapes)?;
            Ok(None)
        }
        Ok(Step::Ended(End::Over(ending))) => Ok(Some(ending)),
        Ok(Step::Ended(_)) => Err(NodeErr::Memory),
        Err(_) => Err(NodeErr::Memory),
    }
}

/// Turns of a node, until its run has ended.
fn turns<P: Party, L: Links, T: TapeSource>(
    alloc: Global,
    miner: &mut Miner<P>,
    links: &mut L,
    tapes: &mut T,
) -> Result<Ending, NodeErr>
    requires { IsReady P.me (held miner.old) (T.state tapes.old) }
    ensures { Along P.me (held miner.old) (held miner.new) (T.state tapes.old) (T.state tapes.new) result
        (λ tape. EndsTurns P.me (L.state links.old) (L.state links.new) (with_tape (held miner.old) tape) (with_tape (held miner.new) tape) result) }
{
    let mut counts = SentCounts {
        to_next: 0,
        to_previous: 0,
    };
    for _ in 0..u64::MAX {
        if let Some(ending) = turn(alloc, miner, &mut counts, links, tapes)? {
            return Ok(ending);
        }
    }
    Err(NodeErr::Memory)
}

/// Hellos, and then turns.
fn exchange<P: Party, L: Links, T: TapeSource>(
    alloc: Global,
    miner: &mut Miner<P>,
    hello: &Hello,
    links: &mut L,
    tapes: &mut T,
) -> Result<Ending, NodeErr>
    requires { IsReady P.me (held miner.old) (T.state tapes.old) }
    ensures { Along P.me (held miner.old) (held miner.new) (T.state tapes.old) (T.state tapes.new) result
        (λ tape. Exchanges P.me hello.now (L.state links.old) (L.state links.new) (with_tape (held miner.old) tape) (with_tape (held miner.new) tape) result) }
{
    greet(alloc, P::number(), hello, links)?;
    turns(alloc, miner, links, tapes)
}

/// Whether words of a miner's tape couldn't be drawn.
fn lost_its_tape<P: Party>(miner: &Miner<P>) -> bool
    ensures { result ≡ true → miner.now.lost ≡ Some lost.TapeFault }
{
    match miner.stands() {
        Err(MinerErr::Lost(Lost::TapeFault)) => true,
        Ok(_) | Err(_) => false,
    }
}

/// Why a node stopped that has answered this, and whose miner stands so.
fn stopped<P: Party>(miner: &Miner<P>, e: NodeErr) -> ServeErr
    ensures { StoppedBy e (held miner.now) result }
{
    if let NodeErr::Memory = e {
        if lost_its_tape(miner) {
            return ServeErr::TapeFault;
        }
    }
    ServeErr::Node(e)
}

/// A miner whose run has ended so, with all that it has done.
pub struct Served<P: Party> {
    pub miner: Miner<P>,
    pub ending: Ending,
}

/// A miner to which nothing was delivered serves its links until its run has ended: it sends both peers their hellos, reads theirs (the lower peer's first),
/// and then reads only the link for which it waits, a frame at a time. What it sends goes out before it waits: no frame is kept back. The words of its tape
/// are drawn from the source, when its gates begin.
///
/// It is given back as it then stands; its text is made of its notices and its end. Else the error says why it stopped. After `PeerMismatch`,
/// `BadFrame` and `BadMessage` exactly the bytes were sent that all that was read leads to; after `LinkFault`, `TapeFault` and `Memory` a front of those
/// for each peer. On links that are steady `LinkFault` comes exactly where a peer's bytes end before an awaited hello or frame, or within it.
/// `TapeFault` comes only where the source counted a fault in this call, and never where it is steady. What is said holds for each tape
/// that begins with the words drawn, and has as many after them as are left.
pub fn serve_from<P: Party, L: Links, T: TapeSource>(
    alloc: Global,
    miner: Miner<P>,
    hello: &Hello,
    links: &mut L,
    tapes: &mut T,
) -> Result<Served<P>, ServeErr>
    requires ready { IsReady P.me (held miner) (T.state tapes.old) }
    requires sender { hello.now.sender ≡ count_of P.me }
    ensures serves { ServesInOrder P.me hello.now (L.state links.old) (L.state links.new) (T.state tapes.old) (T.state tapes.new) (held miner) result
        (λ s. held s.miner) (λ s. s.ending) }
    ensures later { IsLater (L.state links.old) (L.state links.new) }
{
    let mut miner = miner;
    match exchange(alloc, &mut miner, hello, links, tapes) {
        Ok(ending) => Ok(Served { miner, ending }),
        Err(e) => Err(stopped(&miner, e)),
    }
}

/// A miner that has its whole tape by itself, and to which nothing was delivered, serves its links until its run has ended: it sends both peers their
/// hellos, reads theirs (the lower peer's first), and then reads only the link for which it waits, a frame at a time. What it sends goes out before it
/// waits: no frame is kept back.
///
/// It is given back as it then stands; its text is made of its notices and its end. Else the error says why it stopped. After `PeerMismatch`,
/// `BadFrame` and `BadMessage` exactly the bytes were sent that all that was read leads to; after `LinkFault` and `Memory` a front of those for each
/// peer. On links that are steady `LinkFault` comes exactly where a peer's bytes end before an awaited hello or frame, or within it.
pub fn serve<P: Party, L: Links>(
    alloc: Global,
    miner: Miner<P>,
    hello: &Hello,
    links: &mut L,
) -> Result<Served<P>, NodeErr>
    requires kept { miner.past ≡ kept.All }
    requires whole { miner.lost ≡ None → miner.ahead ≡ 0 }
    requires fresh { IsFresh (story_so_far (held miner)) }
    requires sender { hello.now.sender ≡ count_of P.me }
    ensures served { IfOk result (λ s. HasServed P.me hello.now (L.state links.old) (L.state links.new) (story_so_far (held miner))
        (story_so_far (held s.miner)) s.ending) }
    ensures stopped { IfErr result (HasStopped P.me hello.now (L.state links.old) (L.state links.new) (story_so_far (held miner))) }
    ensures order { InOrder P.me hello.now (strand_in P.me (story_so_far (held miner))) (L.state links.old) (L.state links.new) }
    ensures later { IsLater (L.state links.old) (L.state links.new) }
{
    match serve_from(alloc, miner, hello, links, &mut NoTapes) {
        Ok(served) => Ok(served),
        Err(ServeErr::Node(e)) => Err(e),
        Err(ServeErr::TapeFault) => Err(NodeErr::Memory),
    }
}
