// Three miners, and messages that pass from one to another.
ghost use Rattle.std.specs.Prelude.{◌≡◌, ◌≤◌, None, length, option_map, slice_get};
ghost use Rattle.outside.specs.Tapes.{TapesState};
ghost use Rattle.proto_core.specs.Parties.{receiver_of};
ghost use Rattle.miner_core.specs.Drawing.{left_for};
ghost use Rattle.protocol_model.specs.Network.{waits_for};
ghost use Rattle.miner_core.specs.Miners.{IsOf, MinerState};
ghost use Rattle.miner_core.specs.Story.{node};
ghost use Rattle.miner_core.specs.Streams.{ForEachTape};
ghost use Rattle.link_schedule.specs.Coming.{taken_by, ForEachOf};
ghost use Rattle.link_schedule.specs.Miners.{fetched, streams, AreOf, Can, CanBy, CanPass, HasPassed, HasGiven, MinerStates, Next, Passes, Previous};
ghost use Rattle.link_schedule.specs.Parts.{sent_in};

use miner_core::{Lost, Miner, MinerErr, Step};
use outside::TapeSource;
use proto_core::{Link, P1, P2, P3, Party};

/// What comes of a message, by what the miner to whom it comes answers. Where it isn't accepted, and where the miner has ended, it has come all the
/// same.
fn taken(answer: Result<Step, MinerErr>) -> Result<(), Lost>
    ensures { result ≡ taken_by answer }
{
    match answer {
        Ok(_) => Ok(()),
        Err(MinerErr::BadMessage { link: _, cause: _ }) => Ok(()),
        Err(MinerErr::NotAwaited { link: _ }) => Ok(()),
        Err(MinerErr::Lost(lost)) => Err(lost),
    }
}

/// A message comes to a miner.
fn give<P: Party, T: TapeSource>(
    miner: &mut Miner<P>,
    link: Link,
    words: &[u64],
    tapes: &mut T,
) -> Result<(), Lost>
    requires receiver { receiver_of link ≡ P.me }
    requires few { length words.now ≤ 2048 }
    ensures { (w : MinerState) → IsOf P.me miner.old w → w.stream.lost ≡ None → left_for P.me (T.state tapes.old) ≡ w.stream.ahead →
        HasGiven P.me link words.now w miner.new (T.state tapes.old) (T.state tapes.new) result }
{
    taken(miner.deliver_words(link, words, tapes))
}

/// The oldest message to the next miner that wasn't fetched comes to it.
fn pass_to_next<S: Party, R: Party, T: TapeSource>(
    sender: &mut Miner<S>,
    receiver: &mut Miner<R>,
    link: Link,
    tapes: &mut T,
) -> Result<(), Lost>
    requires { CanBy Next S.me R.me link sender.old receiver.old (T.state tapes.old) }
    ensures { (w v : MinerState) → Can Next S.me R.me link sender.old receiver.old w v (T.state tapes.old) →
        Passes Next S.me R.me link w v sender.new receiver.new (T.state tapes.old) (T.state tapes.new) result }
{
    let Some(words) = sender.oldest_to_next() else {
        unreachable!()
    };
    give(receiver, link, words, tapes)?;
    sender.fetch_to_next();
    Ok(())
}

/// The oldest message to the previous miner that wasn't fetched comes to it.
fn pass_to_previous<S: Party, R: Party, T: TapeSource>(
    sender: &mut Miner<S>,
    receiver: &mut Miner<R>,
    link: Link,
    tapes: &mut T,
) -> Result<(), Lost>
    requires { CanBy Previous S.me R.me link sender.old receiver.old (T.state tapes.old) }
    ensures { (w v : MinerState) → Can Previous S.me R.me link sender.old receiver.old w v (T.state tapes.old) →
        Passes Previous S.me R.me link w v sender.new receiver.new (T.state tapes.old) (T.state tapes.new) result }
{
    let Some(words) = sender.oldest_to_previous() else {
        unreachable!()
    };
    give(receiver, link, words, tapes)?;
    sender.fetch_to_previous();
    Ok(())
}

/// The link for whose next message a miner waits, also where its oldest message isn't accepted.
pub(crate) fn awaited<P: Party>(miner: &Miner<P>) -> Option<Link>
    ensures { (w : MinerState) → IsOf P.me miner.now w → ForEachTape w.stream (λ s. result ≡ waits_for (node P.me s).left) }
{
    match miner.stands() {
        Ok(Step::Waits(link)) => Some(link),
        Ok(Step::Ended(_)) => None,
        Err(MinerErr::BadMessage { link, cause: _ }) => Some(link),
        Err(MinerErr::NotAwaited { link: _ }) => None,
        Err(MinerErr::Lost(_)) => None,
    }
}

/// The three miners of a net.
pub(crate) struct Miners {
    pub one: Miner<P1>,
    pub two: Miner<P2>,
    pub three: Miner<P3>,
}

// Written out, so that an early exit calls this once.
impl Drop for Miners {
    fn drop(self) {
        let Miners {
            one: _,
            two: _,
            three: _,
        } = self;
    }
}

impl Miners {
    /// The oldest message of a link that wasn't fetched, where it lies.
    pub fn oldest(&self, link: Link) -> Option<&[u64]>
        ensures { (w : MinerStates) → AreOf self.now w →
            ForEachOf (streams w) (λ m. option_map (λ words. words.now) result ≡ slice_get (sent_in m link) (fetched w link)) }
    {
        match link {
            Link::Link12 => self.one.oldest_to_next(),
            Link::Link13 => self.one.oldest_to_previous(),
            Link::Link21 => self.two.oldest_to_previous(),
            Link::Link23 => self.two.oldest_to_next(),
            Link::Link31 => self.three.oldest_to_next(),
            Link::Link32 => self.three.oldest_to_previous(),
        }
    }

    /// The oldest message of a link that wasn't fetched comes to its receiver.
    pub fn pass<T: TapeSource>(&mut self, link: Link, tapes: &mut T) -> Result<(), Lost>
        requires { (w : MinerStates) × CanPass link self.old w (T.state tapes.old) }
        ensures { (w : MinerStates) → CanPass link self.old w (T.state tapes.old) →
            HasPassed link w self.new (T.state tapes.old) (T.state tapes.new) result }
    {
        match link {
            Link::Link12 => pass_to_next(&mut self.one, &mut self.two, Link::Link12, tapes),
            Link::Link13 => pass_to_previous(&mut self.one, &mut self.three, Link::Link13, tapes),
            Link::Link21 => pass_to_previous(&mut self.two, &mut self.one, Link::Link21, tapes),
            Link::Link23 => pass_to_next(&mut self.two, &mut self.three, Link::Link23, tapes),
            Link::Link31 => pass_to_next(&mut self.three, &mut self.one, Link::Link31, tapes),
            Link::Link32 => pass_to_previous(&mut self.three, &mut self.two, Link::Link32, tapes),
        }
    }
}
