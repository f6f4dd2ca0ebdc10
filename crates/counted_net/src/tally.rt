// Numbers of messages, link by link.
ghost use Rattle.std.specs.Prelude.{◌≡◌, ◌<◌, ◌-◌, ◌^◌};
ghost use Rattle.proto_core.specs.declared.link.Link.{Link};
ghost use Rattle.protocol_model.specs.Network.{one_less, one_more, place_of};
ghost use Rattle.counted_net.specs.Cursors.{tally_on};

use proto_core::Link;

/// Where the count of a link stands.
pub(crate) fn place(link: Link) -> usize
    ensures place { result ≡ place_of link }
    ensures within { result < 6 }
{
    match link {
        Link::Link12 => 0,
        Link::Link13 => 1,
        Link::Link21 => 2,
        Link::Link23 => 3,
        Link::Link31 => 4,
        Link::Link32 => 5,
    }
}

/// How many messages of each link.
#[derive(Drop)]
pub struct Tally {
    counts: [usize; 6],
}

impl Tally {
    /// None of any link.
    pub fn new() -> Tally
        ensures { (l : Link) → tally_on result l ≡ 0 }
    {
        Tally { counts: [0; 6] }
    }

    /// How many of this link.
    pub fn on(&self, link: Link) -> usize
        ensures { result ≡ tally_on self.now link }
    {
        self.counts[place(link)]
    }

    /// One more of this link.
    pub fn add(&mut self, link: Link)
        requires { tally_on self.old link < 2 ^ 64 - 1 }
        ensures { (l : Link) → tally_on self.new l ≡ one_more link (tally_on self.old) l }
    {
        self.counts[place(link)] += 1;
    }

    /// One less of this link.
    pub fn remove(&mut self, link: Link)
        requires { 0 < tally_on self.old link }
        ensures { (l : Link) → tally_on self.new l ≡ one_less link (tally_on self.old) l }
    {
        self.counts[place(link)] -= 1;
    }
}
