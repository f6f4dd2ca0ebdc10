// Links over TCP on this machine's loopback network.
ghost use Rattle.std.specs.Prelude.{◌≡◌, ◌+◌, ◌-◌, ◌<◌, ◌≤◌};
ghost use Rattle.real_objects.specs.Untold.{untold_links};

use crate::attempts::{read_some, write_some};
use crate::vectors::push;
use outside::{FileErr, Links};
use std::alloc::Global;
use std::net::{IpAddr, Ipv4Addr, Net, OpenListener, OpenStream, Shutdown, SocketAddr};
use std::time::{Clock, Duration};
use std::{io, thread};

/// How often a peer is tried before a fault is counted.
const MAX_TRIES: u32 = 1_000_000;

/// How often a peer is tried at once, before each try waits for a millisecond.
const PROMPT_TRIES: u32 = 300;

/// Links over TCP. Nothing is told of them; each error is counted.
///
/// When they are dropped, each stream's sending half is shut down first, so that its peer reads all that was sent and then the
/// stream's end.
pub struct RealLinks<'a, R: Net + Clock> {
    rt: &'a R,
    alloc: Global,
    // Of peers 1 to 3, in this order; none of this one's own number.
    streams: Vec<Option<R::Stream>>,
    faults: u64,
}

// The port of a pair of peers: (1,2), (1,3) and (2,3) have this one and the next two.
fn pair_port(lower: u8, higher: u8, port: u16) -> u16
    requires lower_from { 1 ≤ lower }
    requires in_order { lower < higher }
    requires higher_to { higher ≤ 3 }
    requires port_to { port ≤ 65533 }
    ensures { result ≡ port + (lower + higher - 3) }
{
    port + u16::from(lower + higher - 3)
}

// Both ends of a pair use 127.0.0.2. The system gives a try that names no address of its own 127.0.0.1, so one at a port on which
// nobody listens yet can't meet itself here, and streams of other programs at this port of 127.0.0.1 don't hinder a bind.
fn loopback(port: u16) -> SocketAddr {
    SocketAddr::new(IpAddr::V4(Ipv4Addr::new(127, 0, 0, 2)), port)
}

// Whether this stream has another end than itself: a try at a port on which nobody listens can meet its own.
fn is_joined<S: OpenStream>(stream: &S, port: u16) -> bool {
    stream.local_addr().is_ok_and(|addr| addr.port() != port)
}

// The stream to the peer that listens on this port, or will soon.
fn reach<R: Net + Clock>(rt: &R, port: u16) -> io::Result<R::Stream> {
    for tries in 0..MAX_TRIES {
        if tries >= PROMPT_TRIES {
            thread::sleep(rt, Duration::from_millis(1));
        }
        if let Ok(stream) = rt.connect(loopback(port)) {
            if is_joined(&stream, port) {
                stream.set_nodelay(true)?;
                return Ok(stream);
            }
        }
    }
    Err(io::Error::from(io::ErrorKind::TimedOut))
}

// Listens for each peer of a higher number.
fn listen<R: Net>(rt: &R, alloc: Global, me: u8, port: u16) -> io::Result<Vec<R::Listener>>
    requires me_from { 1 ≤ me }
    requires me_to { me ≤ 3 }
    requires port_to { port ≤ 65533 }
{
    let mut listeners = Vec::new(alloc);
    for peer in me + 1..4 {
        push(
            &mut listeners,
            rt.bind(loopback(pair_port(me, peer, port)))?,
        )?;
    }
    Ok(listeners)
}

// Connects to the peers of a lower number.
fn reach_lower<R: Net + Clock>(
    rt: &R,
    me: u8,
    port: u16,
    streams: &mut Vec<Option<R::Stream>>,
) -> io::Result<()>
    requires me_to { me ≤ 3 }
    requires port_to { port ≤ 65533 }
{
    for peer in 1..me {
        push(streams, Some(reach(rt, pair_port(peer, me, port))?))?;
    }
    Ok(())
}

// The stream to the peer that comes to this listener.
fn accept<R: Net>(listener: &R::Listener) -> io::Result<R::Stream> {
    let (stream, _) = listener.accept()?;
    stream.set_nodelay(true)?;
    Ok(stream)
}

// Accepts the peers of a higher number.
fn accept_higher<R: Net>(
    listeners: &[R::Listener],
    streams: &mut Vec<Option<R::Stream>>,
) -> io::Result<()> {
    for listener in listeners {
        push(streams, Some(accept::<R>(listener)?))?;
    }
    Ok(())
}

// Connects to the lower peers and then accepts the higher ones.
fn join_peers<R: Net + Clock>(
    rt: &R,
    me: u8,
    port: u16,
    listeners: &[R::Listener],
    streams: &mut Vec<Option<R::Stream>>,
) -> io::Result<()>
    requires me_to { me ≤ 3 }
    requires port_to { port ≤ 65533 }
{
    reach_lower(rt, me, port, streams)?;
    push(streams, None)?;
    accept_higher::<R>(listeners, streams)
}

// The streams to all three: it binds all its ports before it joins a peer.
fn join<R: Net + Clock>(
    rt: &R,
    alloc: Global,
    me: u8,
    port: u16,
) -> io::Result<Vec<Option<R::Stream>>>
    requires me_from { 1 ≤ me }
    requires me_to { me ≤ 3 }
    requires port_to { port ≤ 65533 }
{
    let listeners = listen(rt, alloc, me, port)?;
    let mut streams = Vec::new(alloc);
    join_peers(rt, me, port, &listeners, &mut streams)?;
    Ok(streams)
}

// Ends the sending half of each stream.
fn end_sending<S: OpenStream>(streams: &[Option<S>]) {
    for stream in streams {
        if let Some(stream) = stream {
            let _ = stream.shutdown(Shutdown::Write);
        }
    }
}

impl<R: Net + Clock> Drop for RealLinks<'_, R> {
    fn drop(self) {
        end_sending(&self.streams);
        let RealLinks {
            rt: _,
            alloc: _,
            streams: _,
            faults: _,
        } = self;
    }
}

impl<'a, R: Net + Clock> RealLinks<'a, R> {
    /// Links that are not joined to any peer.
    pub fn new(rt: &'a R, alloc: Global) -> Self
        ensures { result.faults ≡ 0 }
    {
        RealLinks {
            rt,
            alloc,
            streams: Vec::new(alloc),
            faults: 0,
        }
    }
}

impl<'a, R: Net + Clock> Links for RealLinks<'a, R> {
    ghost state = { λ s. untold_links s.faults };

    fn connect(&mut self, me: u8, port: u16) -> Result<(), FileErr> {
        if let Ok(streams) = join(self.rt, self.alloc, me, port) {
            self.streams = streams;
            return Ok(());
        }
        self.faults = self.faults.saturating_add(1);
        Err(FileErr::Failed)
    }

    fn send(&mut self, peer: u8, piece: &[u8]) -> Result<usize, FileErr> {
        if let Some(Some(stream)) = self.streams.get_mut(peer as usize - 1) {
            if let Some(count) = write_some(stream, piece) {
                return Ok(count);
            }
        }
        self.faults = self.faults.saturating_add(1);
        Err(FileErr::Failed)
    }

    fn recv(&mut self, peer: u8, into: &mut [u8]) -> Result<usize, FileErr> {
        if let Some(Some(stream)) = self.streams.get_mut(peer as usize - 1) {
            if let Some(count) = read_some(stream, into) {
                return Ok(count);
            }
        }
        self.faults = self.faults.saturating_add(1);
        Err(FileErr::Failed)
    }
}
