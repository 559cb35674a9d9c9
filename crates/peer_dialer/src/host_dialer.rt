//! TCP connections by the machine's network. This is the trusted edge: it tells no content.

ghost use Rattle.std.specs.Prelude.{◌≡◌};

use crate::{Closed, Counted, Dialed, Dialer, HostStream};
use kn_base::raised;
use std::io;
use std::io::ErrorKind;
use std::net::{Net, OpenStream, TcpStream, ToSocketAddrs};
use std::time::Duration;

/// How many seconds an address is given to answer, and octets may wait to go out.
const ANSWER_SECONDS: u64 = 10;

/// How many seconds a take waits before it is `Quiet`.
const TAKE_SECONDS: u64 = 1;

/// A dialer of addresses of IPv4 and IPv6, and of names that the system resolves.
#[derive(Drop)]
pub struct HostDialer<R: Net + Drop> {
    rt: R,
    faults: u64,
    given: u64,
}

impl<R: Net + Drop> HostDialer<R> {
    /// The dialer before its first dial.
    pub fn new(rt: R) -> HostDialer<R>
        ensures faults { (⟦<HostDialer<R> as Dialer>⟧.dealings result).faults ≡ 0 }
        ensures given { (⟦<HostDialer<R> as Dialer>⟧.dealings result).given ≡ 0 }
    {
        HostDialer {
            rt,
            faults: 0,
            given: 0,
        }
    }
}

/// The stream, which says each frame at once and waits for nothing for long.
fn impatient<S: OpenStream + Drop>(stream: S) -> io::Result<S> {
    stream.set_nodelay(true)?;
    stream.set_read_timeout(Some(Duration::from_secs(TAKE_SECONDS)))?;
    stream.set_write_timeout(Some(Duration::from_secs(ANSWER_SECONDS)))?;
    Ok(stream)
}

/// A connection to the first address of a host that answers in time, or the error of the last one.
fn connected<R: Net>(rt: &R, host: &[u8], port: u16) -> io::Result<R::Stream> {
    let Ok(host) = str::from_utf8(host) else {
        return Err(io::Error::from(ErrorKind::InvalidInput));
    };
    let limit = Duration::from_secs(ANSWER_SECONDS);
    let mut last = io::Error::from(ErrorKind::NotFound);
    for address in (host, port).to_socket_addrs(rt)? {
        match TcpStream::connect_timeout(rt, &address, limit) {
            Ok(stream) => return impatient(stream),
            Err(error) => last = error,
        }
    }
    Err(last)
}

impl<R: Net + Drop> Dialer for HostDialer<R> {
    type P = HostStream<R::Stream>;

    ghost use Rattle.peer_dialer.specs.Host.{untold_dealings};

    ghost dealings = { λ d. untold_dealings d.faults d.given };

    fn dial(&mut self, host: &[u8], port: u16) -> Dialed<HostStream<R::Stream>> {
        match connected(&self.rt, host, port) {
            Ok(stream) => {
                self.given = raised(self.given);
                Dialed::Peer(HostStream::new(stream))
            }
            Err(_) => {
                self.faults = raised(self.faults);
                Dialed::Failed
            }
        }
    }

    fn back(&mut self, peer: HostStream<R::Stream>) -> Closed {
        peer.close()
    }
}
