//! A dialer on the machine, over the loopback.

use crate::ends::{put_closed, put_give, put_take};
use kn_base::{Memory, Octets, Peer};
use line_cases::put_text;
use peer_dialer::{Dialed, Dialer, HostDialer};
use std::io;
use std::io::{Read, Write};
use std::net::{Net, OpenListener, TcpListener};

/// A listener on a port that is free, and the port.
fn listen<R: Net>(rt: &R, host: &str) -> io::Result<(R::Listener, u16)> {
    let listener = TcpListener::bind(rt, (host, 0))?;
    let port = listener.local_addr()?.port();
    Ok((listener, port))
}

/// Puts last the first octets that a stream reads.
fn put_read<S: Read>(stream: &mut S, report: &mut Octets) -> Result<(), Memory> {
    let mut buffer = [0; 16];
    match stream.read(&mut buffer) {
        Ok(count) => put_text(report, &buffer[..count.min(16)]),
        Err(_) => report.extend_from_slice(b"not read"),
    }
}

/// A talk between a peer and the other side, which closes it in the end.
fn put_talk<P: Peer, S: Read + Write + Drop>(
    peer: &mut P,
    mut other: S,
    report: &mut Octets,
) -> Result<(), Memory> {
    let sent = other.write(b"hello");
    report.extend_from_slice(if sent.is_ok() {
        b"sent, "
    } else {
        b"not sent, "
    })?;
    put_take(peer, report)?;
    report.extend_from_slice(b", ")?;
    put_take(peer, report)?;
    report.extend_from_slice(b", ")?;
    put_give(peer, b"welcome", report)?;
    report.extend_from_slice(b" ")?;
    put_read(&mut other, report)?;
    drop(other);
    report.extend_from_slice(b", ")?;
    put_take(peer, report)?;
    report.extend_from_slice(b", ")?;
    put_take(peer, report)
}

/// A dial, and the talk with who accepts it.
fn put_accepted<D: Dialer, L: OpenListener>(
    dialer: &mut D,
    listener: &L,
    host: &[u8],
    port: u16,
    report: &mut Octets,
) -> Result<(), Memory>
where
    L::Stream: Read + Write,
{
    match dialer.dial(host, port) {
        Dialed::Peer(peer) => {
            let mut peer = peer;
            let talk = match listener.accept() {
                Ok((other, _)) => put_talk(&mut peer, other, report),
                Err(_) => report.extend_from_slice(b"not accepted"),
            };
            let past = dialer.back(peer);
            talk?;
            report.extend_from_slice(b", ")?;
            put_closed(report, &past)
        }
        Dialed::Failed => report.extend_from_slice(b"failed"),
        Dialed::Gone => report.extend_from_slice(b"gone"),
    }
}

/// A dial that nobody answers.
fn put_unanswered<D: Dialer>(
    dialer: &mut D,
    host: &[u8],
    port: u16,
    report: &mut Octets,
) -> Result<(), Memory> {
    match dialer.dial(host, port) {
        Dialed::Peer(peer) => {
            dialer.back(peer);
            report.extend_from_slice(b" | answered")
        }
        Dialed::Failed => report.extend_from_slice(b" | failed"),
        Dialed::Gone => report.extend_from_slice(b" | gone"),
    }
}

/// `loopback HOST`: a listener on a host of this machine is dialled, says `hello`, is silent, hears `welcome`, and closes. Then nobody listens
/// there any more; and a host whose name is no text is dialled.
pub fn put_loopback<R: Net + Copy + Drop>(
    rt: R,
    host: &[u8],
    report: &mut Octets,
) -> Result<(), Memory> {
    let name = str::from_utf8(host).unwrap_or("");
    let Ok((listener, port)) = listen(&rt, name) else {
        return report.extend_from_slice(b"no listener");
    };
    let mut dialer = HostDialer::new(rt);
    put_accepted(&mut dialer, &listener, host, port, report)?;
    drop(listener);
    put_unanswered(&mut dialer, host, port, report)?;
    put_unanswered(&mut dialer, b"\xFF", port, report)
}
