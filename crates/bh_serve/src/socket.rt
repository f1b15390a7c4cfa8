//! A Unix socket, listened to as a port is.

use std::io;
use std::net::{Ipv4Addr, OpenListener, SocketAddr, SocketAddrV4, TcpStream};
use std::os::fd::OwnedFd;
use std::os::unix::net::UnixListener;

/// The listener of a Unix socket. Its connections are handed out as those of a port are: once they are open, the system reads
/// and writes both by the same calls.
#[derive(Drop)]
pub struct SocketListener(UnixListener);

impl SocketListener {
    /// The same listener.
    pub fn new(listener: UnixListener) -> SocketListener {
        SocketListener(listener)
    }
}

impl OpenListener for SocketListener {
    type Stream = TcpStream;

    /// The address is that of no port: whoever connects to a Unix socket has none.
    fn accept(&self) -> io::Result<(TcpStream, SocketAddr)> {
        let (stream, _from) = self.0.accept()?;
        let nowhere = SocketAddr::V4(SocketAddrV4::new(Ipv4Addr::LOCALHOST, 0));
        Ok((TcpStream::from(OwnedFd::from(stream)), nowhere))
    }
}
