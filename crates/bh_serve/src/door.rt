//! Where a service listens.

use bh_base::Text;
use std::fmt;
use std::fmt::{Display, Formatter, Write};
use std::net::{Ipv4Addr, Net, SocketAddr, SocketAddrV4, TcpStream};
use std::os::unix::net::UnixStream;
use std::time::Duration;

/// How long a knock waits for an answer, in milliseconds.
const PATIENCE: u64 = 10;

/// Where a service listens: a port of 127.0.0.1, or the path of a Unix socket.
#[derive(Clone, Copy, Debug)]
pub enum Door {
    /// The port.
    Port(u16),
    /// The path, of fewer bytes than the system's 108.
    Path(Text<107>),
}

impl Door {
    /// Connects there and leaves at once, by which whoever waits there for a connection is woken.
    pub fn knock<R: Net>(&self, rt: &R) {
        match self {
            Door::Port(port) => {
                let address = SocketAddr::V4(SocketAddrV4::new(Ipv4Addr::LOCALHOST, *port));
                let _ = TcpStream::connect_timeout(rt, &address, Duration::from_millis(PATIENCE));
            }
            Door::Path(path) => {
                let _ = UnixStream::connect(rt, path.as_str());
            }
        }
    }
}

impl Display for Door {
    fn fmt<W: Write>(&self, f: &mut Formatter<W>) -> fmt::Result {
        match self {
            Door::Port(port) => write!(f, "{port}"),
            Door::Path(path) => f.write_str(path.as_str()),
        }
    }
}
