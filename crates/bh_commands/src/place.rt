//! Where a service is to listen, and what listens there.

ghost use Rattle.std.specs.Prelude.{◌≡◌, None, ℕ};
ghost use Rattle.bh_commands.specs.declared.place.Place.TheVariants as places;

use crate::socket::{FileId, SocketFault, bind_socket, file_at, remove_socket};
use crate::{explain, report};
use bh_base::Text;
use bh_serve::{Door, SocketListener};
use std::alloc::Global;
use std::fs::Files;
use std::io;
use std::io::Write;
use std::net::{Ipv4Addr, Net, OpenListener, SocketAddr, TcpListener, TcpStream};

/// Where a service is to listen.
#[derive(Clone, Copy, Debug)]
pub enum Place<'a> {
    /// The port of 127.0.0.1.
    Port(u16),
    /// The path of a Unix socket that only its owner may open.
    Socket(&'a str),
}

/// What listens at a place.
#[derive(Drop)]
pub enum PlaceListener {
    Port(TcpListener),
    Socket(SocketListener),
}

impl OpenListener for PlaceListener {
    type Stream = TcpStream;

    fn accept(&self) -> io::Result<(TcpStream, SocketAddr)> {
        match self {
            PlaceListener::Port(listener) => listener.accept(),
            PlaceListener::Socket(listener) => listener.accept(),
        }
    }
}

/// Listens at the place. Where that can't be, a line on `errors` says so, with a second one that says more where it is to be
/// explained, and there is no listener.
pub fn listen<R, E: Write>(
    rt: &R,
    alloc: Global,
    place: Place<'_>,
    explains: bool,
    errors: &mut E,
) -> Option<(PlaceListener, Door)>
where
    R: Net<Listener = TcpListener, Stream = TcpStream> + Files,
{
    match place {
        Place::Port(port) => listen_on_port(rt, port, explains, errors),
        Place::Socket(path) => listen_on_socket(rt, alloc, path, explains, errors),
    }
}

/// Binds the port.
fn listen_on_port<R, E: Write>(
    rt: &R,
    port: u16,
    explains: bool,
    errors: &mut E,
) -> Option<(PlaceListener, Door)>
where
    R: Net<Listener = TcpListener, Stream = TcpStream>,
{
    let listener = match TcpListener::bind(rt, (Ipv4Addr::LOCALHOST, port)) {
        Ok(listener) => listener,
        Err(error) => {
            report::network(errors);
            if explains {
                explain::unbound_port(errors, port, &error);
            }
            return None;
        }
    };
    match listener.local_addr() {
        Ok(address) => Some((PlaceListener::Port(listener), Door::Port(address.port()))),
        Err(_) => {
            report::network(errors);
            None
        }
    }
}

/// Makes the socket.
fn listen_on_socket<R: Net + Files, E: Write>(
    rt: &R,
    alloc: Global,
    path: &str,
    explains: bool,
    errors: &mut E,
) -> Option<(PlaceListener, Door)> {
    let fault = match open_socket(rt, alloc, path) {
        Ok(opened) => return Some(opened),
        Err(fault) => fault,
    };
    report::socket(errors, path, &fault);
    if explains && let SocketFault::System(error) = &fault {
        explain::unbound_socket(errors, path, error);
    }
    None
}

/// Makes the socket, and says where it is.
fn open_socket<R: Net + Files>(
    rt: &R,
    alloc: Global,
    path: &str,
) -> Result<(PlaceListener, Door), SocketFault> {
    let Ok(text) = Text::new(path) else {
        return Err(SocketFault::LongPath);
    };
    let listener = bind_socket(rt, alloc, path)?;
    Ok((PlaceListener::Socket(listener), Door::Path(text)))
}

/// Which file stands at the place, where listening there made one.
pub fn made_at<R: Files>(rt: &R, place: Place<'_>) -> Option<FileId>
    ensures { (port : ℕ) → place.entry ≡ places.Port port → result ≡ None }
{
    match place {
        Place::Port(_) => None,
        Place::Socket(path) => file_at(rt, path),
    }
}

/// Takes away the file that listening at the place made, where it is still there, and nothing that came in its stead.
pub fn leave<R: Files>(rt: &R, place: Place<'_>, made: Option<FileId>) {
    if let Place::Socket(path) = place
        && made.is_some()
        && file_at(rt, path) == made
    {
        remove_socket(rt, path);
    }
}
