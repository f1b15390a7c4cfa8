//! The services on a port of this machine, or on a socket of it.

ghost use Rattle.std.specs.Prelude.{◌≡◌, ◌⊎◌, IsErr};
ghost use Rattle.bh_props.specs.SettingsFile.{settings_in};

use crate::place::{Place, PlaceListener, leave, listen, made_at};
use crate::record_file::{RecordFile, open_record};
use crate::{explain, report};
use bh_props::{Settings, SettingsError, settings_in};
use bh_serve::{Acceptor, Door, Limits, Reports, serve_through};
use bh_share_serve::{Sharing, share_through};
use std::alloc::{AllocError, Global};
use std::fs::{File, Files};
use std::io::{Read, Write};
use std::net::{Net, TcpListener, TcpStream};
use std::rt::Clock;
use std::sync::{Arc, Mutex, Wait};
use std::thread::{JoinHandle, Threads};
use std::{io, thread};

/// Where a service listens, which connections it serves, and what it says of what is refused.
#[derive(Clone, Copy)]
pub struct Serving<'a> {
    /// The port or the socket.
    pub place: Place<'a>,
    /// How many connections it serves, and for how long.
    pub limits: Limits,
    /// Whether a second line says more where the settings are refused or nothing can listen there.
    pub explains: bool,
}

/// What is served.
#[derive(Clone, Copy)]
pub enum Service<'a> {
    /// Groups over a dependency that echoes, which answer control lines.
    Echo,
    /// Groups whose dependencies the clients run, with a record in the file of the path where there is one.
    Shared {
        sharing: Sharing,
        record: Option<&'a str>,
    },
}

/// What is served, with its record begun.
#[derive(Drop)]
enum Begun {
    Echo,
    Shared {
        sharing: Sharing,
        record: Option<RecordFile>,
    },
}

/// Serves connections to a place under the settings, as many as the limits say, and answers the exit status. Where an input
/// is given, its end tells the service to stop, whatever went before; what it gives does not matter.
///
/// - 0: the connections were served, or the input ended.
/// - 1: the settings are refused, and nothing listened.
/// - 3: nothing can listen there, the record can't be begun, or a fault of the service, as `serve_through` and
///   `share_through` have them.
///
/// The file of a record is made once the service listens, and emptied where it was there: a start that is refused before
/// leaves it as it is.
///
/// With 1 and 3 a line on `errors` says why. A thread of its own writes what the service says there, so that it waits for no
/// reader, and at its end for three quarters of a second at most. Once the threads of the service stand, the line
/// `listening` with the port's number or the socket's path is printed. The socket is removed at the end, where it is still this
/// service's.
pub fn serve_file<R, I, E>(
    rt: &R,
    alloc: Global,
    settings: &[u8],
    serving: Serving<'_>,
    service: Service<'_>,
    input: Option<I>,
    mut errors: E,
) -> u8
where
    I: Read + Send + Drop + 'static,
    E: Write + Send + Drop + 'static,
    R: Net<Listener = TcpListener, Stream = TcpStream>
        + Files<File = File>
        + Threads
        + Wait
        + Clock
        + Print
        + Copy
        + Send
        + Sync
        + 'static,
    ensures status { (result ≡ 0) ⊎ ((result ≡ 1) ⊎ (result ≡ 3)) }
    ensures refused_only { result ≡ 1 → IsErr (settings_in settings.now) }
    ensures refused { IsErr (settings_in settings.now) → (result ≡ 1) ⊎ (result ≡ 3) }
{
    match settings_in(alloc, settings) {
        Ok(settings) => {
            let server = Server {
                rt,
                alloc,
                settings: &settings,
                serving,
            };
            server.serve_place(service, input, errors)
        }
        Err(error) => {
            let status = report::settings(&mut errors, error);
            if serving.explains {
                explain::refused_settings(&mut errors, alloc, settings);
            }
            status
        }
    }
}

/// A service under settings that are in force: what each step of its start has at hand.
#[derive(Drop)]
struct Server<'a, R> {
    rt: &'a R,
    alloc: Global,
    settings: &'a Settings,
    serving: Serving<'a>,
}

impl<R> Server<'_, R>
where
    R: Net<Listener = TcpListener, Stream = TcpStream>
        + Files<File = File>
        + Threads
        + Wait
        + Clock
        + Print
        + Copy
        + Send
        + Sync
        + 'static,
{
    /// Listens at the place, and serves the connections to it.
    fn serve_place<I, E>(&self, service: Service<'_>, input: Option<I>, mut errors: E) -> u8
    where
        I: Read + Send + Drop + 'static,
        E: Write + Send + Drop + 'static,
        ensures { (result ≡ 0) ⊎ (result ≡ 3) }
    {
        let place = self.serving.place;
        let explains = self.serving.explains;
        let Some((listener, door)) = listen(self.rt, self.alloc, place, explains, &mut errors)
        else {
            return report::FAULT;
        };
        let made = made_at(self.rt, place);
        let status = match self.begin(service, &mut errors) {
            Some(begun) => self.serve_listener(&listener, door, begun, input, errors),
            None => report::FAULT,
        };
        leave(self.rt, place, made);
        status
    }

    /// Begins the record, where there is to be one. Where that can't be, a line on `errors` says so.
    fn begin<E: Write>(&self, service: Service<'_>, errors: &mut E) -> Option<Begun> {
        let (sharing, path) = match service {
            Service::Echo => return Some(Begun::Echo),
            Service::Shared { sharing, record } => (sharing, record),
        };
        let Some(path) = path else {
            return Some(Begun::Shared {
                sharing,
                record: None,
            });
        };
        match open_record(self.rt, self.alloc, path) {
            Ok(file) => Some(Begun::Shared {
                sharing,
                record: Some(file),
            }),
            Err(error) => {
                report::record(errors);
                if self.serving.explains {
                    explain::unopened_record(errors, path, &error);
                }
                None
            }
        }
    }

    /// Serves the connections to the listener, and tells the service to stop at the end of the input, where there is one.
    fn serve_listener<I, E>(
        &self,
        listener: &PlaceListener,
        door: Door,
        service: Begun,
        input: Option<I>,
        mut errors: E,
    ) -> u8
    where
        I: Read + Send + Drop + 'static,
        E: Write + Send + Drop + 'static,
        ensures { (result ≡ 0) ⊎ (result ≡ 3) }
    {
        let Ok(acceptor) = shared_acceptor(self.alloc, self.serving.limits) else {
            return report::settings(&mut errors, SettingsError::Memory);
        };
        match input {
            Some(input) => self.serve_watched(&acceptor, listener, door, service, input, errors),
            None => self.serve_reported(&acceptor, listener, &door, service, errors),
        }
    }

    /// Serves the connections of the listener, with a thread that waits for the end of the input.
    fn serve_watched<I, E>(
        &self,
        acceptor: &Arc<Acceptor, Global>,
        listener: &PlaceListener,
        door: Door,
        service: Begun,
        input: I,
        mut errors: E,
    ) -> u8
    where
        I: Read + Send + Drop + 'static,
        E: Write + Send + Drop + 'static,
        ensures { (result ≡ 0) ⊎ (result ≡ 3) }
    {
        let Some(watcher) = self.start_watcher(input, acceptor, door) else {
            return report::thread(&mut errors);
        };
        let status = self.serve_reported(acceptor, listener, &door, service, errors);
        self.join_if_told(acceptor, watcher);
        status
    }

    /// Serves the connections of the listener, with a thread that writes what is said of them.
    fn serve_reported<E>(
        &self,
        acceptor: &Acceptor,
        listener: &PlaceListener,
        door: &Door,
        service: Begun,
        errors: E,
    ) -> u8
    where
        E: Write + Send + Drop + 'static,
        ensures { (result ≡ 0) ⊎ (result ≡ 3) }
    {
        match Arc::new(self.alloc, Mutex::new(errors)) {
            Ok(errors) => self.serve_told(acceptor, listener, door, service, &errors),
            Err(refused) => {
                let mut errors = refused.value.into_inner();
                report::settings(&mut errors, SettingsError::Memory)
            }
        }
    }

    /// The same, where the thread can be handed what it writes to.
    fn serve_told<E>(
        &self,
        acceptor: &Acceptor,
        listener: &PlaceListener,
        door: &Door,
        service: Begun,
        errors: &Arc<Mutex<E>, Global>,
    ) -> u8
    where
        E: Write + Send + Drop + 'static,
        ensures { (result ≡ 0) ⊎ (result ≡ 3) }
    {
        let Ok(reports) = Arc::new(self.alloc, Reports::new()) else {
            return report::settings(&mut *errors.lock(self.rt), SettingsError::Memory);
        };
        let Some(writer) = self.start_writer(&reports, errors) else {
            return report::thread(&mut *errors.lock(self.rt));
        };
        let status = self.serve_connections(acceptor, listener, door, service, &reports);
        // One that is still held up by a reader is cut off by the end of the program.
        if reports.finish(self.rt) {
            writer.join(self.rt);
        }
        status
    }

    /// Serves the connections of the listener, and says what is amiss to the reports.
    fn serve_connections(
        &self,
        acceptor: &Acceptor,
        listener: &PlaceListener,
        door: &Door,
        service: Begun,
        reports: &Reports,
    ) -> u8
        ensures { (result ≡ 0) ⊎ (result ≡ 3) }
    {
        let mut output = io::writer(self.rt);
        match service {
            Begun::Echo => serve_through(
                self.rt,
                self.alloc,
                acceptor,
                listener,
                door,
                self.settings,
                &mut output,
                reports,
            ),
            Begun::Shared { sharing, record } => share_through(
                self.rt,
                self.alloc,
                acceptor,
                listener,
                door,
                self.settings,
                sharing,
                record,
                &mut output,
                reports,
            ),
        }
    }

    /// Starts the thread that writes what the service says.
    fn start_writer<E: Write + Send + Drop + 'static>(
        &self,
        reports: &Arc<Reports, Global>,
        errors: &Arc<Mutex<E>, Global>,
    ) -> Option<JoinHandle<()>> {
        let reports = Arc::try_clone(reports).ok()?;
        let errors = Arc::try_clone(errors).ok()?;
        let handles = *self.rt;
        thread::spawn(self.rt, move || reports.write_to(&handles, &errors)).ok()
    }

    /// Starts the thread that tells the service to stop at the end of the input.
    fn start_watcher<I: Read + Send + Drop + 'static>(
        &self,
        input: I,
        acceptor: &Arc<Acceptor, Global>,
        door: Door,
    ) -> Option<JoinHandle<()>> {
        let acceptor = Arc::try_clone(acceptor).ok()?;
        let handles = *self.rt;
        thread::spawn(
            self.rt,
            move || watch_all(&handles, input, &acceptor, &door),
        )
        .ok()
    }

    /// Waits for the watcher, where the input has ended. Where a fault ended the service, it may still wait for that end, and
    /// the end of the program cuts it off.
    fn join_if_told(&self, acceptor: &Acceptor, watcher: JoinHandle<()>) {
        if acceptor.was_told(self.rt) {
            watcher.join(self.rt);
        }
    }
}

/// The acceptor of the service, which the watcher of the input shares.
fn shared_acceptor(alloc: Global, limits: Limits) -> Result<Arc<Acceptor, Global>, AllocError> {
    Ok(Arc::new(alloc, Acceptor::new(alloc, limits)?)?)
}

/// What the watcher does with its input.
fn watch_all<R: Net + Wait + Clock, I: Read + Drop>(
    rt: &R,
    mut input: I,
    acceptor: &Acceptor,
    door: &Door,
) {
    watch(rt, &mut input, acceptor, door);
}

/// Reads the input to its end, and tells the service to stop then. An input that fails has ended.
pub fn watch<R: Net + Wait + Clock, I: Read>(
    rt: &R,
    input: &mut I,
    acceptor: &Acceptor,
    door: &Door,
) {
    let mut ignored = [0u8; 256];
    for _ in 0..u64::MAX {
        match input.read(&mut ignored) {
            Ok(0) | Err(_) => break,
            Ok(_) => {}
        }
    }
    acceptor.tell(rt, door);
}
