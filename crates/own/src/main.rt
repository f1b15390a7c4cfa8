//! A program of your own, to begin with: each line of standard input is a request, and goes to a dependency behind a socket.
//! Its answer, or that of the fallback, is a line on standard output.
#![tactic(auto)]

use bh_audit::{Book, Pass, Shared};
use bh_base::{Answer, CallError, Cause, FallbackEnd, GroupId, Request, RunEnd, Text};
use bh_core::Core;
use bh_props::Settings;
use bh_serve::clock::{MachineClock, Ticks};
use bh_workers::{Dependency, call, timer_loop, worker_loop};
use std::alloc::Global;
use std::io::{BufRead, BufReader, ErrorKind, Read, Write};
use std::net::{Net, SocketAddr, TcpListener, TcpStream};
use std::process::ExitCode;
use std::rt::Clock;
use std::sync::Wait;
use std::thread::{JoinHandle, Scope, Threads};
use std::time::Duration;
use std::{env, io, slice, str, thread};

/// The settings. A run that takes longer than 300 milliseconds is answered by its fallback, and where half of three runs or
/// more were bad, the dependency is left alone for two seconds.
const SETTINGS: &str = "service.groups = [\"stock\"]
[hystrix.threadpool.stock]
coreSize = 4
[hystrix.command.stock]
execution.isolation.thread.timeoutInMilliseconds = 300
circuitBreaker.requestVolumeThreshold = 3
circuitBreaker.sleepWindowInMilliseconds = 2000
metrics.healthSnapshot.intervalInMilliseconds = 0
";

/// The first group of the settings.
const STOCK: GroupId = GroupId(0);

/// The steps that each group may do before it is worn. A request takes five at most, and a timer adds one where something is
/// due: at ten thousand steps a second these last three years.
const MOST_STEPS: u64 = 1 << 40;

/// The slots of all groups.
const MOST_SLOTS: u32 = 4_096;

/// How many milliseconds a connection may take, and each write and read: so a worker is not held for ever.
const CONNECT_MILLIS: u64 = 200;

const ANSWER_MILLIS: u64 = 5_000;

/// The dependency: a server that answers each line by a line.
#[derive(Drop)]
struct Stock<'e, R> {
    rt: &'e R,
    address: SocketAddr,
}

impl<'e, R: Net<Listener = TcpListener, Stream = TcpStream>> Stock<'e, R> {
    /// Sends the argument, and gives the line that answers it.
    fn ask(&self, arg: &str) -> io::Result<Text<256>> {
        let connecting = Duration::from_millis(CONNECT_MILLIS);
        let mut stream = TcpStream::connect_timeout(self.rt, &self.address, connecting)?;
        stream.set_read_timeout(Some(Duration::from_millis(ANSWER_MILLIS)))?;
        stream.set_write_timeout(Some(Duration::from_millis(ANSWER_MILLIS)))?;
        stream.write_all(arg.as_bytes())?;
        stream.write_all(b"\n")?;
        read_line(&mut stream)
    }
}

/// The bytes of the reader up to a line feed, at most 256 of them.
fn read_line<S: Read>(stream: &mut S) -> io::Result<Text<256>> {
    let mut bytes = [0u8; 256];
    for length in 0..bytes.len() {
        let (line, rest) = bytes.split_at_mut(length);
        if stream.read(&mut rest[..1])? == 0 {
            return Err(io::Error::from(ErrorKind::UnexpectedEof));
        }
        if rest[0] == b'\n' {
            return match str::from_utf8(line) {
                Ok(line) => Text::new(line).map_err(|_| io::Error::from(ErrorKind::InvalidData)),
                Err(_) => Err(io::Error::from(ErrorKind::InvalidData)),
            };
        }
    }
    Err(io::Error::from(ErrorKind::InvalidData))
}

impl<'e, R: Net<Listener = TcpListener, Stream = TcpStream>> Dependency for Stock<'e, R> {
    ghost ends = { λ group command arg end. Unit {0} };

    ghost fallback_ends = { λ group command cause arg end. Unit {0} };

    fn run(&self, _group: GroupId, _command: u8, arg: &Text<64>) -> RunEnd {
        self.ask(arg.as_str())
            .map_or(RunEnd::Failure, RunEnd::Success)
    }

    fn fallback(
        &self,
        _group: GroupId,
        _command: u8,
        _cause: Cause,
        _arg: &Text<64>,
    ) -> FallbackEnd {
        Text::new("ask again later").map_or(FallbackEnd::Failure, FallbackEnd::Success)
    }
}

fn main(rt: HostRuntime) -> ExitCode {
    match run(&rt, &rt) {
        Ok(()) => ExitCode::SUCCESS,
        Err(error) => {
            let _ = eprintln!(&rt; "own: {error}");
            ExitCode::FAILURE
        }
    }
}

/// Serves standard input, with the dependency at the address that is the argument.
fn run<R>(rt: &HostRuntime, handles: &R) -> io::Result<()>
where
    R: Net<Listener = TcpListener, Stream = TcpStream> + Threads + Wait + Clock + Print + Sync,
{
    let alloc = rt.alloc();
    let arguments: Vec<String> = env::args(rt)?.collect(alloc)?;
    let Some(Ok(address)) = arguments
        .get(1)
        .map(|text| text.as_str().parse::<SocketAddr>())
    else {
        return Err(io::Error::new(ErrorKind::InvalidInput, "own ADDRESS:PORT <REQUESTS"));
    };
    let shared = service(alloc)?;
    let stock = Stock {
        rt: handles,
        address,
    };
    let clock = MachineClock::start(handles);
    let server = Server {
        rt: handles,
        alloc,
        shared: &shared,
        stock: &stock,
        clock: &clock,
    };
    server.serve(BufReader::new(alloc, rt.reader())?)
}

/// The service of the groups of the settings, all new.
fn service(alloc: Global) -> io::Result<Shared> {
    let settings = bh_props::read(alloc, SETTINGS).map_err(|_| io::Error::new(
        ErrorKind::InvalidInput,
        "the settings are refused",
    ))?;
    let book = core_of(alloc, &settings).and_then(|core| Book::new(alloc, core, None).ok());
    match book.and_then(|book| Shared::new(alloc, book).ok()) {
        Some(shared) => Ok(shared),
        None => Err(io::Error::from(ErrorKind::OutOfMemory)),
    }
}

/// A core with the groups of the settings. None comes where memory was refused.
fn core_of(alloc: Global, settings: &Settings) -> Option<Core> {
    let mut core = Core::new(alloc, MOST_SLOTS);
    for (_name, props) in settings.groups.iter() {
        core.register(props, MOST_STEPS).ok()?;
    }
    Some(core)
}

/// What each thread has at hand.
#[derive(Drop)]
struct Server<'e, R> {
    rt: &'e R,
    alloc: Global,
    shared: &'e Shared,
    stock: &'e Stock<'e, R>,
    clock: &'e MachineClock<'e, R>,
}

impl<'e, R: Net<Listener = TcpListener, Stream = TcpStream> + Threads + Wait + Clock + Sync> Server<
    'e,
    R,
> {
    /// Starts a worker for each that the pool may have, and the timer.
    fn start<'s>(
        &'e self,
        scope: &'s Scope<'s, &'e ()>,
        threads: &mut Vec<JoinHandle<()>>,
    ) -> io::Result<()> {
        for _ in 0..self.shared.workers(self.rt, STOCK) {
            let pass = self.pass()?;
            threads.push(scope.spawn(move || self.work(pass))?)?;
        }
        let pass = self.pass()?;
        threads.push(scope.spawn(move || self.keep_time(pass))?)?;
        Ok(())
    }

    /// A pass of the group, without room for receipts.
    fn pass(&self) -> io::Result<Pass> {
        match self.shared.pass(self.rt, self.alloc, STOCK, 0) {
            Ok(pass) => Ok(pass),
            Err(_) => Err(io::Error::from(ErrorKind::OutOfMemory)),
        }
    }

    /// What a worker does.
    fn work(&self, mut pass: Pass) {
        worker_loop(self.rt, self.shared, &mut pass, self.stock, self.clock);
    }

    /// What the timer does.
    fn keep_time(&self, mut pass: Pass) {
        let (passes, mut pace) = (slice::from_mut(&mut pass), Ticks::new(self.rt));
        timer_loop(self.rt, self.shared, passes, self.clock, &mut pace);
    }
}

impl<
    'e,
    R: Net<Listener = TcpListener, Stream = TcpStream> + Threads + Wait + Clock + Print + Sync,
> Server<'e, R> {
    /// Starts the workers and the timer, answers each line of the input, and ends them.
    fn serve<I: BufRead + Drop>(&self, input: I) -> io::Result<()> {
        thread::scope(thread::scope_env(), self.rt, |scope| {
            let mut threads = Vec::new(self.alloc);
            let served = match self.start(scope, &mut threads) {
                Ok(()) => self.answer(input),
                Err(error) => Err(error),
            };
            self.shared.stop(self.rt);
            for thread in threads {
                thread.join(self.rt);
            }
            served
        })
    }

    /// Makes a request of each line, and prints its answer.
    fn answer<I: BufRead + Drop>(&self, input: I) -> io::Result<()> {
        let mut pass = self.pass()?;
        for line in input.lines(self.alloc) {
            let line = line?;
            let Ok(arg) = Text::new(line.as_str()) else {
                println!(self.rt; "too long")?;
                continue;
            };
            let request = Request {
                command: 0,
                cache: None,
                arg,
            };
            let answer = call(
                self.rt,
                self.shared,
                &mut pass,
                self.stock,
                self.clock,
                request,
            );
            self.print(&answer)?;
        }
        Ok(())
    }

    /// Prints an answer, or why there is none.
    fn print(&self, answer: &Result<Answer, CallError>) -> io::Result<()> {
        match answer {
            Ok(Answer::Value(body)) => println!(self.rt; "{}", body.as_str()),
            Ok(Answer::FallbackValue { cause, body }) => {
                println!(self.rt; "{} ({cause:?})", body.as_str())
            }
            other => println!(self.rt; "{other:?}"),
        }
    }
}
