// The system's TCP listener.
ghost use Rattle.std.specs.Prelude.{◌≡◌, IfOk};
ghost use Rattle.apron_base.specs.Listener.{Accepts};
ghost use Rattle.tcp_desks.specs.Desks.{new_desks, tcp_listener_state};

use crate::limits::TimeLimits;
use crate::taking::{Doorway, Reporter, Unreported, take_next};
use crate::timed::{TimedReader, TimedWriter};
use apron_base::{Failed, Listener, Outcome, ReaderSource, WriterSink};
use std::io;
use std::marker::Model;
use std::net::{Net, SocketAddr, TcpListener, TcpStream};
use std::sync::Wait;
use std::time::Clock;

/// Connections over TCP. Each reply is sent at once. A read or a write fails if the peer does
/// nothing for as long as the limits of time allow. Accepting goes on while the system has no
/// memory or descriptor for a connection, and if a connection was cut before it was accepted. It
/// counts each accept that failed for another cause. Contracts see that count, and how many
/// connections were accepted and finished; it exposes no connection.
#[derive(Drop)]
pub struct TcpDesks<'a, C> {
    // `None` if it listens nowhere
    entrance: Option<Entrance<'a, C>>,
    // why it can't accept, if it listens
    cause: Option<io::Error>,
    accepted: u64,
    ended: u64,
    faults: u64,
}

impl<'a, C> Model for TcpDesks<'a, C> {
    ghost use Rattle.std.specs.Prelude.{◌≤◌};
    ghost use Rattle.tcp_desks.specs.Desks.{DesksState};

    ghost Value = { DesksState };

    ghost view = { λ d. record { accepted = d.accepted; ended = d.ended; faults = d.faults } };

    ghost invariant = { λ d. d.ended ≤ d.accepted };
}

/// Both ends of a connection over TCP.
pub type TcpEnds<'a, C> = (ReaderSource<TimedReader<'a, C>>, WriterSink<TimedWriter>);

impl<'a, C: Net<Listener = TcpListener, Stream = TcpStream>> TcpDesks<'a, C> {
    /// Listens at the address, as it is written: an IPv4 address, an IPv6 address in brackets or a
    /// host's name, then a colon and a port. An address that a server had a moment ago can be bound
    /// again. Peers may take as long as the limits say. `Err` says why it can't be bound.
    pub fn bind(rt: &'a C, limits: TimeLimits, address: &str) -> io::Result<Self>
        ensures unused { IfOk result (λ desks. desks ≡ new_desks) }
    {
        let listener = TcpListener::bind(rt, address)?;
        let entrance = Entrance {
            listener,
            clock: rt,
            limits,
        };
        Ok(TcpDesks::over(Some(entrance), None))
    }
}

impl<'a, C> TcpDesks<'a, C> {
    /// Listens nowhere: each accept fails.
    pub fn nowhere() -> Self
        ensures unused { result ≡ new_desks }
    {
        TcpDesks::over(None, None)
    }

    /// The address that it listens at, with the port that the system chose if none was asked for.
    pub fn address(&self) -> Option<SocketAddr> {
        self.entrance.as_ref()?.listener.local_addr().ok()
    }

    /// Another listener at the same address, for another worker. If the system gives none, each of
    /// its accepts fails.
    pub fn beside(&self) -> Self
        ensures unused { result ≡ new_desks }
    {
        match &self.entrance {
            Some(entrance) => match entrance.beside() {
                Ok(entrance) => TcpDesks::over(Some(entrance), None),
                Err(cause) => TcpDesks::over(None, Some(cause)),
            },
            None => TcpDesks::over(None, None),
        }
    }

    /// Why the last failed accept failed, or why the system gave no listener to accept at; `None`
    /// if no accept has failed, or if it listens nowhere.
    pub fn cause(&self) -> Option<io::Error> {
        self.cause
    }

    fn over(entrance: Option<Entrance<'a, C>>, cause: Option<io::Error>) -> Self
        ensures unused { result ≡ new_desks }
    {
        TcpDesks {
            entrance,
            cause,
            accepted: 0,
            ended: 0,
            faults: 0,
        }
    }
}

impl<'a, C: Clock> TcpDesks<'a, C> {
    /// Accepts the first connection to come, as a `Listener` does, and reports how it waits.
    pub fn accept_reporting<R: Wait, N: Reporter>(
        &mut self,
        rt: &R,
        reporter: &mut N,
    ) -> Result<TcpEnds<'a, C>, Failed>
        ensures accepts { Accepts (tcp_listener_state self.old)
            (tcp_listener_state self.new) result }
    {
        match self.next_ends(rt, reporter) {
            Some(ends) if self.accepted < u64::MAX => {
                self.accepted += 1;
                Ok(ends)
            }
            _ => {
                self.faults = self.faults.saturating_add(1);
                Err(Failed)
            }
        }
    }

    // Both ends of the next connection. If there is none it keeps the cause.
    fn next_ends<R: Wait, N: Reporter>(
        &mut self,
        rt: &R,
        reporter: &mut N,
    ) -> Option<TcpEnds<'a, C>>
        ensures counts { self.new ≡ self.old }
    {
        match take_next(rt, self.entrance.as_mut()?, reporter) {
            Ok(ends) => Some(ends),
            Err(cause) => {
                self.cause = Some(cause);
                None
            }
        }
    }
}

impl<'a, C: Clock> Listener for TcpDesks<'a, C> {
    type In = ReaderSource<TimedReader<'a, C>>;

    type Out = WriterSink<TimedWriter>;

    ghost state = { tcp_listener_state };

    fn accept<R: Wait>(&mut self, rt: &R) -> Result<(Self::In, Self::Out), Failed> {
        self.accept_reporting(rt, &mut Unreported)
    }

    /// It closes the connection.
    fn finish(&mut self, _input: Self::In, _output: Self::Out, _outcome: Outcome) {
        // Reading this count tells the proof its range; fewer have ended.
        let _most = self.accepted;
        self.ended += 1;
    }
}

// The system's listener, and for how long its peers may keep a worker.
#[derive(Drop)]
struct Entrance<'a, C> {
    listener: TcpListener,
    clock: &'a C,
    limits: TimeLimits,
}

impl<'a, C> Entrance<'a, C> {
    // Another one at the same address.
    fn beside(&self) -> io::Result<Self> {
        Ok(Entrance {
            listener: self.listener.try_clone()?,
            clock: self.clock,
            limits: self.limits,
        })
    }
}

impl<'a, C: Clock> Doorway for Entrance<'a, C> {
    ghost use Rattle.std.specs.Prelude.{None};

    type Ends = TcpEnds<'a, C>;

    ghost failures = { λ _. None };

    // If the system has no descriptor for the second end, the connection is cut.
    fn take(&mut self) -> io::Result<Self::Ends> {
        let (stream, _peer) = self.listener.accept()?;
        // If this fails, replies may be sent late, which is no fault.
        let _sent_at_once = stream.set_nodelay(true);
        let output = TimedWriter::new(stream.try_clone()?, self.limits);
        let input = TimedReader::new(stream, self.clock, self.limits);
        Ok((ReaderSource::new(input), WriterSink::new(output)))
    }
}
