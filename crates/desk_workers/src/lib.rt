//! Workers that serve desks in turns at one machine: a board with watches, alone or with something
//! around it. A desk asks through a port: that of its seat, or that of a machine which it has to
//! itself. A worker serves a listener's connections by a `ConnectionHandler`: over such a port, or
//! over something else, such as a screen. Several workers have a thread each, and a job may run
//! beside them. The crate knows nothing of the command line and of sockets, nor of what is around a
//! board.
#![tactic(auto)]

mod alone;
mod crew;
mod machine;
mod seat_port;
mod served;
mod watched;
mod worker;

pub use alone::AlonePort;
pub use crew::{Workplace, first_end, serve_board, work_all};
pub use machine::DeskMachine;
pub use seat_port::SeatPort;
pub use served::Served;
pub use worker::{ConnectionHandler, WorkEnd, work};
