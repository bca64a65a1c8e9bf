//! Measures how fast parts of apron are: how fast airports are read and looked up in (`bench
//! airports`), movement messages read (`bench messages`) and turns taken at a board (`bench turns`).
//! `bench` alone says how each is called.
#![tactic(auto)]

mod airports;
mod messages;
mod turns;

use crate::airports::measure_airports;
use crate::messages::measure_messages;
use crate::turns::measure_turns;
use std::{env, io};

const USAGE: &str = "\
bench airports TIMES AIRPORT TYPES reads an airport at every limit TIMES times, looks up the rules of all pairs of stands and types of these files, and looks at the neighbours of their stands and at the slots of a full one
bench messages TIMES reads a message of 300 bytes and a text of 4000 bytes, each TIMES times
bench turns TURNS takes TURNS turns at a machine that does nothing, and a hundredth of them at one whose acts take 200 microseconds";

fn count_of(word: &str) -> u64 {
    word.parse::<u64>().unwrap_or(1)
}

fn main(rt: HostRuntime) -> io::Result<()> {
    let mut words = env::args(&rt)?.skip(1);
    let Some(what) = words.next() else {
        return println!(rt; "{USAGE}");
    };
    match (what.as_str(), words.next(), words.next(), words.next()) {
        ("airports", Some(times), Some(airport), Some(types)) => measure_airports(
            &rt,
            count_of(times.as_str()),
            airport.as_str(),
            types.as_str(),
        ),
        ("messages", Some(times), None, None) => measure_messages(&rt, count_of(times.as_str())),
        ("turns", Some(turns), None, None) => measure_turns(
            &rt,
            rt.alloc(),
            count_of(turns.as_str()),
        ),
        _ => println!(rt; "{USAGE}"),
    }
}
