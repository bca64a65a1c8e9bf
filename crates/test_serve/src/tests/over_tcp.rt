// Connections over TCP, on the machine's own address.
use super::{AT_1, DONE, is_at, journal, served, shelf};
use apron_base::Memory;
use std::alloc::Global;
use std::io;
use std::io::{Read, Write};
use std::net::{Net, SocketAddr, TcpListener, TcpStream};
use std::rt::Clock;
use std::sync::Wait;
use std::test::Fail;
use std::thread::{Threads, join};
use tcp_desks::{TcpDesks, TimeLimits};

// Two workers take this many connections each.
const EACH: usize = 2;

const ADDED: &[u8] =
    b"POST /visits HTTP/1.1\r\nConnection: close\r\nContent-Length: 78\r\n\r\n{\"name\":\"V1\",\"type\":\"A320\",\"class\":3,\"on\":600,\"off\":660,\"arr\":null,\"dep\":null}";

const ADDED_TOLD: &[u8] =
    b"HTTP/1.1 200 OK\r\nContent-Type: application/json\r\nContent-Length: 23\r\nX-Version: 1\r\n\r\n{\"version\":1,\"visit\":1}";

// Whether all connections are taken, and one visit is in the journal afterwards.
fn are_served<R: Wait + Threads + Clock + Sync>(
    rt: &R,
    alloc: Global,
    one: TcpDesks<'_, R>,
    two: TcpDesks<'_, R>,
) -> Result<bool, Memory> {
    let mut desks = Vec::from_array(alloc, [one, two])?;
    let mut shelf = shelf(alloc, &[])?;
    let (is_done, mut disk) = served(
        rt,
        alloc,
        "serve A T 2",
        &mut shelf,
        desks.as_mut_slice(),
        journal(alloc)?,
        DONE,
    )?;
    Ok(is_done && is_at(alloc, &mut disk, AT_1)?)
}

// Whether each of as many connections as are accepted is sent the reply, and closed.
fn are_told<N: Net<Listener = TcpListener, Stream = TcpStream>>(
    net: &N,
    alloc: Global,
    address: SocketAddr,
) -> io::Result<bool> {
    let mut all = true;
    for _ in 0..2 * EACH {
        let mut stream = TcpStream::connect(net, address)?;
        stream.write_all(ADDED)?;
        let mut told = Vec::new(alloc);
        stream.read_to_end(&mut told)?;
        all &= told.as_slice() == ADDED_TOLD;
    }
    Ok(all)
}

#[test]
fn desks_are_served_over_tcp(rt: HostRuntime) -> Result<(), Fail> {
    let alloc = rt.alloc();
    let one = TcpDesks::bind(&rt, TimeLimits::USUAL, "127.0.0.1:0")?;
    let Some(address) = one.address() else {
        return Err(Fail::new("an address"));
    };
    let two = one.beside();
    let (served, told) = join(
        &rt,
        || are_served(&rt, alloc, one, two),
        || are_told(&rt, alloc, address),
    );
    let is = served? && told?;
    assert!(rt; is);
    Ok(())
}
