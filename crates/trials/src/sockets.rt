//! Connections of the system's on 127.0.0.1, and clocks.

use asp_io::{Failed, Link, StdClock, TcpWire, Wire};
use std::io;
use std::io::{Read, Write};
use std::net::{Ipv4Addr, Net, OpenListener, OpenStream, Shutdown, TcpListener, TcpStream};
use std::test::Fail;
use std::thread::{join, sleep};
use std::time::{Clock, Duration, Instant};

/// A port at which nobody listens.
fn free_port<R: Net>(rt: &R) -> io::Result<u16> {
    let listener = TcpListener::bind(rt, (Ipv4Addr::LOCALHOST, 0))?;
    Ok(listener.local_addr()?.port())
}

/// A connection to a port at which somebody listens within 5 seconds.
fn connected<R: Net + Clock>(rt: &R, port: u16) -> io::Result<R::Stream> {
    for _ in 0..500 {
        if let Ok(stream) = TcpStream::connect(rt, (Ipv4Addr::LOCALHOST, port)) {
            return Ok(stream);
        }
        sleep(rt, Duration::from_millis(10));
    }
    TcpStream::connect(rt, (Ipv4Addr::LOCALHOST, port))
}

/// Sends so many bytes to a port and then no more, and gives what comes back.
fn asked<R: Net + Clock + AllocGlobal>(rt: &R, port: u16, bytes: usize) -> io::Result<String> {
    let mut stream = connected(rt, port)?;
    for _ in 0..bytes / 10 {
        stream.write_all(b"0123456789")?;
    }
    stream.shutdown(Shutdown::Write)?;
    io::read_to_string(rt.alloc(), stream)
}

/// Reads at most ten bytes of the next connection and writes them back.
fn answered<W: Wire>(wire: &mut W) -> Result<u32, Failed>
where
    W::L: Drop,
{
    let Some(mut link) = wire.accept()? else {
        return Err(Failed);
    };
    let mut buffer = [0u8; 10];
    let count = link.read(&mut buffer)?;
    link.write(&buffer[..count as usize])
}

#[test]
fn a_connection_over_tcp(rt: HostRuntime) -> Result<(), Fail> {
    let port = free_port(&rt)?;
    let mut wire = TcpWire::new(rt.clone()?, port);
    for _ in 0..2 {
        let (served, answer) = join(&rt, || answered(&mut wire), || asked(&rt, port, 10));
        assert!(rt; served == Ok(10));
        assert!(rt; answer?.as_str() == "0123456789");
    }
    Ok(())
}

#[test]
fn an_answer_before_all_was_read(rt: HostRuntime) -> Result<(), Fail> {
    let port = free_port(&rt)?;
    let mut wire = TcpWire::new(rt.clone()?, port);
    let (served, answer) = join(&rt, || answered(&mut wire), || asked(&rt, port, 1_000_000));
    assert!(rt; served == Ok(10));
    assert!(rt; answer?.as_str() == "0123456789");
    Ok(())
}

#[test]
fn a_peer_that_sends_nothing(rt: HostRuntime) -> Result<(), Fail> {
    let port = free_port(&rt)?;
    let mut wire = TcpWire::new(rt.clone()?, port);
    let began = Instant::now(&rt)?;
    let (served, waited) = join(
        &rt,
        || answered(&mut wire),
        || {
            let stream = connected(&rt, port)?;
            sleep(&rt, Duration::from_secs(4));
            stream.shutdown(Shutdown::Write)
        },
    );
    assert!(rt; served == Err(Failed));
    assert!(rt; began.elapsed(&rt)? >= Duration::from_secs(3));
    waited?;
    Ok(())
}

#[test]
fn a_port_that_is_taken(rt: HostRuntime) -> Result<(), Fail> {
    let taken = TcpListener::bind(&rt, (Ipv4Addr::LOCALHOST, 0))?;
    let port = taken.local_addr()?.port();
    let mut wire = TcpWire::new(rt.clone()?, port);
    assert!(rt; matches!(wire.accept(), Err(Failed)));
    Ok(())
}

#[test]
fn the_clock_of_the_system(rt: HostRuntime) -> Result<(), Fail> {
    let clock = StdClock::new(rt.clone()?);
    // The first second of 2024.
    assert!(rt; asp_io::Clock::seconds(&clock) >= 1_704_067_200);
    Ok(())
}
