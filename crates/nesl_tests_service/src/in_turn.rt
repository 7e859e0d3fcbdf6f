//! Connections that are played to a service.
use crate::client::{ann_and_bob, connect, ends, hears, seats_of_two};
use nesl_service::service::{ServeFault, serve_on};
use std::alloc::{AllocError, Global};
use std::net::{Net, SocketAddr, TcpListener, TcpStream};
use std::sync::Wait;
use std::test::Fail;
use std::thread;
use std::thread::Threads;
use std::time::Clock;

// Sessions outlast connections, and a user has one connection at a time. A user line is no form within a session.
fn are_heard<R: Net<Stream = TcpStream>>(rt: &R, alloc: Global, address: SocketAddr) -> bool {
    let ann = connect(rt, address);
    let three = "user ann => user ann\nx = 3; => x = 3 : int (work 1, depth 1)";
    let are_begun = hears(alloc, &ann, three);
    let bob = connect(rt, address);
    let five = "user bob => user bob\nx = 5; => x = 5 : int (work 1, depth 1)";
    let are_apart = hears(alloc, &bob, five) && ends(&bob);
    let other = connect(rt, address);
    let is_refused = hears(alloc, &other, "user ann => fault busy") && ends(&other);
    let it = "user bob => fault syntax (work 0)\nx; => it = 3 : int (work 1, depth 1)";
    let is_kept = hears(alloc, &ann, it) && ends(&ann);
    let again = connect(rt, address);
    let it = "user bob => user bob\nx; => it = 5 : int (work 1, depth 1)";
    are_begun && are_apart && is_refused && is_kept && hears(alloc, &again, it) && ends(&again)
}

// How many lines are served to four connections, by three threads and two workers. The table stays on this thread, so
// no proof has to show that sessions may be sent to another one.
fn lines_served<R: Threads + Wait + Clock + Sync>(
    rt: &R,
    alloc: Global,
    listener: &TcpListener,
) -> Option<u128> {
    let table = seats_of_two(alloc)?;
    let closed = serve_on(rt, alloc, listener, table, 3, 2, Some(4)).ok()?;
    Some(closed.lines)
}

// Whether four connections are answered as they should be, and how many lines are counted in the end.
fn four_connections<
    R: Net<Listener = TcpListener, Stream = TcpStream> + Threads + Wait + Clock + Sync,
>(rt: &R, alloc: Global) -> Result<(bool, Option<u128>), Fail> {
    let listener = TcpListener::bind(rt, "127.0.0.1:0")?;
    let address = listener.local_addr()?;
    Ok(thread::join(
        rt,
        || are_heard(rt, alloc, address),
        || lines_served(rt, alloc, &listener),
    ))
}

#[test]
fn two_users_are_served(rt: HostRuntime) -> Result<(), Fail> {
    assert!(rt; four_connections(&rt, rt.alloc())? == (true, Some(5)));
    Ok(())
}

// The lines and the users of a service that waits for this many connections and gets none.
fn unserved<R: Net<Listener = TcpListener, Stream = TcpStream> + Threads + Wait + Clock + Sync>(
    rt: &R,
    alloc: Global,
    threads: usize,
    connections: Option<u64>,
) -> Result<(u128, usize), Fail> {
    let listener = TcpListener::bind(rt, "127.0.0.1:0")?;
    let table = ann_and_bob(alloc)?;
    let closed = serve_on(rt, alloc, &listener, table, threads, 1, connections)?;
    Ok((closed.lines, closed.house.users().len()))
}

#[test]
fn no_connection_is_served_where_none_is_wanted(rt: HostRuntime) -> Result<(), Fail> {
    assert!(rt; unserved(&rt, rt.alloc(), 2, Some(0))? == (0, 2));
    assert!(rt; unserved(&rt, rt.alloc(), 0, None)? == (0, 2));
    Ok(())
}

fn fault_texts(alloc: Global) -> Result<String, AllocError> {
    let mut text = String::new(alloc);
    for fault in [
        ServeFault::Socket,
        ServeFault::Memory,
        ServeFault::Table,
        ServeFault::Keep,
    ] {
        write!(text, "{fault}, ")?;
    }
    Ok(text)
}

#[test]
fn faults_have_texts(rt: HostRuntime) -> Result<(), Fail> {
    let wanted = "serve: socket fault, serve: no memory, serve: table fault, serve: keep fault, ";
    assert!(rt; fault_texts(rt.alloc())?.as_str() == wanted);
    Ok(())
}

#[test]
fn a_table_with_a_session_away_is_not_closed(rt: HostRuntime) -> Result<(), Fail> {
    let listener = TcpListener::bind(&rt, "127.0.0.1:0")?;
    let (table, other) = (ann_and_bob(rt.alloc())?, ann_and_bob(rt.alloc())?);
    let Ok(lease) = table.take(&rt, b"bob") else {
        panic!(rt; "bob's session is at home");
    };
    let served = serve_on(&rt, rt.alloc(), &listener, table, 1, 0, Some(0));
    other.give(&rt, lease);
    assert!(rt; served.err() == Some(ServeFault::Table));
    Ok(())
}
