//! `poold`: pools of AS numbers and of VLANs. Its commands are in `pool_command`; its stores are SQLite files.
#![tactic(auto)]

use ipam_listen::TcpDoors;
use pool_command::{PATIENCE, program};
use pool_files::HostPoolFiles;
use pool_keeper::keeper::PoolOpener;
use sqlite_pools::SqlitePoolOpener;
use std::env;
use std::marker::Sync;
use std::net::{Net, TcpListener, TcpStream};
use std::process::ExitCode;
use std::sync::Wait;
use std::thread::Threads;
use std::time::{Clock, Duration};

/// Runs the program over a listener over TCP. `threads` is the runtime once more, as what it is asked for there.
fn run_over<
    R: Net<Listener = TcpListener, Stream = TcpStream> + Clock + Threads + Wait + Sync,
    O: PoolOpener,
>(rt: &HostRuntime, threads: &R, opener: &mut O) -> ExitCode {
    let mut listener = TcpDoors::new(threads, rt.alloc(), Duration::from_secs(PATIENCE));
    program(rt, threads, env::args(rt), &mut listener, opener)
}

fn main(rt: HostRuntime) -> ExitCode {
    let mut opener = SqlitePoolOpener::new(rt.alloc(), HostPoolFiles::of(&rt));
    run_over(&rt, &rt, &mut opener)
}
