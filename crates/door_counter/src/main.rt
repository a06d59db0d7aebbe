//! Threads that count at one door: what they count is there at the end, whatever the schedule.
#![tactic(auto)]

mod counter;
mod threads;

use std::io;
use std::io::{Error, ErrorKind};

fn main(rt: HostRuntime) -> io::Result<()> {
    let Ok(total) = threads::count_by_two(&rt, rt.alloc(), 1000) else {
        return Err(Error::from(ErrorKind::OutOfMemory));
    };
    println!(rt; "{total}")?;
    let Ok((first, second, total)) = threads::three_and_four(&rt, rt.alloc()) else {
        return Err(Error::from(ErrorKind::OutOfMemory));
    };
    println!(rt; "{first} {second} {total}")?;
    let Ok((failed, five)) = threads::five_after_a_failure(&rt, rt.alloc()) else {
        return Err(Error::from(ErrorKind::OutOfMemory));
    };
    println!(rt; "{failed} {five}")
}
