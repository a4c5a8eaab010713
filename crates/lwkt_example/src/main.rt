//! Three programs of threads of one's own: a buffer, accounts, and copies of a value. Each has its claim at its function `run`.
#![tactic(auto)]

mod accounts;
mod buffer;
mod caches;
mod parties;

use accounts::ACCOUNTS;
use buffer::BUFFER;
use parties::SHARED;
use std::io;
use std::process::ExitCode;

fn main(rt: HostRuntime) -> io::Result<ExitCode> {
    let Ok(closed) = buffer::run(&rt, rt.alloc()) else {
        return Ok(ExitCode::from(1));
    };
    let (free, taken) = (closed.cell(BUFFER, 0), closed.cell(BUFFER, 1));
    let sections = closed.generation(BUFFER);
    println!(rt; "{free} places free, {taken} taken, after {sections} sections")?;
    let Ok(closed) = accounts::run(&rt, rt.alloc()) else {
        return Ok(ExitCode::from(1));
    };
    let (second, third) = (closed.cell(ACCOUNTS, 1), closed.cell(ACCOUNTS, 2));
    let (first, others) = (closed.cell(ACCOUNTS, 0), second.wrapping_add(third));
    println!(rt; "{first} units in the first account, {others} in the others")?;
    let Ok(closed) = caches::run(&rt, rt.alloc()) else {
        return Ok(ExitCode::from(1));
    };
    let (version, value) = (closed.cell(SHARED, 0), closed.cell(SHARED, 1));
    println!(rt; "version {version}, value {value}")?;
    Ok(ExitCode::SUCCESS)
}
