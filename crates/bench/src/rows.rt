//! Measures times, and prints lines of numbers.
use anyhow::Result;
use std::io;
use std::time::Instant;

/// Returns the nanoseconds since `start`.
pub fn since(rt: &HostRuntime, start: Instant) -> Result<u64> {
    let time = start.elapsed(rt)?.as_nanos();
    Ok(u64::try_from(time).unwrap_or(u64::MAX))
}

/// Prints numbers and a name on one line.
pub fn show(rt: &HostRuntime, numbers: &[u64], name: &str) -> Result<()> {
    print_numbers(rt, numbers)?;
    println!(rt; " {name}")?;
    Ok(())
}

/// Prints numbers on one line.
pub fn show_numbers(rt: &HostRuntime, numbers: &[u64]) -> Result<()> {
    print_numbers(rt, numbers)?;
    println!(rt;)?;
    Ok(())
}

fn print_numbers(rt: &HostRuntime, numbers: &[u64]) -> io::Result<()> {
    let mut gap = "";
    for number in numbers {
        print!(rt; "{gap}{number}")?;
        gap = " ";
    }
    Ok(())
}
