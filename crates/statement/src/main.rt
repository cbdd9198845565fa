// Prints the statement of the call file on standard input.
#![tactic(auto)]

use report::report::Report;
use std::io;
use std::io::{BufWriter, Read, Write};

// The bytes that a report is of.
fn read_file(rt: &HostRuntime) -> io::Result<Vec<u8>> {
    let mut file = Vec::new(rt.alloc());
    rt.stdin().take(65536).read_to_end(&mut file)?;
    Ok(file)
}

fn print_report(rt: &HostRuntime, file: &[u8]) -> io::Result<()> {
    let mut report = Report::new(rt.alloc(), file)?;
    let mut out = BufWriter::new(rt.alloc(), rt.stdout())?;
    let mut memory = [0; 32];
    while let Ok(Some(length)) = report.line(&mut memory) {
        out.write_all(&memory[0..length])?;
    }
    out.flush()
}

fn main(rt: HostRuntime) -> io::Result<()> {
    let file = read_file(&rt)?;
    print_report(&rt, file.as_slice())
}
