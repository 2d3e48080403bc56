//! What a run leaves, as text.

use osrd_stdcm::Status;
use outside_io::MemOutside;
use std::alloc::Global;
use std::{io, str};

/// The sinks that stand ready for each run, and are printed behind it.
pub const SINKS: [&str; 3] = ["A", "B", "out"];

/// The status of a run, and the lines that its report and its sinks hold.
pub fn outcome_of(alloc: Global, status: Status, outside: &MemOutside) -> io::Result<String> {
    let number = status.number();
    let mut text = format!(in alloc; "  status {number}\n")?;
    match outside.report_of() {
        Some(report) => push_lines(alloc, &mut text, "report", report.bytes())?,
        None => text.push_str("  the report is not put back\n")?,
    }
    for name in SINKS {
        match outside.sink_of(name) {
            Some(sink) => push_lines(alloc, &mut text, name, sink.bytes())?,
            None => push_line(&mut text, name, "is not put back", 1)?,
        }
    }
    Ok(text)
}

// Puts the lines of these bytes behind a text, equal neighbours as one with their number.
fn push_lines(alloc: Global, text: &mut String, name: &str, bytes: &[u8]) -> io::Result<()> {
    let Ok(lines) = str::from_utf8(bytes) else {
        return push_line(text, name, "is no text", 1);
    };
    let mut last = String::new(alloc);
    let mut times = 0u64;
    for line in lines.lines() {
        if times > 0 && line == last.as_str() {
            times = times.saturating_add(1);
        } else {
            push_line(text, name, last.as_str(), times)?;
            last = String::from_str(alloc, line)?;
            times = 1;
        }
    }
    push_line(text, name, last.as_str(), times)?;
    if times > 0 && !lines.ends_with('\n') {
        text.push_str("  and the line is not ended\n")?;
    }
    Ok(())
}

// Puts a line behind a text, and how often it comes where that is not once.
fn push_line(text: &mut String, name: &str, line: &str, times: u64) -> io::Result<()> {
    match times {
        0 => {}
        1 => writeln!(text, "  {name}: {line}")?,
        _ => writeln!(text, "  {name}: {line}, {times} times")?,
    }
    Ok(())
}
