//! The measured figures by name, including times and memory.
use std::fs;
use std::time::Instant;

/// Figures by their position, or the reason why there are none. Time is counted from the last
/// start.
#[derive(Drop)]
pub struct Figures {
    numbers: [u128; 7],
    fault: Option<&'static str>,
    start: Option<Instant>,
}

/// Returns the peak memory of a process in KiB, from the text of its status file.
fn peak_of(status: &str) -> u128 {
    let Some((_, after)) = status.split_once("VmHWM:") else {
        return 0;
    };
    let number = after.split_whitespace().next().unwrap_or("0");
    number.parse().unwrap_or(0)
}

impl Figures {
    /// Creates figures that are all 0.
    pub fn new() -> Figures {
        Figures {
            numbers: [0; 7],
            fault: None,
            start: None,
        }
    }

    /// Records that nothing can be measured, and why.
    pub fn refuse(&mut self, fault: &'static str) {
        self.fault = Some(fault);
    }

    /// Adds to the figure at this position.
    pub fn add(&mut self, place: usize, number: u128) {
        if let Some(sum) = self.numbers.get_mut(place) {
            *sum = sum.saturating_add(number);
        }
    }

    /// Starts counting time.
    pub fn start(&mut self, rt: &HostRuntime) {
        self.start = Instant::now(rt).ok();
    }

    /// Adds the nanoseconds since the start, or 0 if the clock cannot be read, and starts again.
    pub fn lap(&mut self, rt: &HostRuntime, place: usize) {
        let nanos = match (self.start, Instant::now(rt)) {
            (Some(start), Ok(end)) => end.duration_since(start).as_nanos(),
            _ => 0,
        };
        self.add(place, nanos);
        self.start(rt);
    }

    /// Adds the peak memory of this process so far, in KiB.
    pub fn add_peak(&mut self, rt: &HostRuntime, place: usize) {
        match fs::read_to_string(rt, "/proc/self/status") {
            Ok(status) => self.add(place, peak_of(&status)),
            Err(_) => self.refuse("the peak of memory cannot be read"),
        }
    }

    /// Prints the figure with this name and position. Returns whether it was printed.
    fn print_one(&self, rt: &HostRuntime, name: &str, place: usize) -> bool {
        match self.numbers.get(place) {
            Some(number) => println!(rt; "{name} {number}").is_ok(),
            None => false,
        }
    }

    /// Prints the figures with these names, one on each line, or the reason why there are none.
    /// Returns whether all were printed.
    pub fn print(&self, rt: &HostRuntime, names: &[&str]) -> bool {
        if let Some(fault) = self.fault {
            let _ = eprintln!(rt; "{fault}");
            return false;
        }
        let (mut place, mut are_printed): (usize, bool) = (0, true);
        for name in names {
            are_printed = are_printed & self.print_one(rt, name, place);
            place = place.wrapping_add(1);
        }
        are_printed
    }
}
