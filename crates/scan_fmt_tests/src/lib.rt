//! Worked scans and readings of `scan_fmt`, as a caller sees them.
#![tactic(auto)]

#[cfg(test)]
mod readings;
#[cfg(test)]
mod scans;
#[cfg(test)]
mod slices;
