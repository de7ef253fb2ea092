// The lines of answers.
use density::report::MassReport;
use std::io;
use test_words::{put_call, put_number};

// Writes a call's name and the numbers of its two arguments in their tables.
pub fn put_pair(rt: &impl Print, name: &str, a: usize, b: usize) -> io::Result<()> {
    put_call(rt, name, a)?;
    put_number(rt, b as u64)
}

// The seven floats of a report.
pub fn report_floats(m: MassReport) -> [f64; 7] {
    [
        m.raw_mass,
        m.rho0_scale,
        m.rho0_mass,
        m.applied_scale,
        m.applied_mass,
        m.target_mass,
        m.volume,
    ]
}
