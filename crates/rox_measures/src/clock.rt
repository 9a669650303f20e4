//! The process's own clock.

use crate::fault::Fault;
use std::time::CpuClock;

/// Returns the processor time that the process has used, in nanoseconds. Other load on the machine changes it less than it
/// changes the time that passes.
pub fn now<R: CpuClock>(clock: &R) -> Result<u64, Fault> {
    match clock.process_cpu_time() {
        Ok(time) => u64::try_from(time.as_nanos()).map_err(|_| Fault::NoClock),
        Err(_) => Err(Fault::NoClock),
    }
}

/// Returns the processor time used since `start`, in nanoseconds, or 0 if the clock went back.
pub fn since<R: CpuClock>(clock: &R, start: u64) -> Result<u64, Fault> {
    Ok(now(clock)?.saturating_sub(start))
}
