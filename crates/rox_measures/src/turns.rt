//! Turns of a work.
//!
//! ```
//! use rox_measures::clock;
//! use rox_measures::turns::measure;
//! use rox_measures::work::{Parse, ParseAndDrop, Walk, WalkLinks, Work};
//! use std::cell::Cell;
//! use std::io;
//! use std::io::ErrorKind;
//! use std::time::{CpuClock, Duration};
//!
//! /// A clock that goes on by the same step at each look, and can be read so many times.
//! #[derive(Drop)]
//! struct Steps {
//!     step: u64,
//!     looks: Cell<u64>,
//!     most: u64,
//! }
//!
//! impl Steps {
//!     fn new(step: u64, most: u64) -> Steps {
//!         Steps { step, looks: Cell::new(0), most }
//!     }
//! }
//!
//! impl CpuClock for Steps {
//!     fn thread_cpu_time(&self) -> io::Result<Duration> {
//!         self.process_cpu_time()
//!     }
//!
//!     fn process_cpu_time(&self) -> io::Result<Duration> {
//!         let looks = self.looks.get();
//!         if looks >= self.most {
//!             return Err(io::Error::from(ErrorKind::Unsupported));
//!         }
//!         self.looks.set(looks.wrapping_add(1));
//!         Ok(Duration::from_nanos(self.step.wrapping_mul(looks)))
//!     }
//! }
//!
//! // a step for each interval that is looked at
//! let text = "<r/>";
//! let time = ParseAndDrop { alloc, text }.turn(&Steps::new(10, 2), 3).ok();
//! assert!(rt; time == Some(10));
//! let time = Parse { alloc, text }.turn(&Steps::new(10, 6), 3).ok();
//! assert!(rt; time == Some(30));
//! let document = &Document::parse(alloc, text)?;
//! // one for each of two nodes, and one for `r`
//! let time = Walk { document, sum: 3 }.turn(&Steps::new(10, 2), 3).ok();
//! assert!(rt; time == Some(10));
//! let time = WalkLinks { document, nodes: 2 }.turn(&Steps::new(10, 2), 3).ok();
//! assert!(rt; time == Some(10));
//! let fault = WalkLinks { document, nodes: 3 }.turn(&Steps::new(10, 2), 3).err();
//! let printed = fault.expect(&rt, "a fault").to_string(alloc)?;
//! assert!(rt; printed.as_str() == "two walks came to different sums");
//!
//! // A turn looks twice. A step of 250 microseconds asks for 4 repeats, and then, since the clock does not see them, 16. After n turns
//! // and the looks between them the clock shows 3 n - 6 steps.
//! let work = ParseAndDrop { alloc, text };
//! for (step, budget, repeats, count) in
//!     [(250_000, 0, 16, 7), (2_000_000, 0, 1, 7), (2_000_000, 60_000_000, 1, 12)]
//! {
//!     let turns = measure(alloc, &Steps::new(step, 1000), &work, budget).ok();
//!     let turns = turns.expect(&rt, "turns");
//!     assert!(rt; (turns.repeats, turns.times.len()) == (repeats, count));
//!     assert!(rt; turns.times[0] == step);
//!     // the clock fails in the fourth turn that counts
//!     let fault = measure(alloc, &Steps::new(step, 12), &work, budget).err();
//!     let printed = fault.expect(&rt, "a fault").to_string(alloc)?;
//!     assert!(rt; printed.as_str() == "cannot read the clock");
//! }
//!
//! // and where it went back
//! let clock = Steps::new(10, 2);
//! assert!(rt; clock::since(&clock, 0).ok() == Some(0));
//! assert!(rt; clock::since(&clock, 100).ok() == Some(0));
//! assert!(rt; clock::now(&clock).is_err());
//! ```

ghost use Rattle.std.specs.Prelude.{◌≡◌, ◌≤◌, ◌/◌, length, max, min, IfOk};
ghost use Rattle.rox_measures.specs.declared.turns.TheConstants.{TURN, MOST_REPEATS, FEWEST};

use crate::clock;
use crate::fault::Fault;
use crate::work::Work;
use std::alloc::Global;
use std::time::CpuClock;

/// About how many nanoseconds a turn lasts, unless one repeat takes longer.
const TURN: u64 = 1_000_000;

/// The most repeats of a work in a turn.
const MOST_REPEATS: u64 = 1_000_000;

/// The fewest turns.
const FEWEST: usize = 7;

/// The most turns.
const MOST: usize = 1_000_000;

/// The times of some turns.
#[derive(Drop)]
pub struct Turns {
    /// How often the work is done in each turn.
    pub repeats: u32,
    /// The nanoseconds of each turn.
    pub times: Vec<u64>,
}

/// Returns the times of turns of a work, which together take about `budget` nanoseconds; there are at least 7 and at most
/// 1,000,000. Two turns before them are not counted: they fill caches and the allocator's lists, and show how often to repeat the
/// work. Fails if a turn fails, if the clock cannot be read, and if memory runs out.
pub fn measure<R: CpuClock, W: Work>(
    alloc: Global,
    clock: &R,
    work: &W,
    budget: u64,
) -> Result<Turns, Fault>
    ensures { IfOk result (λ turns. FEWEST ≤ length turns.times.items) }
{
    let few = repeats_for(work.turn(clock, 1)?);
    let repeats = repeats_for(work.turn(clock, few)? / few as u64);
    let mut times = Vec::new(alloc);
    let start = clock::now(clock)?;
    for done in 0..MOST {
        if done >= FEWEST && clock::since(clock, start)? >= budget {
            break;
        }
        times.push(work.turn(clock, repeats)?)?;
    }
    Ok(Turns { repeats, times })
}

/// Returns how often to repeat, in a turn, a work that takes `time` nanoseconds.
fn repeats_for(time: u64) -> u32
    ensures { result ≡ max 1 (min (TURN / max time 1) MOST_REPEATS) }
{
    (TURN / time.max(1)).clamp(1, MOST_REPEATS) as u32
}
