// The command `time-order`: how long the calls of a version order take. The gate does not run it.
use crate::orders::{MadeOrder, OrderKind};
use order::VersionOrder;
use relabelled::list::RelabelledList;
use std::fmt;
use std::time::Instant;
use two_level::list::TwoLevelList;

// How many questions are timed.
const QUESTIONS: u32 = 10_000_000;

// Behind which item each new one is put.
#[derive(Clone, Copy)]
enum Place {
    Front,
    End,
    Random,
}

impl fmt::Display for Place {
    fn fmt<W: fmt::Write>(&self, f: &mut fmt::Formatter<W>) -> fmt::Result {
        match *self {
            Place::Front => write!(f, "at the front"),
            Place::End => write!(f, "at the end"),
            Place::Random => write!(f, "at random places"),
        }
    }
}

// The next of a row of numbers that look random (a linear congruence of 64 bits).
fn shuffled(seed: u64) -> u64 {
    seed.wrapping_mul(6364136223846793005)
        .wrapping_add(1442695040888963407)
}

// A number below n, from the upper bits of the seed; 0 where n is 0.
fn below(seed: u64, n: u32) -> u32 {
    if n == 0 {
        0
    } else {
        // below n, so nothing is lost
        ((seed >> 33) % u64::from(n)) as u32
    }
}

// Puts n items into the order and prints the nanoseconds of a call.
fn time_after<O: VersionOrder>(
    rt: &HostRuntime,
    order: &mut O,
    place: Place,
    n: u32,
) -> anyhow::Result<()> {
    let mut seed = 1;
    let mut last = 0;
    let start = Instant::now(rt)?;
    for _ in 0..n {
        seed = shuffled(seed);
        let behind = match place {
            Place::Front => 0,
            Place::End => last,
            Place::Random => below(seed, order.count()),
        };
        if let Ok(item) = order.after(behind) {
            last = item;
        }
    }
    let each = start.elapsed(rt)?.as_nanos() / u128::from(n.max(1));
    let count = order.count();
    println!(rt; "after {place}: {each} ns a call, {count} items")?;
    Ok(())
}

// Asks which of two items stands earlier and prints the nanoseconds of a question.
fn time_before<O: VersionOrder>(rt: &HostRuntime, order: &O) -> anyhow::Result<()> {
    let n = order.count();
    let mut seed = 1;
    let mut earlier = 0u32;
    let start = Instant::now(rt)?;
    for _ in 0..QUESTIONS {
        seed = shuffled(seed);
        let a = below(seed, n);
        seed = shuffled(seed);
        if let Ok(true) = order.before(a, below(seed, n)) {
            earlier = earlier.saturating_add(1);
        }
    }
    let each = start.elapsed(rt)?.as_nanos() * 10 / u128::from(QUESTIONS);
    let whole = each / 10;
    let tenth = each % 10;
    println!(rt;
        "before: {whole}.{tenth} ns a question, of which {earlier} of {QUESTIONS} said yes"
    )?;
    Ok(())
}

// The calls of after at one place, and the questions after those at random places.
fn time_place<O: VersionOrder>(
    rt: &HostRuntime,
    order: &mut O,
    place: Place,
    n: u32,
) -> anyhow::Result<()> {
    time_after(rt, order, place, n)?;
    match place {
        Place::Random => time_before(rt, order),
        _ => Ok(()),
    }
}

// The calls over new orders of one kind, one for each place.
fn time_all<O: MadeOrder>(rt: &HostRuntime, n: u32) -> anyhow::Result<()> {
    for place in [Place::Front, Place::End, Place::Random] {
        if let Ok(mut order) = O::made(rt.alloc(), 4096)? {
            time_place(rt, &mut order, place, n)?;
        }
    }
    Ok(())
}

pub fn run_time_order(rt: &HostRuntime, kind: OrderKind, n: u32) -> anyhow::Result<()> {
    match kind {
        OrderKind::Relabelled => time_all::<RelabelledList>(rt, n),
        OrderKind::TwoLevel => time_all::<TwoLevelList>(rt, n),
    }
}
