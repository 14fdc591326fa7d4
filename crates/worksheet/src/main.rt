// The sheet that a clerk checks by hand: a generator's day, hour by hour, and how a pool's two pots are shared.

#![tactic(auto)]

mod cents;
mod day;
mod fault;
mod pool;

use day::GeneratorDay;
use fault::Fault;
use pool::PoolDay;

fn main(rt: HostRuntime) -> Result<(), Fault> {
    figures::worked_cases();
    println!(rt; "committed in hours 2 and 3")?;
    GeneratorDay::in_two_hours(0)?.print(&rt)?;
    println!(rt; "")?;
    println!(rt; "committed in hours 2 and 3, self-schedule 10000 kWh in hour 2")?;
    GeneratorDay::in_two_hours(10_000)?.print(&rt)?;
    println!(rt; "")?;
    println!(rt; "a pool's day: generator 11 of member 1, load 21 of member 2")?;
    PoolDay::worked()?.print(&rt)
}
