// Document 01's cases that are run, a line for each: lengths, steps, records, page views, each refusal, and their order; and document 02's of
// the timer, of the replacement index, of the slots and of the charges.
#![tactic(auto)]

mod costs;
mod indexes;
mod lengths;
mod outcomes;
mod reads;
mod records;
mod slots;
mod states;
mod steps;
mod timers;
mod views;
mod writes;

use std::io;

fn main(rt: HostRuntime) -> io::Result<()> {
    steps::print_steps(&rt)?;
    lengths::print_lengths(&rt)?;
    states::print_machines(&rt)?;
    timers::print_timers(&rt)?;
    indexes::print_indexes(&rt)?;
    slots::print_slots(&rt)?;
    costs::print_charges(&rt)?;
    steps::print_order(&rt)?;
    reads::print_reads(&rt)?;
    writes::print_writes(&rt)?;
    views::print_views(&rt)?;
    Ok(())
}
