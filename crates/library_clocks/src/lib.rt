// Which timers run, as C calls it.
#![tactic(auto)]

ghost use Rattle.std.specs.Prelude.{◌≡◌};
ghost use Rattle.plan_words.specs.Words.{plan_of};
ghost use Rattle.timers.specs.Timers as Timers;

use timers::{destination_timer, link_timer, route_timer};

// Whether T1, T2, T3 or T4 of a link runs.
#[unsafe(no_mangle)]
pub extern "C" fn transfer_point_link_timer_lent(
    plan: &[u16; 1024],
    links: &[u32; 256],
    link: u8,
    timer: u8,
) -> bool
    ensures { result ≡ Timers.link_timer (plan_of plan) links.now link timer }
{
    link_timer(plan, links, link, timer)
}

// Whether T6 or T8 of a destination runs.
#[unsafe(no_mangle)]
pub extern "C" fn transfer_point_destination_timer_lent(
    plan: &[u16; 1024],
    marks: &[u32; 512],
    x: u16,
    timer: u8,
) -> bool
    ensures { result ≡ Timers.destination_timer (plan_of plan) marks.now x timer }
{
    destination_timer(plan, marks, x, timer)
}

// Whether T10 of the route to a destination by a set runs.
#[unsafe(no_mangle)]
pub extern "C" fn transfer_point_route_timer_lent(
    plan: &[u16; 1024],
    marks: &[u32; 512],
    x: u16,
    set: u8,
) -> bool
    ensures { result ≡ Timers.route_timer (plan_of plan) marks.now x set }
{
    route_timer(plan, marks, x, set)
}
