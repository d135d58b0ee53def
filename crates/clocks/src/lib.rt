// The guest clock and its comparator, the CPU timer, and what a unit's time adds to the clock and takes from the timer, all modulo
// 2^64. Each contract equates with machine's Time.
#![tactic(auto)]

ghost use Rattle.std.specs.Prelude.{◌≡◌};
ghost use Rattle.machine.specs.declared.Cpu.{Cpu};
ghost use Rattle.machine.specs.Time.{guest_clock, comparator_due, timer_due, clock_after, timer_after};

use machine::Guest;

// The leftmost bit of a doubleword.
const SIGN: u64 = 1 << 63;

// The clock that the guest sees.
#[tactic(auto, unfolding(machine::specs::Time::guest_clock))]
pub fn guest_clock(epoch: u64, clock: u64) -> u64
    ensures { (g : Guest) → g.epoch ≡ epoch → result ≡ guest_clock g clock }
{
    clock.wrapping_add(epoch)
}

// The guest clock is past the comparator, both unsigned.
#[tactic(auto, unfolding(machine::specs::Time::comparator_due))]
pub fn comparator_due(guest: Guest, clock: u64) -> bool
    ensures { result ≡ comparator_due guest clock }
{
    guest.comparator < guest_clock(guest.epoch, clock)
}

// The CPU timer is negative.
#[tactic(auto, unfolding(machine::specs::Time::timer_due))]
pub fn timer_due(timer: u64) -> bool
    ensures { (c : Cpu) → c.timer ≡ timer → result ≡ timer_due c }
{
    timer >= SIGN
}

// The CPU timer after a unit.
#[tactic(auto, unfolding(machine::specs::Time::timer_after))]
pub fn timer_after(timer: u64, time: u32) -> u64
    ensures { result ≡ timer_after timer time }
{
    timer.wrapping_sub(time as u64)
}

// The host clock after a unit.
#[tactic(auto, unfolding(machine::specs::Time::clock_after))]
pub fn clock_after(clock: u64, time: u32) -> u64
    ensures { result ≡ clock_after clock time }
{
    clock.wrapping_add(time as u64)
}
