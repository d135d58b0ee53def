// How many units can be done before the list before a unit can come to anything but the instruction, and what so many units come to
// in clock, CPU timer and residue. Each contract rests on Calming.
#![tactic(auto)]

ghost use Rattle.std.specs.Prelude.{◌≡◌, ℕ, ◌*◌, ◌<◌, ◌≤◌, true, false};
ghost use Rattle.machine.specs.declared.Cpu.{Cpu};
ghost use Rattle.machine.specs.Psw.{instruction_address, control};
ghost use Rattle.machine.specs.Interval.{period};
ghost use Rattle.machine.specs.Refusals.{most_time};
ghost use Rattle.psws.specs.Psws.{state, Wrapped};
ghost use Rattle.calm.specs.Calming.{clocks, timers, residues, Calm};
ghost use Rattle.calm.specs.Passing.{Passes, ComparatorSilent, TimerSilent, Silent};

use machine::{Guest, Psw};

// The most that the interval timer's residue can be.
const MOST_RESIDUE: u32 = 40959999;

// The units, at most `most`, before each of which a number that falls by time with each unit has not gone below zero.
fn lasting(left: u64, time: u32, most: u32) -> u32
    ensures { (result ≤ most) × ((j : ℕ) → j < result → j * time ≤ left) }
{
    let step = time as u64;
    if left >= most as u64 * step {
        most
    } else {
        (left / step + 1) as u32
    }
}

// Steps 1 to 3 and 6 to 8 of the list do not apply.
fn passes(guest: Guest, psw: Psw) -> bool
    ensures { result ≡ true → Passes guest psw }
{
    let requests = guest.interventions as u32;
    !cpu::bit(8, 5, requests)
        && !cpu::not_installed(psw)
        && !cpu::malformed(psw)
        && !(cpu::bit(8, 7, requests) && cpu::external_enabled(psw))
        && !(cpu::bit(8, 6, requests) && cpu::io_enabled(psw))
        && !cpu::waiting(psw)
}

// The units, at most `most`, before each of which the clock comparator does not interrupt.
#[tactic(auto, unfolding(crate::specs::Calming::clocks, machine::specs::Time::comparator_due, machine::specs::Time::guest_clock))]
fn comparator_lasting(guest: Guest, clock: u64, cr0: u32, time: u32, most: u32) -> u32
    ensures { (result ≤ most) × ((j : ℕ) → j < result → ComparatorSilent guest clock cr0 time j) }
{
    let now = clocks::guest_clock(guest.epoch, clock);
    if !cpu::bit(32, 20, cr0) {
        most
    } else if guest.comparator < now {
        0
    } else {
        lasting(guest.comparator - now, time, most)
    }
}

// The units, at most `most`, before each of which the CPU timer does not interrupt.
#[tactic(auto, unfolding(crate::specs::Calming::timers, machine::specs::Time::timer_due))]
fn timer_lasting(timer: u64, cr0: u32, time: u32, most: u32) -> u32
    ensures { (result ≤ most) × ((j : ℕ) → j < result → TimerSilent timer cr0 time j) }
{
    if !cpu::bit(32, 21, cr0) {
        most
    } else if clocks::timer_due(timer) {
        0
    } else {
        lasting(timer, time, most)
    }
}

// The units, at most `most`, before each of which nothing interrupts, where external interruptions are enabled.
fn external_lasting(
    guest: Guest,
    clock: u64,
    requested: bool,
    timer: u64,
    cr0: u32,
    time: u32,
    most: u32,
) -> u32
    ensures { (result ≤ most) × ((j : ℕ) → j < result → Silent guest clock requested timer cr0 time j) }
{
    if cpu::bit(32, 24, cr0) && requested {
        0
    } else {
        let n = comparator_lasting(guest, clock, cr0, time, most);
        timer_lasting(timer, cr0, time, n)
    }
}

// The units, at most `most`, before each of which the list comes to the instruction, as long as only registers, address, condition
// code and storage change.
pub fn horizon(
    guest: Guest,
    clock: u64,
    requested: bool,
    psw: Psw,
    timer: u64,
    cr0: u32,
    time: u32,
    most: u32,
) -> u32
    ensures { (result ≤ most) × (0 < result → Wrapped psw (instruction_address (state psw)))
        × ((c : Cpu) → c.psw ≡ psw → c.timer ≡ timer → control c 0 ≡ cr0 → Calm guest clock time requested c result) }
{
    if !passes(guest, psw) {
        0
    } else if !cpu::external_enabled(psw) {
        most
    } else {
        external_lasting(guest, clock, requested, timer, cr0, time, most)
    }
}

// The units, at most `most`, in which the interval timer's word does not fall.
#[tactic(auto, unfolding(crate::specs::Calming::residues))]
pub fn rising(timed: bool, residue: u32, time: u32, most: u32) -> u32
    requires { (residue < period) × (time ≤ most_time) }
    ensures { (result ≤ most) × (timed ≡ true → residues residue time result < period) }
{
    if !timed {
        return most;
    }
    let left = MOST_RESIDUE - residue;
    let step = 3 * time;
    if left as u64 >= most as u64 * step as u64 {
        most
    } else {
        left / step
    }
}

// The host clock after so many units.
#[tactic(auto, unfolding(crate::specs::Calming::clocks))]
pub fn clock_after(clock: u64, time: u32, units: u32) -> u64
    ensures { result ≡ clocks clock time units }
{
    clock.wrapping_add(units as u64 * time as u64)
}

// The CPU timer after so many units.
#[tactic(auto, unfolding(crate::specs::Calming::timers))]
pub fn timer_after(timer: u64, time: u32, units: u32) -> u64
    ensures { result ≡ timers timer time units }
{
    timer.wrapping_sub(units as u64 * time as u64)
}

// The interval timer's residue after so many units in which its word does not fall; it stays where the timer does not run.
#[tactic(auto, unfolding(crate::specs::Calming::residues))]
pub fn residue_after(timed: bool, residue: u32, time: u32, units: u32) -> u32
    requires { timed ≡ true → residues residue time units < period }
    ensures { (timed ≡ true → result ≡ residues residue time units) × (timed ≡ false → result ≡ residue) }
{
    if timed {
        residue + 3 * (units * time)
    } else {
        residue
    }
}
