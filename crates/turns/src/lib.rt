// The turns of a streak: where it stands after a lap, after a unit that a lap does not do, and after a turn in which none was done.
#![tactic(auto)]

ghost use Rattle.std.specs.Prelude.{◌≡◌, true, ◌+◌, ◌/◌, ◌≤◌, ◌<◌, IfErr};
ghost use Rattle.machine.specs.Refusals.{most_time};
ghost use Rattle.machine.specs.Interval.{period};
ghost use Rattle.machine.specs.Record.{Sixteen};
ghost use Rattle.calm.specs.Calming.{residues};
ghost use Rattle.special.specs.Performing.{Below};
ghost use Rattle.turns.specs.Turning.{Low, Asks, Lapped, Stays, is_calm, Passed};

use lap::Lap;
use machine::{Guest, Psw};
use special::{Change, Single, Want};

// What the next turn is: a lap; one unit that a lap does not do; a block kept to fetch from, or to store into, at an address, for such a
// unit or for a lap; the prefix page's place kept; or a unit whose fetch from, or store to, an address is denied. Other: the instruction
// is for unit to do, and the streak ends.
#[derive(Clone, Copy)]
pub enum Next {
    Lap,
    Single,
    Block { single: bool, store: bool, a: u32 },
    Area,
    Denied { store: bool, a: u32 },
    Other,
}

// Where a streak stands between two turns: PSW, CPU timer, host clock and the interval timer's residue; the units done and those that may
// follow; the next turn; the kept place of the prefix page; and the turns in a row that came to nothing.
#[derive(Clone, Copy)]
pub struct Stand {
    pub psw: Psw,
    pub timer: u64,
    pub clock: u64,
    pub residue: u32,
    pub units: u32,
    pub most: u32,
    pub next: Next,
    pub area: u32,
    pub tries: u32,
}

// The turns in a row that came to nothing, after a lap of so many units.
fn tries_after(tries: u32, units: u32) -> u32
    requires { tries ≤ 7 }
    ensures { (0 < units → result ≡ 0) × (units ≡ 0 → result ≡ tries + 1) }
{
    if units > 0 { 0 } else { tries + 1 }
}

// The units that may follow: none where no block can be kept that would help, or enough turns came to nothing.
fn most_after(most: u32, next: Next, tries: u32) -> u32
    ensures { (result ≤ most) × (0 < result → tries ≤ 7) }
{
    if matches!(next, Next::Other) || tries > 7 {
        0
    } else {
        most
    }
}

// The turn after a lap. A block is the one at the address that the lap wants.
fn next_after(l: Lap) -> Next
    ensures { (l.a < 2147483648 → Low result) × Asks result l.a }
{
    match l.want {
        lap::DONE => Next::Lap,
        lap::SPECIAL => Next::Single,
        lap::FETCH => Next::Block {
            single: false,
            store: false,
            a: l.a,
        },
        lap::STORE => Next::Block {
            single: false,
            store: true,
            a: l.a,
        },
        _ => Next::Other,
    }
}

// After a lap, which is charged.
pub fn lapped(timed: bool, time: u32, s: Stand, l: Lap) -> Stand
    requires code_bound { (l.code < 4) × (l.units ≤ s.most) × (s.units + s.most < 4294967296) × (s.tries ≤ 7) }
    requires units_bound { timed ≡ true → residues s.residue time l.units < period }
    ensures { Lapped timed time s l result }
{
    let tries = tries_after(s.tries, l.units);
    let next = next_after(l);
    Stand {
        psw: psws::psw_at(s.psw, l.address, l.code),
        timer: calm::timer_after(s.timer, time, l.units),
        clock: calm::clock_after(s.clock, time, l.units),
        residue: calm::residue_after(timed, s.residue, time, l.units),
        units: s.units + l.units,
        most: most_after(s.most - l.units, next, tries),
        next,
        area: s.area,
        tries,
    }
}

// After a turn in which no unit was done: this turn is next, and the prefix page's place is kept so.
pub fn again(s: Stand, next: Next, area: u32) -> Stand
    requires { s.tries ≤ 7 }
    ensures { Stays s result × (result.next ≡ next) × (result.area ≡ area) }
{
    let tries = s.tries + 1;
    Stand {
        most: most_after(s.most, next, tries),
        next,
        area,
        tries,
        ..s
    }
}

// Accesses are guarded alike: control registers 0 and 1 and bits 0-17 of the PSW are as they were.
fn guarded_alike(cr0: u32, cr1: u32, left: u32, later0: u32, later1: u32, later: u32) -> bool
    ensures { result ≡ true → (later0 ≡ cr0) × (later1 ≡ cr1) × (later / 16384 ≡ left / 16384) }
{
    later0 == cr0 && later1 == cr1 && later / 16384 == left / 16384
}

// The turn after a unit that a lap does not do and that is not done.
fn next_for(want: Want) -> Next
    requires { Below want }
    ensures { Low result }
{
    match want {
        Want::Lap => Next::Lap,
        Want::Fetch(a) => Next::Block {
            single: true,
            store: false,
            a,
        },
        Want::Store(a) => Next::Block {
            single: true,
            store: true,
            a,
        },
        Want::Area => Next::Area,
        Want::Tests | Want::Other => Next::Other,
    }
}

// The turn after a unit that changed more than a lap does: behind an interruption such a unit comes first.
fn next_behind(change: Change) -> Next
    ensures { Low result }
{
    match change {
        Change::Called => Next::Single,
        _ => Next::Lap,
    }
}

// Address, condition code and storage alone changed.
fn calmly(change: Change) -> bool
    ensures { result ≡ is_calm change }
{
    matches!(change, Change::Calm)
}

// After a unit that a lap does not do, done or not. Control registers 0 and 1 were cr0 and cr1 before it. Where more than address,
// condition code and storage changed, the horizon is found anew, and the table stays only where accesses are guarded as they were.
// Inlined for speed: a call takes 122 instructions a unit.
#[inline(always)]
pub fn passed(
    guard: &mut [u8; 64],
    kept: &mut [u32; 32],
    control: &[u32; 16],
    guest: Guest,
    requested: bool,
    timed: bool,
    time: u32,
    budget: u32,
    cr0: u32,
    cr1: u32,
    s: Stand,
    r: Single,
) -> Stand
    requires sixteen { Sixteen control.now × (s.units < budget) × (0 < s.most) × (s.tries ≤ 7) × IfErr r Below }
    requires residue_lt_period { (s.residue < period) × (time ≤ most_time) × (timed ≡ true → residues s.residue time 1 < period) }
    ensures { Passed guest requested timed time budget cr0 cr1 s r control.now guard.old kept.old result guard.new kept.new }
{
    let done = match r {
        Ok(done) => done,
        Err(want) => return again(s, next_for(want), s.area),
    };
    // with the architecture as the stand has it
    let psw = Psw {
        left: done.left,
        right: done.right,
        system370: s.psw.system370,
    };
    let timer = calm::timer_after(done.timer, time, 1);
    let clock = calm::clock_after(s.clock, time, 1);
    let residue = calm::residue_after(timed, s.residue, time, 1);
    let units = s.units + 1;
    if calmly(done.change) {
        return Stand {
            psw,
            timer,
            clock,
            residue,
            units,
            most: s.most - 1,
            next: Next::Lap,
            area: s.area,
            tries: 0,
        };
    }
    let rising = calm::rising(timed, residue, time, budget - units);
    let later0 = control[0];
    let most = calm::horizon(guest, clock, requested, psw, timer, later0, time, rising);
    if guarded_alike(cr0, cr1, s.psw.left, later0, control[1], psw.left) {
        return Stand {
            psw,
            timer,
            clock,
            residue,
            units,
            most,
            next: next_behind(done.change),
            area: s.area,
            tries: 0,
        };
    }
    *kept = [pages::NO_BLOCK; 32];
    *guard = [0; 64];
    Stand {
        psw,
        timer,
        clock,
        residue,
        units,
        most,
        next: Next::Lap,
        area: area::NO_AREA,
        tries: 0,
    }
}
