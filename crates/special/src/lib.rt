// Instructions with an operand that change more than a lap does, or take clock or CPU timer, on kept blocks: LOAD PSW, SET CPU TIMER,
// STORE CLOCK and STORE CPU TIMER, by numbers.
#![tactic(auto)]

ghost use Rattle.std.specs.Prelude.{◌≡◌, ◌<◌, IfOk, IfErr};
ghost use Rattle.machine.specs.Words.{double_bytes};
ghost use Rattle.machine.specs.Psw.{instruction_address};
ghost use Rattle.machine.specs.Execute.{load_psw, store_clock, set_timer, store_timer};
ghost use Rattle.psws.specs.Psws.{state, Wrapped};
ghost use Rattle.blocks.specs.Keeping.{Inside};
ghost use Rattle.steps.specs.Texting.{done_as};
ghost use Rattle.special.specs.Performing.{Below, IfCalm, psw_in, Near, Performs, Always, AtClock, AtTimer};
ghost use Rattle.special.specs.Storing.{Stored};

use machine::Psw;

// What a unit that is not done wants: a lap, its tests, or unit, for the instruction; a block to fetch from, or to store into, at an
// address; or the place of the prefix page.
#[derive(Clone, Copy, PartialEq, Eq)]
pub enum Want {
    Lap,
    Tests,
    Other,
    Fetch(u32),
    Store(u32),
    Area,
}

// What a done unit changed: address, condition code and storage alone; by an interruption; otherwise.
#[derive(Clone, Copy, PartialEq, Eq)]
pub enum Change {
    Calm,
    Called,
    Changed,
}

// What a done unit leaves: the PSW's words and the CPU timer. The architecture is the one before.
#[derive(Clone, Copy)]
pub struct Done {
    pub change: Change,
    pub left: u32,
    pub right: u32,
    pub timer: u64,
}

impl Done {
    // Done, with this PSW.
    pub fn leaving(change: Change, psw: Psw, timer: u64) -> Done
        ensures { result ≡ record { change = change; left = psw.left; right = psw.right; timer = timer } }
    {
        Done {
            change,
            left: psw.left,
            right: psw.right,
            timer,
        }
    }
}

// What a unit comes to.
pub type Single = Result<Done, Want>;

// LOAD PSW (LPSW).
pub fn load_psw(storage: &[u8], kept: &[u32; 32], psw: Psw, timer: u64, a: usize) -> Single
    requires { Inside storage.now kept.now × (a < 2147483648) }
    ensures performs { IfOk result (λ d. Performs kept.now psw a storage.now Always load_psw (λ c. done_as (psw_in d psw) c.timer c.control) storage.now
        × (d.timer ≡ timer) × IfCalm d.change (Near psw (psw_in d psw))) }
    ensures wants { IfErr result Below }
{
    let Some(p) = places::fetch_place(kept, a, 8) else {
        return Err(Want::Fetch(a as u32));
    };
    let new = Psw {
        left: words::word_at(storage, p),
        right: words::word_at(storage, p + 4),
        system370: psw.system370,
    };
    Ok(Done::leaving(Change::Changed, new, timer))
}

// SET CPU TIMER (SPT).
pub fn set_timer(storage: &[u8], kept: &[u32; 32], psw: Psw, timer: u64, a: usize) -> Single
    requires { Inside storage.now kept.now × (a < 2147483648) }
    ensures performs { IfOk result (λ d. Performs kept.now psw a storage.now Always set_timer (λ c. done_as (psw_in d psw) d.timer c.control) storage.now
        × IfCalm d.change (Near psw (psw_in d psw) × (d.timer ≡ timer))) }
    ensures wants { IfErr result Below }
{
    let Some(p) = places::fetch_place(kept, a, 8) else {
        return Err(Want::Fetch(a as u32));
    };
    let high = words::word_at(storage, p) as u64;
    let low = words::word_at(storage, p + 4) as u64;
    Ok(Done::leaving(
        Change::Changed,
        cpu::advanced(psw, 2),
        high * 4294967296 + low,
    ))
}

// A double word, stored at a wrapped logical address on a kept block. Low-address protection is for unit to do.
fn store_double(
    storage: &mut [u8],
    kept: &[u32; 32],
    next: Psw,
    timer: u64,
    a: usize,
    value: u64,
) -> Single
    requires { Inside storage.old kept.now × (a < 2147483648) }
    ensures stored { IfOk result (λ d. Stored kept.now next a (double_bytes value) d storage.old storage.new × (d.timer ≡ timer)) }
    ensures wants { IfErr result (λ w. (storage.new ≡ storage.old) × Below w) }
{
    let Some(from) = places::store_place(kept, a, 8) else {
        return Err(Want::Store(a as u32));
    };
    if a < 512 {
        return Err(Want::Other);
    }
    writer::put_part(&mut storage[from..from + 8], &value.to_be_bytes());
    Ok(Done::leaving(Change::Calm, next, timer))
}

// STORE CLOCK (STCK).
pub fn store_clock(
    storage: &mut [u8],
    kept: &[u32; 32],
    epoch: u64,
    clock: u64,
    psw: Psw,
    timer: u64,
    a: usize,
) -> Single
    requires { Inside storage.old kept.now × (a < 2147483648) }
    ensures performs { IfOk result (λ d. Performs kept.now psw a storage.old (AtClock epoch clock) store_clock (λ c. done_as (psw_in d psw) c.timer c.control) storage.new
        × (d.timer ≡ timer) × IfCalm d.change (Wrapped psw (instruction_address (state psw)) → Near psw (psw_in d psw))) }
    ensures wants { IfErr result (λ w. (storage.new ≡ storage.old) × Below w) }
{
    let next = cpu::advanced(cpu::with_condition_code(psw, 0), 2);
    store_double(
        storage,
        kept,
        next,
        timer,
        a,
        clocks::guest_clock(epoch, clock),
    )
}

// STORE CPU TIMER (STPT).
pub fn store_timer(storage: &mut [u8], kept: &[u32; 32], psw: Psw, timer: u64, a: usize) -> Single
    requires { Inside storage.old kept.now × (a < 2147483648) }
    ensures performs { IfOk result (λ d. Performs kept.now psw a storage.old (AtTimer timer) store_timer (λ c. done_as (psw_in d psw) c.timer c.control) storage.new
        × (d.timer ≡ timer) × IfCalm d.change (Wrapped psw (instruction_address (state psw)) → Near psw (psw_in d psw))) }
    ensures wants { IfErr result (λ w. (storage.new ≡ storage.old) × Below w) }
{
    store_double(storage, kept, cpu::advanced(psw, 2), timer, a, timer)
}
