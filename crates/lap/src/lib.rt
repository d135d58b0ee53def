// Units on kept blocks, one after the other: registers, address, condition code and storage change, and nothing else. The next
// instruction is known by its place in storage, the condition code by the last sum.
#![tactic(auto)]

ghost use Rattle.std.specs.Prelude.{◌≡◌, ℕ, ◌+◌, ◌<◌, ◌≤◌, true, List, Some, length, slice_index, slice_set};
ghost use Rattle.machine.specs.Words.{half_at};
ghost use Rattle.machine.specs.declared.Cpu.{Cpu};
ghost use Rattle.machine.specs.Psw.{mode31};
ghost use Rattle.machine.specs.Record.{Sixteen};
ghost use Rattle.sums.specs.Summing.{code_in};
ghost use Rattle.blocks.specs.Keeping.{Free, Inside};
ghost use Rattle.guard.specs.Guarding.{Alike};
ghost use Rattle.lap.specs.Stepping.{nowhere, part_of, total_of, cut, entry_of, step_to, step_wants, sum_step, branch_step, load_step, store_step, stored_step, Stepped, Lands};
ghost use Rattle.lap.specs.Lapping.{Laps};

use machine::Psw;

// What a unit leaves: the place of the next instruction, the last sum, and one general register with its new value (register 16:
// none); or what is wanted, and an address.
#[derive(Clone, Copy)]
pub struct Step {
    pub want: u32,
    pub a: usize,
    pub at: usize,
    pub sum: u64,
    pub register: usize,
    pub value: u32,
}

// Where a text stands: the first address of its block, the place of the block's first byte, and its own place.
#[derive(Clone, Copy)]
pub struct Landing {
    pub page: usize,
    pub base: usize,
    pub at: usize,
}

// What a lap leaves: the address of the next instruction, the condition code and the units; and what is wanted, with an address.
#[derive(Clone, Copy)]
pub struct Lap {
    pub address: u32,
    pub code: u32,
    pub units: u32,
    pub want: u32,
    pub a: u32,
}

// Nothing is wanted.
pub const DONE: u32 = 0;

// The unit is done, and branched to where no text is in hand.
const JUMPED: u32 = 1;

// A block is wanted to fetch from, or to store into.
pub const FETCH: u32 = 2;

pub const STORE: u32 = 3;

// The instruction is for unit to do.
pub const OTHER: u32 = 4;

// The instruction changes more than a lap does.
pub const SPECIAL: u32 = 8;

const NO_REGISTER: usize = 16;

// The last place of a block, from its first on, that has four bytes of the block from there on.
const LAST: usize = 2044;

// No sum of an address's parts.
const NOWHERE: usize = 1099511627776;

// What a base or index register's content is multiplied by: register 0 stands for zero. So there is no branch, which a processor would
// have to guess.
const ONES: [u32; 16] = [0, 1, 1, 1, 1, 1, 1, 1, 1, 1, 1, 1, 1, 1, 1, 1];

// Not done: something is wanted, or it jumped.
fn wanting(want: u32, a: usize, at: usize, sum: u64) -> Step
    ensures { result ≡ step_wants want a at sum }
{
    Step {
        want,
        a,
        at,
        sum,
        register: NO_REGISTER,
        value: 0,
    }
}

// Done: the next instruction stands here.
fn stepped(at: usize, sum: u64, register: usize, value: u32) -> Step
    ensures { result ≡ step_to at sum register value }
{
    Step {
        want: DONE,
        a: 0,
        at,
        sum,
        register,
        value,
    }
}

// The content of a base or index register.
pub fn part(words: &[u32; 16], r: usize) -> usize
    requires { r < 16 }
    ensures { (result ≡ part_of words.now r) × (result < 4294967296) }
{
    (words[r] * ONES[r]) as usize
}

// The sum of the parts D2, X2 and B2 of an address.
fn total(storage: &[u8], words: &[u32; 16], at: usize, x: usize) -> usize
    requires { (at + 4 ≤ length storage.now) × (x < 16) }
    ensures { (result ≡ total_of words.now x (half_at storage.now (at + 2))) × (result < nowhere) }
{
    let second = storage[at + 2] as usize * 256 + storage[at + 3] as usize;
    part(words, x) + part(words, second / 4096) + second % 4096
}

// A logical address, cut to the addressing mode.
pub fn wrapped(long: bool, total: usize) -> usize
    ensures { (result ≡ cut long total) × (result < 2147483648) }
{
    if long {
        total % 2147483648
    } else {
        total % 16777216
    }
}

// ADD and SUBTRACT: an overflow that is a program exception is for unit to do.
fn sum_step(at: usize, old: u64, sum: u64, register: usize, trap: bool) -> Step
    requires { at < 9223372036854775808 }
    ensures { result ≡ sum_step at old sum register trap }
{
    if trap && sums::is_outside(sum) {
        return wanting(OTHER, 0, at, old);
    }
    stepped(at + 2, sum, register, sums::word_of(sum))
}

// A branch to a sum of parts: where the last one went, or elsewhere.
fn branch_step(at: usize, sum: u64, to: usize, top: usize, target: usize) -> Step
    ensures { result ≡ branch_step at sum to top target }
{
    if to == top {
        return stepped(target, sum, NO_REGISTER, 0);
    }
    wanting(JUMPED, to, at, sum)
}

// LOAD (L).
fn load_step(
    storage: &[u8],
    kept: &[u32; 32],
    at: usize,
    sum: u64,
    register: usize,
    a: usize,
) -> Step
    requires { Inside storage.now kept.now × (a < 2147483648) × (at < 9223372036854775808) }
    ensures { (result ≡ load_step storage.now kept.now at sum register a) × (slice_index kept.now (entry_of a) < 4294967296) }
{
    let i = a / 2048 % 8;
    let d = a.wrapping_sub(kept[i] as usize);
    if d > 2044 {
        return wanting(FETCH, a, at, sum);
    }
    stepped(
        at + 4,
        sum,
        register,
        words::word_at(storage, kept[8 + i] as usize + d),
    )
}

// STORE (ST): the part of the block that the word takes is lent to the writer.
fn store_step(
    storage: &mut [u8],
    kept: &[u32; 32],
    at: usize,
    sum: u64,
    value: u32,
    a: usize,
) -> Step
    requires { Inside storage.old kept.now × (a < 2147483648) × (at < 9223372036854775808) }
    ensures { (result ≡ store_step kept.now at sum a) × (storage.new ≡ stored_step storage.old kept.now a value)
        × (slice_index kept.now (16 + entry_of a) < 4294967296) }
{
    let i = a / 2048 % 8;
    let d = a.wrapping_sub(kept[16 + i] as usize);
    if d > 2044 {
        return wanting(STORE, a, at, sum);
    }
    if a < 512 {
        return wanting(OTHER, a, at, sum);
    }
    let from = kept[24 + i] as usize + d;
    writer::put_part(&mut storage[from..from + 4], &value.to_be_bytes());
    stepped(at + 4, sum, NO_REGISTER, 0)
}

// The instruction at a place, with four bytes of its block from there on.
fn unit(
    storage: &mut [u8],
    words: &[u32; 16],
    kept: &[u32; 32],
    at: usize,
    sum: u64,
    trap: bool,
    long: bool,
    top: usize,
    target: usize,
) -> Step
    requires { Inside storage.old kept.now × (at + 4 ≤ length storage.old) × (at < 4294967296) × Sixteen words.now }
    ensures stepped { result.want < 2 → Stepped storage.old kept.now at sum words.now trap long top target result storage.new }
    ensures storage_unchanged { 2 ≤ result.want → (storage.new ≡ storage.old) × (result.a < 2147483648) }
    ensures by_index { (guard : List ℕ) → Free guard kept.now → Alike guard storage.old storage.new }
{
    let op = storage[at];
    let registers = storage[at + 1] as usize;
    let r1 = registers / 16;
    let r2 = registers % 16;
    match op {
        0x18 => stepped(at + 2, sum, r1, words[r2]),
        0x1a => sum_step(at, sum, sums::add(words[r1], words[r2]), r1, trap),
        0x1b => sum_step(at, sum, sums::subtract(words[r1], words[r2]), r1, trap),
        0x07 => {
            if r2 == 0 {
                return stepped(at + 2, sum, NO_REGISTER, 0);
            }
            if sums::selects(r1, sum) {
                return branch_step(at, sum, words[r2] as usize, top, target);
            }
            stepped(at + 2, sum, NO_REGISTER, 0)
        }
        0x41 => stepped(
            at + 4,
            sum,
            r1,
            wrapped(long, total(storage, words, at, r2)) as u32,
        ),
        0x47 => {
            if sums::selects(r1, sum) {
                return branch_step(at, sum, total(storage, words, at, r2), top, target);
            }
            stepped(at + 4, sum, NO_REGISTER, 0)
        }
        0x58 => load_step(
            storage,
            kept,
            at,
            sum,
            r1,
            wrapped(long, total(storage, words, at, r2)),
        ),
        0x50 => store_step(
            storage,
            kept,
            at,
            sum,
            words[r1],
            wrapped(long, total(storage, words, at, r2)),
        ),
        _ => wanting(SPECIAL, 0, at, sum),
    }
}

// Sets one of sixteen registers, or none.
fn set_register(words: &mut [u32; 16], register: usize, value: u32)
    requires { Sixteen words.old }
    ensures { (words.new ≡ slice_set words.old register value) × Sixteen words.new }
{
    if register < 16 {
        words[register] = value;
    }
}

// Where the text at a logical address stands: none if its block is not kept, or the address is odd.
pub fn land(kept: &[u32; 32], a: usize) -> Option<Landing>
    requires { a < 2147483648 }
    ensures { (l : Landing) → result ≡ Some l → Lands kept.now a l }
{
    let i = a / 2048 % 8;
    let page = kept[i] as usize;
    let base = kept[8 + i] as usize;
    let d = a.wrapping_sub(page);
    if d >= 2048 || d % 2 != 0 {
        return None;
    }
    Some(Landing {
        page,
        base,
        at: base + d,
    })
}

// How a lap ends.
fn ended(want: u32, a: usize, address: usize, sum: u64, units: u32) -> Lap
    requires { (a < 2147483648) × (address < 2147483648) }
    ensures { (result ≡ record { address = address; code = code_in sum; units = units; want = want; a = a }) × (code_in sum < 4) }
{
    Lap {
        address: address as u32,
        code: sums::code_of(sum),
        units,
        want,
        a: a as u32,
    }
}

// A lap that ends where its text goes on at an address that no kept block has, or an odd one.
fn elsewhere(a: usize, sum: u64, units: u32) -> Lap
    requires { a < 2147483648 }
    ensures { (result.units ≡ units) × (result.address ≡ a) × (result.code ≡ code_in sum) × (result.code < 4) × (result.a < 2147483648) }
{
    if a % 2 == 1 {
        ended(OTHER, 0, a, sum, units)
    } else {
        ended(FETCH, a, a, sum, units)
    }
}

// The addressing mode is of 31 bits.
pub fn is_long(psw: Psw) -> bool
    ensures { (c : Cpu) → c.psw ≡ psw → result ≡ mode31 c }
{
    !psw.system370 && psw.right / 2147483648 % 2 == 1
}

// At most so many units.
pub fn units(
    storage: &mut [u8],
    words: &mut [u32; 16],
    kept: &[u32; 32],
    psw: Psw,
    most: u32,
) -> Lap
    requires { Inside storage.old kept.now × Sixteen words.old }
    ensures { (result.units ≤ most) × (result.code < 4) × (result.address < 2147483648) × (result.a < 2147483648) × Sixteen words.new
        × Laps kept.now psw words.old storage.old result words.new storage.new }
{
    let long = is_long(psw);
    let trap = cpu::overflow_enabled(psw);
    let address = wrapped(long, cpu::instruction_address(psw) as usize);
    let mut sum = sums::sum_for(cpu::condition_code(psw));
    let Some(first) = land(kept, address) else {
        return elsewhere(address, sum, 0);
    };
    let mut page = first.page;
    let mut base = first.base;
    let mut last = base + LAST;
    let mut at = first.at;
    let mut top = NOWHERE;
    let mut target = 0;
    let mut n = most;
    while n > 0 {
        if at > last {
            let a = wrapped(long, page + (at - base));
            if at == base + 2048 {
                return ended(DONE, 0, a, sum, most - n);
            }
            return ended(OTHER, 0, a, sum, most - n);
        }
        let s = unit(storage, words, kept, at, sum, trap, long, top, target);
        if s.want == DONE {
            set_register(words, s.register, s.value);
            at = s.at;
            sum = s.sum;
        } else {
            if s.want != JUMPED {
                return ended(s.want, s.a, page + (at - base), sum, most - n);
            }
            let a = wrapped(long, s.a);
            let Some(next) = land(kept, a) else {
                return elsewhere(a, s.sum, most - n + 1);
            };
            page = next.page;
            base = next.base;
            last = base + LAST;
            top = s.a;
            target = next.at;
            at = next.at;
        }
        n -= 1;
    }
    ended(DONE, 0, wrapped(long, page + (at - base)), sum, most)
}
