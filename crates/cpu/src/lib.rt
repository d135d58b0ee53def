// Questions about the CPU and its next values, as the units ask them. Each contract equates with machine's Psw, Time, Execute and
// Units, for every CPU, guest or unit in progress that has the parts handed in. The questions about a PSW are no methods of it: machine,
// which declares it, holds the definition alone.
#![tactic(auto)]

ghost use Rattle.std.specs.Prelude.{◌≡◌, ℕ, ◌≤◌, ◌<◌};
ghost use Rattle.machine.specs.declared.Cpu.{Cpu};
ghost use Rattle.machine.specs.Words.{bit};
ghost use Rattle.machine.specs.Psw.{basic_control, io_enabled, external_enabled, waiting, problem_state, condition_code, overflow_enabled, mode31, instruction_address, not_installed, left_malformed, malformed, wrap, with_address, advanced, with_condition_code, old_psw};
ghost use Rattle.machine.specs.Host.{Cell};
ghost use Rattle.machine.specs.Outcomes.{Progress};
ghost use Rattle.machine.specs.Execute.{address_part, operand_address, indexed_address, selected, range_count};
ghost use Rattle.machine.specs.Units.{intercepts_svc, intercepts_lctl, misaligned, unit};
ghost use Rattle.cpu.specs.Before.{unit_after};

use machine::{Guest, Psw, Reason, Registers, Text};

// What the list before a unit comes to: an end, a specification exception, or the instruction.
#[derive(Clone, Copy)]
pub enum Before {
    Ends(Reason),
    Malformed,
    Instruction,
}

// The interruption codes of the external interruptions.
const COMPARATOR: u16 = 0x1004;

const TIMER: u16 = 0x1005;

const INTERVAL: u16 = 0x0080;

// The number of addresses of 24 bits, and of 31.
const TWO_24: u32 = 1 << 24;

const TWO_31: u32 = 1 << 31;

// Bit i of a number that is this many bits wide, counted from the left.
pub fn bit(width: u32, i: u32, x: u32) -> bool
    requires { (i < width) × (width ≤ 32) }
    ensures { result ≡ bit width i x }
{
    (x >> (width - 1 - i)) % 2 == 1
}

// The form of the PSW is BC.
pub fn basic_control(psw: Psw) -> bool
    ensures { (c : Cpu) → c.psw ≡ psw → result ≡ basic_control c }
{
    psw.system370 && !bit(32, 12, psw.left)
}

// The PSW asks for a facility that is not installed.
#[tactic(auto, unfolding(machine::specs::Psw::not_installed))]
pub fn not_installed(psw: Psw) -> bool
    ensures { (c : Cpu) → c.psw ≡ psw → result ≡ not_installed c }
{
    if psw.system370 {
        bit(32, 12, psw.left)
            && (bit(32, 1, psw.left) || bit(32, 5, psw.left) || bit(32, 16, psw.left))
    } else {
        bit(32, 1, psw.left) || bit(32, 16, psw.left)
    }
}

// A bit of the left word that must be zero in EC and 370-XA is one.
fn left_malformed(psw: Psw) -> bool
    ensures { (c : Cpu) → c.psw ≡ psw → result ≡ left_malformed c }
{
    bit(32, 0, psw.left)
        || (psw.left >> 27) % 8 != 0
        || bit(32, 17, psw.left)
        || psw.left % 256 != 0
}

// The PSW is one to which a specification exception belongs.
#[tactic(auto, unfolding(machine::specs::Psw::malformed))]
pub fn malformed(psw: Psw) -> bool
    ensures { (c : Cpu) → c.psw ≡ psw → result ≡ malformed c }
{
    if psw.system370 {
        bit(32, 12, psw.left) && (left_malformed(psw) || psw.right >> 24 != 0)
    } else {
        left_malformed(psw)
            || !bit(32, 12, psw.left)
            || (!mode31(psw) && (psw.right >> 24) % 128 != 0)
    }
}

// Problem state.
pub fn problem_state(psw: Psw) -> bool
    ensures { (c : Cpu) → c.psw ≡ psw → result ≡ problem_state c }
{
    bit(32, 15, psw.left)
}

// The wait state.
pub fn waiting(psw: Psw) -> bool
    ensures { (c : Cpu) → c.psw ≡ psw → result ≡ waiting c }
{
    bit(32, 14, psw.left)
}

// I/O interruptions are enabled: in BC by the mask of some channel.
pub fn io_enabled(psw: Psw) -> bool
    ensures { (c : Cpu) → c.psw ≡ psw → result ≡ io_enabled c }
{
    if basic_control(psw) {
        psw.left >> 25 != 0
    } else {
        bit(32, 6, psw.left)
    }
}

// External interruptions are enabled.
pub fn external_enabled(psw: Psw) -> bool
    ensures { (c : Cpu) → c.psw ≡ psw → result ≡ external_enabled c }
{
    bit(32, 7, psw.left)
}

// Fixed-point overflow is a program exception.
pub fn overflow_enabled(psw: Psw) -> bool
    ensures { (c : Cpu) → c.psw ≡ psw → result ≡ overflow_enabled c }
{
    if basic_control(psw) {
        bit(32, 4, psw.right)
    } else {
        bit(32, 20, psw.left)
    }
}

// The condition code.
pub fn condition_code(psw: Psw) -> u32
    ensures { (c : Cpu) → c.psw ≡ psw → result ≡ condition_code c }
{
    if basic_control(psw) {
        (psw.right >> 28) % 4
    } else {
        (psw.left >> 12) % 4
    }
}

// Addresses have 31 bits, else 24.
fn mode31(psw: Psw) -> bool
    ensures { (c : Cpu) → c.psw ≡ psw → result ≡ mode31 c }
{
    !psw.system370 && bit(32, 0, psw.right)
}

// The instruction address.
pub fn instruction_address(psw: Psw) -> u32
    ensures { (c : Cpu) → c.psw ≡ psw → result ≡ instruction_address c }
{
    if psw.system370 {
        psw.right % TWO_24
    } else {
        psw.right % TWO_31
    }
}

// A logical address, cut to the addressing mode.
#[tactic(auto, unfolding(machine::specs::Psw::wrap))]
pub fn wrapped(psw: Psw, a: u64) -> u32
    ensures { (result < 2147483648) × ((c : Cpu) → c.psw ≡ psw → result ≡ wrap c a) }
{
    if mode31(psw) {
        (a % TWO_31 as u64) as u32
    } else {
        (a % TWO_24 as u64) as u32
    }
}

// The PSW at another instruction address, cut to the addressing mode: what stands before the address stays.
#[tactic(auto, unfolding(machine::specs::Psw::with_address, machine::specs::Psw::with_psw))]
pub fn with_address(psw: Psw, a: u32) -> Psw
    ensures { (c : Cpu) → c.psw ≡ psw → result ≡ (with_address c a).psw }
{
    let right = if psw.system370 {
        (psw.right >> 24 << 24) + a % TWO_24
    } else {
        (psw.right >> 31 << 31) + wrapped(psw, a as u64)
    };
    Psw { right, ..psw }
}

// The PSW past an instruction of so many halfwords.
#[tactic(auto, unfolding(machine::specs::Psw::advanced))]
pub fn advanced(psw: Psw, halfwords: u32) -> Psw
    requires { halfwords ≤ 3 }
    ensures { (c : Cpu) → c.psw ≡ psw → result ≡ (advanced c halfwords).psw }
{
    with_address(psw, instruction_address(psw) + 2 * halfwords)
}

// The PSW with another condition code.
#[tactic(auto, unfolding(machine::specs::Psw::with_condition_code, machine::specs::Psw::with_psw))]
pub fn with_condition_code(psw: Psw, code: u32) -> Psw
    requires { code < 4 }
    ensures { (c : Cpu) → c.psw ≡ psw → result ≡ (with_condition_code c code).psw }
{
    if basic_control(psw) {
        Psw {
            right: (psw.right >> 30 << 30) + (code << 28) + psw.right % (1 << 28),
            ..psw
        }
    } else {
        Psw {
            left: (psw.left >> 14 << 14) + (code << 12) + psw.left % (1 << 12),
            ..psw
        }
    }
}

// The PSW that an interruption stores as the old one: a BC PSW has the interruption code in bits 16-31 and the ILC in bits 32-33.
#[tactic(auto, unfolding(machine::specs::Psw::old_psw))]
pub fn old_psw(psw: Psw, ilc: u32, code: u32) -> Psw
    requires { (ilc < 4) × (code < 65536) }
    ensures { (c : Cpu) → c.psw ≡ psw → result ≡ old_psw c ilc code }
{
    if basic_control(psw) {
        Psw {
            left: (psw.left >> 16 << 16) + code,
            right: (ilc << 30) + psw.right % (1 << 30),
            ..psw
        }
    } else {
        psw
    }
}

// The content of a base or index register: register 0 stands for zero.
#[tactic(auto, unfolding(machine::specs::Execute::address_part))]
pub fn address_part(general: Registers, i: u32) -> u32
    requires { i < 16 }
    ensures { (x : Progress) → x.cpu.general ≡ general → result ≡ address_part x i }
{
    if i == 0 { 0 } else { general.words[i as usize] }
}

// The operand's address D2(B2), cut once at the end.
#[tactic(auto, unfolding(machine::specs::Execute::operand_address, machine::specs::Psw::wrap))]
pub fn operand_address(psw: Psw, general: Registers, text: Text) -> u32
    ensures { ((c : Cpu) → c.psw ≡ psw → wrap c result ≡ result) × ((x : Progress) → x.cpu.psw ≡ psw → x.cpu.general ≡ general → x.text ≡ text → result ≡ operand_address x) }
{
    let second = text.second as u32;
    let base = address_part(general, second >> 12);
    wrapped(psw, base as u64 + (second % 4096) as u64)
}

// The operand's address D2(X2,B2), cut once at the end.
#[tactic(auto, unfolding(machine::specs::Execute::indexed_address, machine::specs::Psw::wrap))]
pub fn indexed_address(psw: Psw, general: Registers, text: Text) -> u32
    ensures { ((c : Cpu) → c.psw ≡ psw → wrap c result ≡ result) × ((x : Progress) → x.cpu.psw ≡ psw → x.cpu.general ≡ general → x.text ≡ text → result ≡ indexed_address x) }
{
    let first = text.first as u32;
    let second = text.second as u32;
    let index = address_part(general, first % 16);
    let base = address_part(general, second >> 12);
    wrapped(psw, index as u64 + base as u64 + (second % 4096) as u64)
}

// The mask's bit for the condition code is one.
#[tactic(auto, unfolding(machine::specs::Execute::selected))]
pub fn selected(mask: u32, code: u32) -> bool
    requires { code < 4 }
    ensures { result ≡ selected mask code }
{
    bit(4, code, mask)
}

// How many control registers R1 to R3 are, going up and through 15 to 0.
#[tactic(auto, unfolding(machine::specs::Execute::range_count))]
pub fn range_count(text: Text) -> u32
    ensures { (1 ≤ result) × (result ≤ 16) × ((x : Progress) → x.text ≡ text → result ≡ range_count x) }
{
    let first = text.first as u32;
    (first % 16 + (16 - first / 16 % 16)) % 16 + 1
}

// The guest's flags and numbers ask for an interception of this SUPERVISOR CALL.
#[tactic(auto, unfolding(machine::specs::Units::intercepts_svc))]
pub fn intercepts_svc(guest: Guest, number: u32) -> bool
    ensures { result ≡ intercepts_svc guest number }
{
    let svc = guest.svc as u32;
    bit(8, 0, svc)
        || (bit(8, 1, svc) && guest.svc1 as u32 == number)
        || (bit(8, 2, svc) && guest.svc2 as u32 == number)
        || (bit(8, 3, svc) && guest.svc3 as u32 == number)
}

// The interception control of one of n control registers from i on is one.
pub fn intercepts_lctl(guest: Guest, i: u32, n: u32) -> bool
    requires { i < 16 }
    ensures { result ≡ intercepts_lctl guest i n }
{
    let mut at = i;
    for _ in 0..n {
        if bit(16, at, guest.lctl as u32) {
            return true;
        }
        at = (at + 1) % 16;
    }
    false
}

// The operand's address is not a multiple of its alignment.
#[tactic(auto, unfolding(machine::specs::Units::misaligned))]
pub fn misaligned(alignment: u32, a: u32) -> bool
    requires { 0 < alignment }
    ensures { result ≡ misaligned alignment a }
{
    a % alignment != 0
}

// The list before each unit, first that applies.
#[tactic(auto, unfolding(machine::specs::Units::unit))]
pub fn before_unit(
    guest: Guest,
    clock: u64,
    requested: bool,
    psw: Psw,
    timer: u64,
    control: Registers,
) -> Before
    ensures { (v : ℕ → Cell) (c : Cpu) → c.psw ≡ psw → c.timer ≡ timer → c.control ≡ control
        → unit guest clock requested v c ≡ unit_after guest clock v c result }
{
    let requests = guest.interventions as u32;
    let cr0 = control.words[0];
    let external = external_enabled(psw);
    if bit(8, 5, requests) {
        Before::Ends(Reason::Stop)
    } else if not_installed(psw) {
        Before::Ends(Reason::Validity)
    } else if malformed(psw) {
        Before::Malformed
    } else if external && bit(32, 20, cr0) && clocks::comparator_due(guest, clock) {
        Before::Ends(Reason::External(COMPARATOR))
    } else if external && bit(32, 21, cr0) && clocks::timer_due(timer) {
        Before::Ends(Reason::External(TIMER))
    } else if external && bit(32, 24, cr0) && requested {
        Before::Ends(Reason::External(INTERVAL))
    } else if bit(8, 7, requests) && external {
        Before::Ends(Reason::ExternalRequest)
    } else if bit(8, 6, requests) && io_enabled(psw) {
        Before::Ends(Reason::IoRequest)
    } else if waiting(psw) {
        Before::Ends(Reason::Wait)
    } else {
        Before::Instruction
    }
}
