// The record, of 200 bytes or 208: its fields read and written. Each contract equates with machine's Record and Answers.
#![tactic(auto)]

ghost use Rattle.std.specs.Prelude.{◌≡◌, true, false, ◌+◌, ◌≤◌, length, get_or, IfSome, MatchOption};
ghost use Rattle.std.proofs.lemmas.List.Edits.{sets};
ghost use Rattle.machine.specs.Words.{words_at};
ghost use Rattle.machine.specs.Record.{is_system370, register_bytes, guest_of, cpu_of, with_cpu, with_results, request_of, residue_of, with_interval};
ghost use Rattle.machine.specs.Psw.{control};
ghost use Rattle.machine.specs.Answers.{results, reason_results, end_results};
ghost use Rattle.records.specs.Ticking.{with_ticks};

use machine::{Cpu, End, Guest, Psw, Reason, Registers, Text};

// The interval timer's fields, in the longer record: the request byte, whose bit 0 is T, and the residue.
#[derive(Clone, Copy, Default)]
pub struct Ticks {
    pub request: u8,
    pub residue: u32,
}

// Where the fields stand that units change.
const PSW: usize = 16;

const TIMER: usize = 24;

const CONTROL: usize = 72;

const GENERAL: usize = 136;

const REQUEST: usize = 200;

const RESIDUE: usize = 204;

// The text of a result that has none.
const NO_TEXT: Text = Text {
    ilc: 0,
    first: 0,
    second: 0,
    third: 0,
};

// The fields that no unit changes.
#[tactic(auto, unfolding(machine::specs::Record::guest_of))]
pub fn guest_of(r: &[u8]) -> Guest
    requires { 200 ≤ length r.now }
    ensures { result ≡ guest_of r.now }
{
    Guest {
        version: r[2],
        interventions: r[3],
        mode: r[4],
        interceptions: r[5],
        lctl: words::half_at(r, 6),
        prefix: words::word_at(r, 8) / 4096 % 524288,
        origin: words::half_at(r, 12),
        extent: words::half_at(r, 14),
        comparator: words::double_at(r, 32),
        epoch: words::double_at(r, 40),
        svc: r[48],
        svc1: r[49],
        svc2: r[50],
        svc3: r[51],
    }
}

// The sixteen words from an address on.
#[tactic(auto, unfolding(machine::specs::Words::words_at))]
fn registers_at(r: &[u8], a: usize) -> Registers
    requires { a + 64 ≤ length r.now }
    ensures { result.words ≡ words_at r.now a 16 }
{
    let mut words = [0; 16];
    for (i, word) in words.iter_mut().enumerate() {
        *word = words::word_at(r, a + 4 * i);
    }
    Registers { words }
}

// Whether the guest is a System/370 one: mode bits 4-5 are 01.
fn system370_of(r: &[u8]) -> bool
    requires { 200 ≤ length r.now }
    ensures { result ≡ is_system370 r.now }
{
    r[4] / 4 % 4 == 1
}

// The PSW.
#[tactic(auto, unfolding(machine::specs::Record::cpu_of))]
pub fn psw_of(r: &[u8]) -> Psw
    requires { 200 ≤ length r.now }
    ensures { result ≡ (cpu_of r.now).psw }
{
    words::psw_at(r, PSW, system370_of(r))
}

// The control registers, of which only 0 and 1 are read: addressing looks at no other.
#[tactic(auto, unfolding(machine::specs::Record::cpu_of, machine::specs::Words::words_at))]
pub fn table_controls(r: &[u8]) -> Registers
    requires { 200 ≤ length r.now }
    ensures { (get_or result.words 0 0 ≡ control (cpu_of r.now) 0) × (get_or result.words 1 0 ≡ control (cpu_of r.now) 1) }
{
    let mut words = [0; 16];
    words[0] = words::word_at(r, CONTROL);
    words[1] = words::word_at(r, CONTROL + 4);
    Registers { words }
}

// The fields that units change.
#[tactic(auto, unfolding(machine::specs::Record::cpu_of))]
pub fn cpu_of(r: &[u8]) -> Cpu
    requires { 200 ≤ length r.now }
    ensures { result ≡ cpu_of r.now }
{
    Cpu {
        psw: psw_of(r),
        timer: words::double_at(r, TIMER),
        control: registers_at(r, CONTROL),
        general: registers_at(r, GENERAL),
    }
}

// Sixteen words, written from an address on.
#[tactic(auto, using(machine::proofs::Words::sets_words_more), unfolding(machine::specs::Words::words_bytes))]
fn put_registers(r: &mut [u8], a: usize, registers: Registers)
    requires { a + 64 ≤ length r.old }
    ensures { r.new ≡ sets r.old a (register_bytes registers.words) }
{
    for (i, word) in registers.words.iter().enumerate() {
        words::put_word(r, a + 4 * i, *word);
    }
}

// The fields that units change, put into the record.
#[tactic(auto, unfolding(machine::specs::Record::with_cpu))]
pub fn put_cpu(r: &mut [u8], cpu: Cpu)
    requires { 200 ≤ length r.old }
    ensures { r.new ≡ with_cpu cpu r.old }
{
    words::put_psw(r, PSW, cpu.psw);
    words::put_double(r, TIMER, cpu.timer);
    put_registers(r, CONTROL, cpu.control);
    put_registers(r, GENERAL, cpu.general);
}

// The interval timer's request byte, whose bit 0 is T.
pub fn request_of(r: &[u8]) -> u8
    requires { 208 ≤ length r.now }
    ensures { result ≡ request_of r.now }
{
    r[REQUEST]
}

// The interval timer's residue.
pub fn residue_of(r: &[u8]) -> u32
    requires { 208 ≤ length r.now }
    ensures { result ≡ residue_of r.now }
{
    words::word_at(r, RESIDUE)
}

// The interval timer's fields, put into the record.
#[tactic(auto, unfolding(machine::specs::Record::with_interval, machine::specs::Record::with_request))]
pub fn put_interval(r: &mut [u8], request: u8, residue: u32)
    requires { 208 ≤ length r.old }
    ensures { r.new ≡ with_interval request residue r.old }
{
    r[REQUEST] = request;
    words::put_word(r, RESIDUE, residue);
}

// The interval timer's fields, where the timer is active.
pub fn ticks_in(r: &[u8], timed: bool) -> Option<Ticks>
    requires { timed ≡ true → 208 ≤ length r.now }
    ensures { MatchOption result (timed ≡ false) (λ t. (timed ≡ true) × (t.request ≡ request_of r.now) × (t.residue ≡ residue_of r.now)) }
{
    if timed {
        Some(Ticks {
            request: request_of(r),
            residue: residue_of(r),
        })
    } else {
        None
    }
}

// They are put back, where the timer is active.
pub fn put_ticks(r: &mut [u8], ticks: Option<Ticks>)
    requires { IfSome ticks (λ t. 208 ≤ length r.old) }
    ensures { r.new ≡ with_ticks ticks r.old }
{
    if let Some(t) = ticks {
        put_interval(r, t.request, t.residue);
    }
}

// Bytes 52-65: interception code, ILC, interruption code, address and instruction text.
#[tactic(auto, unfolding(machine::specs::Record::with_results, machine::specs::Answers::results))]
fn put_fields(r: &mut [u8], code: u8, interruption: u16, address: u32, t: Text)
    requires { 200 ≤ length r.old }
    ensures { r.new ≡ with_results (results code interruption address t) r.old }
{
    r[52] = code;
    r[53] = t.ilc;
    words::put_half(r, 54, interruption as u32);
    words::put_word(r, 56, address);
    words::put_half(r, 60, t.first as u32);
    words::put_half(r, 62, t.second as u32);
    words::put_half(r, 64, t.third as u32);
}

// The results of an interception without instruction text.
fn put_plain(r: &mut [u8], code: u8, interruption: u16, ilc: u8, address: u32)
    requires { 200 ≤ length r.old }
    ensures { r.new ≡ with_results (results code interruption address (record { ilc = ilc; first = 0; second = 0; third = 0 })) r.old }
{
    put_fields(r, code, interruption, address, Text { ilc, ..NO_TEXT });
}

// The results of an interception.
#[tactic(auto, unfolding(machine::specs::Answers::reason_results, machine::specs::Answers::results_with, machine::specs::Answers::reason_code))]
fn put_reason(r: &mut [u8], reason: Reason)
    requires { 200 ≤ length r.old }
    ensures { r.new ≡ with_results (reason_results reason) r.old }
{
    match reason {
        Reason::Instruction(t) => put_fields(r, 4, 0, 0, t),
        Reason::Program { code, ilc, address } => put_plain(r, 8, code, ilc, address),
        Reason::ExternalRequest => put_plain(r, 16, 0, 0, 0),
        Reason::External(code) => put_plain(r, 20, code, 0, 0),
        Reason::IoRequest => put_plain(r, 24, 0, 0, 0),
        Reason::Wait => put_plain(r, 28, 0, 0, 0),
        Reason::Validity => put_plain(r, 32, 0, 0, 0),
        Reason::Stop => put_plain(r, 40, 0, 0, 0),
        Reason::Operation(t) => put_fields(r, 44, 0, 0, t),
    }
}

// The results of a run's end, put into the record.
#[tactic(auto, unfolding(machine::specs::Answers::end_results))]
pub fn put_results(r: &mut [u8], end: End)
    requires { 200 ≤ length r.old }
    ensures { r.new ≡ with_results (end_results end) r.old }
{
    match end {
        End::Intercepted(reason) => put_reason(r, reason),
        End::HostFault(_) => put_plain(r, 0, 0, 0, 0),
        End::BudgetUsed => put_plain(r, 0, 0, 0, 0),
    }
}
