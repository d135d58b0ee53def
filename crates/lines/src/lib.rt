// The line that a packed answer of run prints. Each contract equates with the definitions of specs/Line.
#![tactic(auto)]

ghost use Rattle.std.specs.Prelude.{◌≡◌, ◌+◌, ◌≤◌, ◌∷◌, ◌++◌, length, take};
ghost use Rattle.io.specs.Counts.{IsPrefixLen};
ghost use Rattle.arrayvec.specs.ArrayString.{array_string_len};
ghost use Rattle.lines.specs.Line.{space, decimal, line_bytes, refusal_line, end_line, packed_line};

use arrayvec::ArrayString;
use itoa::Buffer;
use packing::Kind;

const INTERCEPTED: u64 = Kind::Intercepted as u64;

const HOST_FAULT: u64 = Kind::HostFault as u64;

const BUDGET_USED: u64 = Kind::BudgetUsed as u64;

// Room for every line.
pub const LINE: usize = 64;

// A line, with room for every one.
pub type Line = ArrayString<LINE>;

// A line goes on with a space and a number.
fn put_number(line: &mut Line, n: u64)
    requires { array_string_len line.old + 21 ≤ line_bytes }
    ensures { (line.new.bytes ≡ line.old.bytes ++ space ∷ decimal n)
        × (array_string_len line.new ≤ array_string_len line.old + 21) }
{
    line.push(' ');
    line.push_str(Buffer::new().format(n));
}

// The line of a refusal.
fn refusal_line(number: u64) -> Line
    ensures { result.bytes ≡ refusal_line number }
{
    let mut line = Line::new();
    line.push('R');
    put_number(&mut line, number);
    line.push('\n');
    line
}

// The line of an end.
fn end_line(letter: char, number: u64, units: u64) -> Line
    requires { letter ≤ 127 }
    ensures { result.bytes ≡ end_line letter number units }
{
    let mut line = Line::new();
    line.push(letter);
    put_number(&mut line, number);
    put_number(&mut line, units);
    line.push('\n');
    line
}

// The line of a packed answer of run.
#[tactic(auto, unfolding(crate::specs::Line::packed_line, crate::specs::Line::kind_line))]
pub fn packed_line(answer: u64) -> Line
    ensures { result.bytes ≡ packed_line answer }
{
    let number = answer / 281474976710656 % 256;
    let units = answer % 4294967296;
    match answer / 72057594037927936 {
        INTERCEPTED => end_line('I', number, units),
        HOST_FAULT => end_line('H', number, units),
        BUDGET_USED => end_line('B', number, units),
        _ => refusal_line(number),
    }
}

// Puts the line of a packed answer of run at the start of `line`, and answers how long it is.
pub fn put_line(line: &mut [u8], answer: u64) -> usize
    requires { line_bytes ≤ length line.old }
    ensures prefix_len { IsPrefixLen result line.new }
    ensures line_after { take result line.new ≡ packed_line answer }
{
    let text = packed_line(answer);
    let bytes = text.as_bytes();
    line[..bytes.len()].copy_from_slice(bytes);
    bytes.len()
}
