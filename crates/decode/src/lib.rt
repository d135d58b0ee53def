// The table of opcodes, searched by opcode. The contract of decode equates with the definition's opcode_of; the table is seen
// by nothing else.
#![tactic(auto)]

ghost use Rattle.std.specs.Prelude.{◌≡◌, true, ◌<◌, map, IfSome};
ghost use Rattle.machine.specs.Opcodes.{length_of, number_of, find, opcode_of, opcodes};
ghost use Rattle.decode.specs.Rows.{meant, length_of_number, measured, distinct, fits, found};

use machine::{Class, Opcode};

// The architectures that have a row.
#[derive(Clone, Copy)]
enum Architectures {
    Both,
    Xa,
    System370,
}

// A row of the table: the opcode's number, the architectures that have it, its length in halfwords, whether it is privileged,
// the alignment of its operand, and its class.
#[derive(Clone, Copy)]
struct Row(u32, Architectures, u8, bool, u32, Class);

// The rows of the definition, in its order.
static ROWS: [Row; 34] = [
    Row(0x18, Architectures::Both, 1, false, 1, Class::Lr),
    Row(0x1a, Architectures::Both, 1, false, 1, Class::Ar),
    Row(0x1b, Architectures::Both, 1, false, 1, Class::Sr),
    Row(0x07, Architectures::Both, 1, false, 1, Class::Bcr),
    Row(0x0a, Architectures::Both, 1, false, 1, Class::Svc),
    Row(0x41, Architectures::Both, 2, false, 1, Class::La),
    Row(0x47, Architectures::Both, 2, false, 1, Class::Bc),
    Row(0x50, Architectures::Both, 2, false, 1, Class::St),
    Row(0x58, Architectures::Both, 2, false, 1, Class::L),
    Row(0x82, Architectures::Both, 2, true, 8, Class::Lpsw),
    Row(0xb6, Architectures::Both, 2, true, 4, Class::Stctl),
    Row(0xb7, Architectures::Both, 2, true, 4, Class::Lctl),
    Row(0xb205, Architectures::Both, 2, false, 1, Class::Stck),
    Row(0xb208, Architectures::Both, 2, true, 8, Class::Spt),
    Row(0xb209, Architectures::Both, 2, true, 8, Class::Stpt),
    Row(0x83, Architectures::Both, 2, true, 1, Class::Mandatory),
    Row(0xae, Architectures::Both, 2, true, 1, Class::Mandatory),
    Row(0xb230, Architectures::Xa, 2, true, 1, Class::Mandatory),
    Row(0xb231, Architectures::Xa, 2, true, 1, Class::Mandatory),
    Row(0xb232, Architectures::Xa, 2, true, 1, Class::Mandatory),
    Row(0xb233, Architectures::Xa, 2, true, 1, Class::Mandatory),
    Row(0xb234, Architectures::Xa, 2, true, 1, Class::Mandatory),
    Row(0xb235, Architectures::Xa, 2, true, 1, Class::Mandatory),
    Row(0xb236, Architectures::Xa, 2, true, 1, Class::Mandatory),
    Row(0xb237, Architectures::Xa, 2, true, 1, Class::Mandatory),
    Row(0xb238, Architectures::Xa, 2, true, 1, Class::Mandatory),
    Row(0xb239, Architectures::Xa, 2, true, 1, Class::Mandatory),
    Row(0xb23a, Architectures::Xa, 2, true, 1, Class::Mandatory),
    Row(0xb23b, Architectures::Xa, 2, true, 1, Class::Mandatory),
    Row(0xb23c, Architectures::Xa, 2, true, 1, Class::Mandatory),
    Row(0x9c, Architectures::System370, 2, true, 1, Class::Mandatory),
    Row(0x9d, Architectures::System370, 2, true, 1, Class::Mandatory),
    Row(0x9e, Architectures::System370, 2, true, 1, Class::Mandatory),
    Row(0x9f, Architectures::System370, 2, true, 1, Class::Mandatory),
];

// The table. Each row has the length that its number has, and no two have the same number.
#[tactic(auto, unfolding(crate::specs::Rows::measured, crate::specs::Rows::numbered, crate::specs::Rows::distinct, crate::specs::Rows::length_of_number, machine::specs::Opcodes::length_of))]
fn rows() -> &'static [Row; 34]
    ensures rows { map meant result.now ≡ opcodes }
    ensures lengths { measured result.now ≡ true }
    ensures numbers { distinct result.now ≡ true }
{
    &ROWS
}

// An opcode's number: the first byte, or both bytes where the first is B2.
#[tactic(auto, unfolding(machine::specs::Opcodes::number_of))]
fn number_of(first: u32) -> u32
    ensures { result ≡ number_of first }
{
    if first / 256 == 0xb2 {
        first
    } else {
        first / 256
    }
}

// The length in halfwords of an opcode that has no row, by the two leftmost bits.
#[tactic(auto, unfolding(machine::specs::Opcodes::length_of))]
fn length_of(first: u32) -> u8
    ensures { result ≡ length_of first }
{
    match first / 16384 % 4 {
        0 => 1,
        1 | 2 => 2,
        _ => 3,
    }
}

// Whether a row is that of a number, for a guest of System/370 or of 370-XA.
#[tactic(auto, unfolding(crate::specs::Rows::fits, machine::specs::Opcodes::has))]
fn fits(row: Row, system370: bool, number: u32) -> bool
    ensures { result ≡ fits system370 number row }
{
    row.0 == number
        && match row.1 {
            Architectures::Both => true,
            Architectures::Xa => !system370,
            Architectures::System370 => system370,
        }
}

// The row of a number, or none.
fn row_of(system370: bool, number: u32) -> Option<Row>
    ensures row { found number result ≡ find system370 number opcodes }
    ensures length { IfSome result (λ r. r.2 ≡ length_of_number number) }
{
    rows()
        .iter()
        .find(|row| fits(**row, system370, number))
        .copied()
}

// What the table says of a first halfword, for a guest of System/370 or of 370-XA.
#[tactic(auto, unfolding(machine::specs::Opcodes::opcode_of), using(crate::proofs::Searching::length_by_number))]
pub fn decode(system370: bool, first: u32) -> Opcode
    requires { first < 65536 }
    ensures { result ≡ opcode_of system370 first }
{
    match row_of(system370, number_of(first)) {
        Some(Row(_, _, length, privileged, alignment, class)) => Opcode {
            length,
            privileged,
            alignment,
            class,
        },
        None => Opcode {
            length: length_of(first),
            privileged: false,
            alignment: 1,
            class: Class::Unassigned,
        },
    }
}
