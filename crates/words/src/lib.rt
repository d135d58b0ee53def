// Big-endian halfwords, words, double words and PSWs in byte slices, read and written: leaves. Each contract equates with the definition
// of machine's Words or Record. A function for each size, as there is a definition for each: all else that they share is in bytes_at and
// put_bytes, and an impl of a trait for each type would have more lines.
#![tactic(auto)]

ghost use Rattle.std.specs.Prelude.{◌≡◌, ◌+◌, ◌≤◌, ◌<◌, length, take, drop};
ghost use Rattle.std.proofs.lemmas.List.Edits.{sets};
ghost use Rattle.machine.specs.Words.{half_at, word_at, double_at, half_bytes, word_bytes, double_bytes};
ghost use Rattle.machine.specs.Record.{psw_of, psw_bytes};

use machine::Psw;

// The bytes from an address on.
pub fn bytes_at<const N: usize>(s: &[u8], a: usize) -> [u8; N]
    requires { a + N ≤ length s.now }
    ensures { result ≡ take N (drop a s.now) }
{
    let mut bytes = [0; N];
    bytes.copy_from_slice(&s[a..a + N]);
    bytes
}

pub fn half_at(s: &[u8], a: usize) -> u16
    requires { a + 2 ≤ length s.now }
    ensures { (result ≡ half_at s.now a) × (result < 65536) }
{
    u16::from_be_bytes(bytes_at(s, a))
}

#[tactic(auto, unfolding(machine::specs::Words::word_at))]
pub fn word_at(s: &[u8], a: usize) -> u32
    requires { a + 4 ≤ length s.now }
    ensures { result ≡ word_at s.now a }
{
    u32::from_be_bytes(bytes_at(s, a))
}

#[tactic(auto, unfolding(machine::specs::Words::double_at, machine::specs::Words::word_at))]
pub fn double_at(s: &[u8], a: usize) -> u64
    requires { a + 8 ≤ length s.now }
    ensures { result ≡ double_at s.now a }
{
    u64::from_be_bytes(bytes_at(s, a))
}

// The PSW at an address, of the architecture that is told.
#[tactic(auto, unfolding(machine::specs::Record::psw_of))]
pub fn psw_at(s: &[u8], a: usize, system370: bool) -> Psw
    requires { a + 8 ≤ length s.now }
    ensures { result ≡ psw_of system370 s.now a }
{
    Psw {
        left: word_at(s, a),
        right: word_at(s, a + 4),
        system370,
    }
}

// Bytes, stored from an address on.
fn put_bytes(s: &mut [u8], a: usize, bytes: &[u8])
    requires { a + length bytes.now ≤ length s.old }
    ensures { s.new ≡ sets s.old a bytes.now }
{
    s[a..a + bytes.len()].copy_from_slice(bytes);
}

// The low 16 bits of a number are stored.
pub fn put_half(s: &mut [u8], a: usize, x: u32)
    requires { a + 2 ≤ length s.old }
    ensures { s.new ≡ sets s.old a (half_bytes x) }
{
    put_bytes(s, a, &((x % 65536) as u16).to_be_bytes());
}

pub fn put_word(s: &mut [u8], a: usize, x: u32)
    requires { a + 4 ≤ length s.old }
    ensures { s.new ≡ sets s.old a (word_bytes x) }
{
    put_bytes(s, a, &x.to_be_bytes());
}

pub fn put_double(s: &mut [u8], a: usize, x: u64)
    requires { a + 8 ≤ length s.old }
    ensures { s.new ≡ sets s.old a (double_bytes x) }
{
    put_bytes(s, a, &x.to_be_bytes());
}

pub fn put_psw(s: &mut [u8], a: usize, psw: Psw)
    requires { a + 8 ≤ length s.old }
    ensures { s.new ≡ sets s.old a (psw_bytes psw) }
{
    put_word(s, a, psw.left);
    put_word(s, a + 4, psw.right);
}
