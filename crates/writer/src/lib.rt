// The stores of a completed unit, made once every access is known good. Each contract equates with what operands'
// Opened says of an operand: `count` of its bytes stand in host storage from `first` on, the others from `second` on.
#![tactic(auto)]

ghost use Rattle.std.specs.Prelude.{◌≡◌, ◌+◌, ◌-◌, ◌≤◌, length, take, drop};
ghost use Rattle.std.proofs.lemmas.List.Edits.{sets};

use pieces::Pieces;

// The byte writer: bytes, over a part of storage that is as long. It is lent that part and no more.
pub fn put_part(part: &mut [u8], bytes: &[u8])
    requires { length part.old ≡ length bytes.now }
    ensures { part.new ≡ bytes.now }
{
    part.copy_from_slice(bytes);
}

// The bytes of an operand. Where they stand in one place they are one store, of a number one instruction.
pub fn put_operand(storage: &mut [u8], bytes: &[u8], p: Pieces)
    requires count_bound { p.count ≤ length bytes.now }
    requires first_in_bounds { p.first + p.count ≤ length storage.old }
    requires second_in_bounds { p.second + (length bytes.now - p.count) ≤ length storage.old }
    ensures { storage.new ≡ sets (sets storage.old p.first (take p.count bytes.now)) p.second (drop p.count bytes.now) }
{
    let first = p.first as usize;
    let second = p.second as usize;
    if p.count as usize == bytes.len() {
        put_part(&mut storage[first..first + bytes.len()], bytes);
    } else {
        let (front, back) = bytes.split_at(p.count as usize);
        put_part(&mut storage[first..first + front.len()], front);
        put_part(&mut storage[second..second + back.len()], back);
    }
}
