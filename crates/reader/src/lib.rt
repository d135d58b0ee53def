// The operand of a unit, read once every byte of it is reached: `count` of its bytes stand in host storage from `first` on, the
// others from `second` on.
#![tactic(auto)]

ghost use Rattle.std.specs.Prelude.{◌≡◌, ◌++◌, ◌+◌, ◌-◌, ◌≤◌, length, take, drop};

use pieces::Pieces;

// The bytes of an operand, as many as the slice has.
pub fn get_operand(bytes: &mut [u8], storage: &[u8], p: Pieces)
    requires count_bound { p.count ≤ length bytes.old }
    requires first_in_bounds { p.first + p.count ≤ length storage.now }
    requires second_in_bounds { p.second + (length bytes.old - p.count) ≤ length storage.now }
    ensures { bytes.new ≡ take p.count (drop p.first storage.now) ++ take (length bytes.old - p.count) (drop p.second storage.now) }
{
    let first = p.first as usize;
    let second = p.second as usize;
    let (front, back) = bytes.split_at_mut(p.count as usize);
    front.copy_from_slice(&storage[first..first + front.len()]);
    back.copy_from_slice(&storage[second..second + back.len()]);
}

// The bytes of an operand of N. Where they stand in one place they are one load, of a number one instruction.
pub fn operand<const N: usize>(storage: &[u8], p: Pieces) -> [u8; N]
    requires count_bound { p.count ≤ N }
    requires first_in_bounds { p.first + p.count ≤ length storage.now }
    requires second_in_bounds { p.second + (N - p.count) ≤ length storage.now }
    ensures { result ≡ take p.count (drop p.first storage.now) ++ take (N - p.count) (drop p.second storage.now) }
{
    if p.count as usize == N {
        words::bytes_at(storage, p.first as usize)
    } else {
        let mut bytes = [0; N];
        get_operand(&mut bytes, storage, p);
        bytes
    }
}
