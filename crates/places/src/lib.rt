// Places on kept blocks: where the bytes at a logical address stand in storage, by the table of kept blocks.
#![tactic(auto)]

ghost use Rattle.std.specs.Prelude.{◌≡◌, ℕ, Some, ◌+◌, ◌/◌, ◌%◌, ◌<◌, ◌≤◌, slice_index};
ghost use Rattle.blocks.specs.Keeping.{fetch_block, store_block};
ghost use Rattle.places.specs.Placing.{Spot};

// The place of n bytes at a wrapped logical address on the block of an entry.
fn place_at(kept: &[u32; 32], entry: usize, a: usize, n: usize) -> Option<usize>
    requires { (entry < 24) × (a < 2147483648) × (n ≤ 2048) }
    ensures { (p : ℕ) → result ≡ Some p → Spot (record { first = slice_index kept.now entry; place = slice_index kept.now (8 + entry) }) a n p }
{
    let d = a.wrapping_sub(kept[entry] as usize);
    if d > 2048 - n {
        return None;
    }
    Some(kept[8 + entry] as usize + d)
}

// The place of n bytes at a wrapped logical address on a kept block that is fetched from.
pub fn fetch_place(kept: &[u32; 32], a: usize, n: usize) -> Option<usize>
    requires { (a < 2147483648) × (n ≤ 2048) }
    ensures { (p : ℕ) → result ≡ Some p → Spot (fetch_block kept.now (a / 2048 % 8)) a n p }
{
    place_at(kept, a / 2048 % 8, a, n)
}

// The place of n bytes at a wrapped logical address on a kept block that is stored into.
pub fn store_place(kept: &[u32; 32], a: usize, n: usize) -> Option<usize>
    requires { (a < 2147483648) × (n ≤ 2048) }
    ensures { (p : ℕ) → result ≡ Some p → Spot (store_block kept.now (a / 2048 % 8)) a n p }
{
    place_at(kept, 16 + a / 2048 % 8, a, n)
}
