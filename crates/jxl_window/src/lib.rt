// The bytes that a reading of bits looks at. What they are as a number is in `jxl_bit_rules`.
#![tactic(auto)]

ghost use Rattle.std.specs.Prelude.{◌≡◌, ◌/◌, ◌%◌, ◌^◌, get_or, drop};
ghost use Rattle.jxl_bit_rules.specs.Bits.{number};

// The byte at `i`; beyond the end, 0.
fn byte_or_zero(s: &[u8], i: usize) -> u8
    ensures { result ≡ get_or s.now i 0 }
{
    s.get(i).copied().unwrap_or(0)
}

// The eight bytes from the one that holds bit `at`, those beyond the end as 0. Five would do; eight are one load.
// Picked one by one: by `first_chunk` peek_bits took 0.70 in place of 0.43 of the Rust's time, read_bool 0.52 in place of 0.28.
pub fn window(s: &[u8], at: usize) -> u64
    ensures { result ≡ number (drop (at / 8) s.now) % 2 ^ 64 }
{
    let i = at / 8;
    if i + 8 <= s.len() {
        u64::from_le_bytes([
            s[i],
            s[i + 1],
            s[i + 2],
            s[i + 3],
            s[i + 4],
            s[i + 5],
            s[i + 6],
            s[i + 7],
        ])
    } else {
        u64::from_le_bytes([
            byte_or_zero(s, i),
            byte_or_zero(s, i + 1),
            byte_or_zero(s, i + 2),
            byte_or_zero(s, i + 3),
            byte_or_zero(s, i + 4),
            byte_or_zero(s, i + 5),
            byte_or_zero(s, i + 6),
            byte_or_zero(s, i + 7),
        ])
    }
}
