// How many events a queue must hold, and the sum that stops at the largest number of 64 bits.
#![tactic(auto)]

ghost use Rattle.std.specs.Prelude.{◌≡◌};
ghost use Rattle.jxl_queue.specs.Queue.{saturated, most_events};

// The sum, at most the largest number of 64 bits. It stays for its promise (`OneSaturatingSum`); the code here uses the library's own.
pub fn saturating_sum(a: usize, b: usize) -> usize
    ensures { result ≡ saturated a b }
{
    a.saturating_add(b)
}

// An upper bound on the events that `n` bytes in `k` packets, one at least, and the end call give, for sizing a queue; it saturates at
// 64 bits.
pub fn most_events(n: u64, k: u64) -> u64
    ensures { result ≡ most_events n k }
{
    (n / 3 + 3).saturating_add(k)
}
