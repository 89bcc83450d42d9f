//! A sum over all pairs of places, written once for values and totals. It doesn't overflow, since 500,000 numbers of
//! 2^88 stay below 2^107.

ghost use Rattle.std.specs.Prelude.{◌≡◌, ◌<◌, ◌≤◌, ◌^◌, ℕ, ℤ, unsigned_abs};
ghost use Rattle.clu_partition.specs.Partition.{below};
ghost use Rattle.clu_partition.specs.Sums.{pair_total};

/// The sum of a number for each pair of n places, where no number is past 2^88 in size.
pub fn pair_sum<F: Fn(u32, u32) -> i128>(n: u32, number: F) -> i128
    requires few { n ≤ 1000 }
    requires callable { (i j : ℕ) → i < j → j < n → F.pre number i j }
    requires small { (i j : ℕ) (r : ℤ) → i < j → j < n → F.post number i j r
        → unsigned_abs r ≤ 2 ^ 88 }
    ensures { (f : ℕ → ℕ → ℤ)
        → ((i j : ℕ) (r : ℤ) → i < j → j < n → F.post number i j r → r ≡ f i j)
        → result ≡ pair_total f (below n) }
{
    let mut sum = 0;
    for i in 0..n {
        for j in i + 1..n {
            sum += number(i, j);
        }
    }
    sum
}
