//! Finds a number in a rising list, behind a place.
ghost use Rattle.std.specs.Prelude.{◌≡◌, ◌<◌, ◌≤◌, ◌^◌, ℕ, length, slice_index, MatchResult};
ghost use Rattle.std.specs.List.Sorted.{IsStrictlyIncreasing};

/// Two places between which `x` stands in rising numbers, if it does from place `from` on: it is above
/// those before the first and below those from the second on. The steps double, so that a near place
/// is found in a few.
fn narrow_from(xs: &[u32], from: usize, x: u32) -> (usize, usize)
    requires within { from ≤ length xs.now }
    requires short { length xs.now < 2 ^ 32 }
    requires rising { IsStrictlyIncreasing xs.now }
    ensures since { from ≤ result.0 }
    ensures order { result.0 ≤ result.1 }
    ensures inside { result.1 ≤ length xs.now }
    ensures lower { (k : ℕ) → from ≤ k → k < result.0 → slice_index xs.now k < x }
    ensures higher { (k : ℕ) → result.1 ≤ k → k < length xs.now → x < slice_index xs.now k }
{
    let mut start = from;
    let mut step = 1;
    while step < xs.len() - start {
        let next = start + step;
        if x < xs[next] {
            return (start, next);
        }
        start = next;
        step *= 2;
    }
    (start, xs.len())
}

/// Where `x` stands in rising numbers from place `from` on, or where it would stand.
pub(crate) fn find_from(xs: &[u32], from: usize, x: u32) -> Result<usize, usize>
    requires within { from ≤ length xs.now }
    requires short { length xs.now < 2 ^ 32 }
    requires rising { IsStrictlyIncreasing xs.now }
    ensures { MatchResult result
        (λ place. (from ≤ place) × (place < length xs.now) × (slice_index xs.now place ≡ x))
        (λ place. (from ≤ place) × (place ≤ length xs.now)
        × ((k : ℕ) → from ≤ k → k < place → slice_index xs.now k < x)
        × ((k : ℕ) → place ≤ k → k < length xs.now → x < slice_index xs.now k)) }
{
    let (start, end) = narrow_from(xs, from, x);
    match xs[start..end].binary_search(&x) {
        Ok(place) => Ok(start + place),
        Err(place) => Err(start + place),
    }
}
