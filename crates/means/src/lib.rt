// The weighted mean of four values under four gradients, E, W, S, N, with one unsigned division.
#![tactic(auto)]

ghost use Rattle.std.specs.Prelude.{◌≡◌, [], ◌∷◌, ◌+◌, ◌*◌, ◌^◌, ◌≤◌, ◌<◌, pos, nat_abs};
ghost use Rattle.toolkit.specs.Rounding.{round_half_up};
ghost use Rattle.method.specs.Planes.{weighted_mean, one_if_zero};
ghost use Rattle.method.specs.Four.{directions, sizes};
ghost use Rattle.method.specs.Sizes.{Naturals};
ghost use Rattle.means.specs.Naturals.{numbers, signed, unsigned, NaturalMeanFits};
ghost use Rattle.means.specs.Zeros.{ZerosFit};
ghost use Rattle.means.specs.Lifts.{lifted_values, LiftFits, LiftedMeanFits};

// 1 for a gradient of 0, 0 for any other.
#[tactic(auto, unfolding(method::specs::Planes::one_if_zero))]
fn one_for_zero(g: u64) -> u64
    ensures { (result ≡ one_if_zero g) × (result ≤ 1) }
{
    u64::from(g == 0)
}

// x·g + y·h.
fn paired(x: u64, g: u64, y: u64, h: u64) -> u64
    requires { x * g + y * h < 2 ^ 64 }
    ensures { result ≡ x * g + y * h }
{
    x * g + y * h
}

// n/d to the nearest whole number, halves upward.
#[tactic(auto, using(crate::specs::Products::natural_round))]
fn rounded(n: u64, d: u64) -> u64
    requires { (0 < d) × (n + d < 2 ^ 64) }
    ensures { pos result ≡ round_half_up (pos n) d }
{
    (n + d / 2) / d
}

// The mean of the values whose gradient is 0, of which there is one at least.
#[tactic(auto, unfolding(method::specs::Planes::count_zeros))]
fn mean_of_zeros(v: [u64; 4], g: [u64; 4]) -> u64
    requires { ZerosFit v g }
    ensures { pos result ≡ weighted_mean (signed (numbers v)) (numbers g) }
{
    let e = one_for_zero(g[0]);
    let w = one_for_zero(g[1]);
    let s = one_for_zero(g[2]);
    let n = one_for_zero(g[3]);
    let across = paired(e, v[0], w, v[1]);
    let down = paired(s, v[2], n, v[3]);
    rounded(across + down, e + w + s + n)
}

// The weighted mean of naturals. All is times the product of the four gradients, so that each weight is the product of the other three.
// Sum and divisor are formed before the test, so that nothing is left to do behind it but the division.
#[tactic(auto, using(crate::specs::Products::quotient_below, crate::specs::Products::some_zero))]
fn natural_mean(v: [u64; 4], g: [u64; 4]) -> u64
    requires { NaturalMeanFits v g }
    ensures { pos result ≡ weighted_mean (signed (numbers v)) (numbers g) }
{
    let e = g[0];
    let w = g[1];
    let s = g[2];
    let n = g[3];
    let across = e * w;
    let down = s * n;
    let d = paired(e + w, down, s + n, across);
    let a = paired(v[0], w, v[1], e);
    let b = paired(v[2], n, v[3], s);
    let sum = paired(a, down, b, across);
    if d == 0 {
        return mean_of_zeros(v, g);
    }
    rounded(sum, d)
}

// The same four numbers, none of them negative, as unsigned ones.
#[tactic(auto, using(crate::specs::Listed::four_listed, crate::specs::Listed::unsigned_is))]
fn naturals(v: [i64; 4]) -> [u64; 4]
    requires { Naturals 1000000 v }
    ensures { result ≡ unsigned v }
{
    v.map(i64::cast_unsigned)
}

// reach added to each of four values, entry by entry: `map` asks that its closure's sums fit, and the proof of that is longer than the line.
fn lifted(v: [i64; 4], reach: i64) -> [i64; 4]
    requires { LiftFits v reach }
    ensures { result ≡ lifted_values v reach }
{
    [v[0] + reach, v[1] + reach, v[2] + reach, v[3] + reach]
}

// Four numbers, in the order E, W, S, N, as a mean takes them.
pub fn values(east: i32, west: i32, south: i32, north: i32) -> [i64; 4]
    ensures { result ≡ (east ∷ west ∷ south ∷ north ∷ []) }
{
    [east, west, south, north].map(i64::from)
}

// The weighted mean of values from −reach to reach, lifted by reach so that the division is of unsigned numbers.
pub fn lifted_mean(v: [i64; 4], g: [i64; 4], reach: i64) -> i64
    requires { LiftedMeanFits v g reach }
    ensures { (result ≡ weighted_mean (directions v) (sizes (directions g))) × (nat_abs result ≤ nat_abs reach) }
{
    natural_mean(naturals(lifted(v, reach)), naturals(g)) as i64 - reach
}
