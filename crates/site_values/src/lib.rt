// The last numbers of a site: the gradients of its corners, its final difference and its outputs.
#![tactic(auto)]

ghost use Rattle.std.specs.Prelude.{◌≡◌, ◌≤◌, pos, nat_abs, ◌+ℤ◌, ◌-ℤ◌, ◌*ℤ◌};
ghost use Rattle.method.specs.Settings.{fusion_share};
ghost use Rattle.method.specs.Planes.{corner_gradients, fused, final_round};
ghost use Rattle.method.specs.Four.{directions, sizes, listed};
ghost use Rattle.method.specs.Sizes.{Naturals};

use frame::BlackLevel;

// The gradients of the corners NE, NW, SE and SW, each the sum of its two.
pub fn diagonal(g: [i64; 4]) -> [i64; 4]
    requires { Naturals 1000000 g }
    ensures { result ≡ listed (corner_gradients (sizes (directions g))) }
{
    [g[3] + g[0], g[3] + g[1], g[2] + g[0], g[2] + g[1]]
}

// x lifted by 32,768, above 0.
fn lifted(x: i32) -> u32
    requires { nat_abs x ≤ 32767 }
    ensures { (pos result ≡ x +ℤ pos 32768) × (result ≤ 65536) }
{
    (x + 32768) as u32
}

// The share of D in the final difference, in hundredths.
const FUSION_SHARE: u32 = 33;

// Both shares, 33·D + 67·M, lifted by 100·32,768.
fn shares(d: i32, m: i32) -> u32
    requires { (nat_abs d ≤ 32767) × (nat_abs m ≤ 32767) }
    ensures { (pos result ≡ pos 33 *ℤ d +ℤ pos 67 *ℤ m +ℤ pos 3276800) × (result ≤ 6553600) }
{
    FUSION_SHARE * lifted(d) + (100 - FUSION_SHARE) * lifted(m)
}

// The final difference in quarters, of D and M in eighths. It is lifted, so that the division is of unsigned numbers.
pub fn fuse(d: i32, m: i32) -> i32
    requires { (nat_abs d ≤ 32767) × (nat_abs m ≤ 32767) }
    ensures { result ≡ fused fusion_share d m }
{
    ((shares(d, m) + 100) / 200) as i32 - 16384
}

// The output of a number in quarters: it is rounded, then the black level is taken off.
pub fn output(q: i32, black: BlackLevel) -> i32
    requires { nat_abs q ≤ 1000000 }
    ensures { result ≡ final_round q -ℤ pos black.level }
{
    ((q + 2) >> 2) - black.level as i32
}
