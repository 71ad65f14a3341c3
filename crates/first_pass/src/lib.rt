// The first pass at the red and blue sites of a row.
#![tactic(auto)]

ghost use Rattle.std.specs.Prelude.{◌≡◌, ℕ, ◌+◌, ◌*◌, ◌-◌, ◌<◌, ◌≤◌, pos, nat_abs, length};
ghost use Rattle.toolkit.specs.Entries.{Entries};
ghost use Rattle.toolkit.specs.Writes.{Wrote};
ghost use Rattle.frame.specs.Sites.{highest_sample};
ghost use Rattle.method.specs.Settings.{threshold};
ghost use Rattle.method.specs.Four.{directions, sizes};
ghost use Rattle.method.specs.Sizes.{Naturals};
ghost use Rattle.method.specs.Green.{vertical, diagonal, first_pass};
ghost use Rattle.records.specs.Quantities.{first_code};
ghost use Rattle.first_pass.specs.Lines.{line_difference, across_difference, down_difference, SmallRows};
ghost use Rattle.first_pass.specs.Outcomes.{outcome_of, settled};
ghost use Rattle.half_rows.specs.Sources.{Sized};
ghost use Rattle.first_pass.specs.Trials.{tried, site_trial, site_code};

use half_rows::SiteGradients;
use mosaic_rows::SevenRows;
use positions::Halves;

// What the first pass answers of a site. The numbers are the entries of the map, which C reads; that of a weak site is the entry of one
// resolved across, until the second pass resolves it.
#[derive(Clone, Copy)]
pub enum FirstPass {
    Equal = 1,
    Across = 2,
    Down = 3,
    Weak = 4,
}

// An estimate less 8·X: from X, the greens on both sides, and the Xs two off.
fn line(x: u16, g1: u16, g2: u16, x1: u16, x2: u16) -> i32
    requires { (x ≤ highest_sample) × (g1 ≤ highest_sample) × (g2 ≤ highest_sample) × (x1 ≤ highest_sample) × (x2 ≤ highest_sample) }
    ensures { result ≡ line_difference x g1 g2 x1 x2 }
{
    4 * (i32::from(g1) + i32::from(g2)) - 4 * i32::from(x) - 2 * (i32::from(x1) + i32::from(x2))
}

// gH and gV less 8·X at the red and blue columns, from the first on, of the row that starts at at[2]: half rows a and b.
// The entries are read before the loop, so that a row of sites is formed side by side.
pub fn line_row(rows: SevenRows<'_>, halves: Halves, a: &mut [i32; 2064], b: &mut [i32; 2064])
    requires c_bound { (halves.start ≤ 1) × (halves.count ≤ 2048) }
    requires small_rows { SmallRows (halves.start + 2 * halves.count + 9) rows.at rows.samples.now }
    ensures entries { Entries (pos 0) 2064 4 (halves.count + 4)
        (λ (x : ℕ). across_difference rows.entry.at rows.entry.samples.now (halves.start + 2 * (x - 4) + 8)) a.new }
    ensures entries_2 { Entries (pos 0) 2064 4 (halves.count + 4)
        (λ (x : ℕ). down_difference rows.entry.at rows.entry.samples.now (halves.start + 2 * (x - 4) + 8)) b.new }
{
    let [two_up, up, own, down, two_down, ..] = rows.at;
    let samples = rows.samples;
    for k in 0..halves.count {
        let j = halves.start + 2 * k + 8;
        let here = own + j;
        let x = samples[here];
        a[k + 4] = line(
            x,
            samples[here - 1],
            samples[here + 1],
            samples[here - 2],
            samples[here + 2],
        );
        b[k + 4] = line(
            x,
            samples[up + j],
            samples[down + j],
            samples[two_up + j],
            samples[two_down + j],
        );
    }
}

// A site is strong where one sum of gradients is more than this many tenths of the other.
const THRESHOLD: i32 = 17;

// The first pass's answer, from the four gradients. They are an array with their bound in a clause: the means take them with another one, since
// the sums of two are taken too.
// Here and in `settle` the values are formed before the choice, so that a row of sites is decided side by side.
pub fn decide(g: [i64; 4]) -> FirstPass
    requires { Naturals 40920 g }
    ensures { outcome_of result ≡ first_pass threshold (sizes (directions g)) }
{
    let h = g[0] as i32 + g[1] as i32;
    let v = g[2] as i32 + g[3] as i32;
    let way = if h < v {
        FirstPass::Across
    } else {
        FirstPass::Down
    };
    let unequal = if THRESHOLD * h.min(v) < 10 * h.max(v) {
        way
    } else {
        FirstPass::Weak
    };
    if h == v { FirstPass::Equal } else { unequal }
}

// A direction's difference: that of the first pass, and its own at a weak site.
fn settle(o: FirstPass, a: i32, b: i32, own: i32) -> i32
    requires { (nat_abs a ≤ 8184) × (nat_abs b ≤ 8184) }
    ensures { result ≡ settled o a b own }
{
    let straight = match o {
        FirstPass::Across => a,
        _ => b,
    };
    let found = match o {
        FirstPass::Equal => (a + b) >> 1,
        _ => straight,
    };
    match o {
        FirstPass::Weak => own,
        _ => found,
    }
}

// The entry of the map.
fn code_of(o: FirstPass) -> u8
    ensures { result ≡ first_code (outcome_of o) }
{
    o as u8
}

// What the first pass leaves of a site: r_D, r_V, and the code of how its green was found, a number as the entry of the map is.
#[derive(Clone, Copy)]
pub struct Trial {
    pub diagonal: i32,
    pub vertical: i32,
    pub code: u8,
}

// All three by one decision, from the four gradients and the differences across and down.
fn try_site(g: [i64; 4], a: i32, b: i32) -> Trial
    requires { (Naturals 40920 g) × (nat_abs a ≤ 8184) × (nat_abs b ≤ 8184) }
    ensures { (result.diagonal ≡ tried diagonal (sizes (directions g)) a b) × (result.vertical ≡ tried vertical (sizes (directions g)) a b)
        × (result.code ≡ first_code (first_pass threshold (sizes (directions g)))) }
{
    let o = decide(g);
    Trial {
        diagonal: settle(o, a, b, (a + b) >> 1),
        vertical: settle(o, a, b, b),
        code: code_of(o),
    }
}

// r_D, r_V and the codes of a row of sites, stored from entry at on.
pub fn trial_row(
    gradients: SiteGradients<'_>,
    a: &[i32; 2064],
    b: &[i32; 2064],
    at: usize,
    diagonals: &mut [i32],
    verticals: &mut [i32],
    map: &mut [u8],
)
    requires sized { (Sized 8184 4 (gradients.count + 4) a.now) × (Sized 8184 4 (gradients.count + 4) b.now) }
    requires count_in_bounds { (at + gradients.count ≤ length diagonals.old) × (length verticals.old ≡ length diagonals.old)
        × (length map.old ≡ length diagonals.old) }
    ensures wrote { Wrote (pos 0) at gradients.entry.count
        (site_trial diagonal gradients.entry.work.now gradients.entry.east gradients.entry.south gradients.entry.north.now a.now b.now)
        diagonals.old diagonals.new }
    ensures wrote_2 { Wrote (pos 0) at gradients.entry.count
        (site_trial vertical gradients.entry.work.now gradients.entry.east gradients.entry.south gradients.entry.north.now a.now b.now)
        verticals.old verticals.new }
    ensures wrote_3 { Wrote 0 at gradients.entry.count
        (site_code gradients.entry.work.now gradients.entry.east gradients.entry.south gradients.entry.north.now)
        map.old map.new }
{
    for k in 0..gradients.count {
        let g = gradients.at(k);
        let trial = try_site(g, a[k + 4], b[k + 4]);
        diagonals[at + k] = trial.diagonal;
        verticals[at + k] = trial.vertical;
        map[at + k] = trial.code;
    }
}
