// The level of detail: q from the gradients, and n, the detail in steps of a 256th of a level.
#![tactic(auto)]

ghost use Rattle.std.specs.Prelude.{◌≡◌, ◌+◌, ◌*◌, ◌<◌, ◌≤◌, true, false, T, pos};
ghost use Rattle.std.specs.Float.Ieee as Ieee;
ghost use Rattle.std.specs.Float.{fin, inf};
ghost use Rattle.std.specs.Float.Ieee.Positive.{num, den, positive};
ghost use Rattle.detail.specs.Pairs.{pair_of, q_of};
ghost use Rattle.detail.specs.Steps.{Thresholds, Largest, Reached, steps_of, cut_of};

// The squares of a pair of products, added in f64.
fn pair(a: f32, b: f32) -> f64
    ensures { result ≡ pair_of a b }
{
    if a.is_infinite() || b.is_infinite() {
        return f64::INFINITY;
    }
    let x = std::num::f32_to_f64_with_nan(a);
    let y = std::num::f32_to_f64_with_nan(b);
    x * x + y * y
}

// q: the larger sum of the two pairs.
pub fn q_of(width: u32, height: u32, dsdx: f32, dtdx: f32, dsdy: f32, dtdy: f32) -> f64
    ensures { result ≡ q_of width height dsdx dtdx dsdy dtdy }
{
    let w = std::num::nearest_u32_to_f32(width);
    let h = std::num::nearest_u32_to_f32(height);
    let along_x = pair(dsdx * w, dtdx * h);
    let along_y = pair(dsdy * w, dtdy * h);
    along_x.max(along_y)
}

// Entry i: the first f64 whose 128th power reaches 2^i.
const THRESHOLDS: [f64; 128] = [
    1.0,
    1.005429901112803,
    1.0108892860517005,
    1.016378314910953,
    1.0218971486541168,
    1.0274459491187637,
    1.0330248790212286,
    1.038634101961379,
    1.044273782427414,
    1.0499440858006874,
    1.0556451783605574,
    1.061377227289262,
    1.0671404006768237,
    1.0729348675259756,
    1.0787607977571199,
    1.0846183622133094,
    1.0905077326652577,
    1.0964290818163769,
    1.1023825833078411,
    1.1083684117236787,
    1.1143867425958927,
    1.1204377524096067,
    1.126521618608242,
    1.1326385195987194,
    1.1387886347566918,
    1.1449721444318044,
    1.151189229952983,
    1.1574400736337511,
    1.1637248587775777,
    1.1700437696832502,
    1.1763969916502814,
    1.1827847109843412,
    1.1892071150027212,
    1.1956643920398276,
    1.2021567314527033,
    1.2086843236265816,
    1.215247359980469,
    1.2218460329727576,
    1.22848053610687,
    1.2351510639369334,
    1.2418578120734842,
    1.2486009771892048,
    1.255380757024691,
    1.2621973503942507,
    1.2690509571917334,
    1.2759417783963922,
    1.2828700160787785,
    1.289835873406666,
    1.2968395546510099,
    1.303881265191936,
    1.3109612115247644,
    1.318079601266064,
    1.3252366431597413,
    1.3324325470831615,
    1.3396675240533031,
    1.346941786232946,
    1.3542555469368929,
    1.361609020638225,
    1.3690024229745907,
    1.3764359707545302,
    1.383909881963832,
    1.3914243757719262,
    1.3989796725383112,
    1.4065759938190157,
    1.4142135623730951,
    1.4218926021691656,
    1.42961333839197,
    1.4373759974489824,
    1.4451808069770467,
    1.4530279958490526,
    1.460917794180647,
    1.468850433336982,
    1.4768261459394993,
    1.4848451658727526,
    1.492907728291265,
    1.5010140696264256,
    1.5091644275934228,
    1.5173590411982147,
    1.5255981507445384,
    1.5338819978409561,
    1.542210825407941,
    1.550584877685,
    1.5590044002378372,
    1.567469639965553,
    1.5759808451078865,
    1.5845382652524937,
    1.593142151342267,
    1.6017927556826934,
    1.6104903319492545,
    1.619235135194864,
    1.6280274218573478,
    1.6368674497669646,
    1.645755478153965,
    1.6546917676561945,
    1.6636765803267366,
    1.6727101796415966,
    1.6817928305074292,
    1.6909247992693053,
    1.7001063537185235,
    1.709337763100463,
    1.718619298122478,
    1.7279512309618377,
    1.7373338352737064,
    1.746767386199169,
    1.7562521603732997,
    1.765788435933273,
    1.7753764925265214,
    1.7850166113189352,
    1.7947090750031074,
    1.804454167806624,
    1.8142521755003989,
    1.8241033854070534,
    1.8340080864093427,
    1.843966568958626,
    1.8539791250833857,
    1.8640460483977892,
    1.8741676341103,
    1.8843441790323345,
    1.8945759815869658,
    1.9048633418176744,
    1.9152065613971474,
    1.925605943636125,
    1.9360617934922946,
    1.9465744175792334,
    1.9571441241754004,
    1.9677712232331759,
    1.9784560263879511,
    1.9891988469672666,
];

// A significand, from 1 up to 2, and its first twelve digits.
#[derive(Clone, Copy, Debug, PartialEq)]
struct Significand {
    m: f64,
    k: u64,
    ghost positive: { T (positive m) },
    ghost at_least_one: { den m ≤ num m },
    ghost below_two: { num m < 2 * den m },
    ghost twelve: { k < 4096 },
}

impl Significand {
    // A place in the table, by the digits: at most the right one, and at most two below it. What it is used for holds of any place.
    fn guess(self) -> u64 {
        let a = self.k * 128 + self.k * (4096 - self.k) / 96;
        a.saturating_sub(2800) / 4096
    }
}

// The thresholds, for a draw to make once and lend.
#[derive(Clone, Copy, Debug, PartialEq)]
pub struct LevelTable {
    pub thresholds: [f64; 128],
    pub ghost are_thresholds: { Thresholds thresholds },
}

impl LevelTable {
    // Kept: no Default, since nothing would call it. (4m)
    pub fn new() -> Self
        ensures { Thresholds result.thresholds }
    {
        LevelTable {
            thresholds: THRESHOLDS,
        }
    }

    // Where to begin: the guess, if m reaches its threshold.
    fn start(&self, s: Significand) -> usize
        ensures { (result < 128) × Reached s.m result }
    {
        let i = (s.guess() % 128) as usize;
        if s.m < self.thresholds[i] {
            return 0;
        }
        i
    }

    // The largest i with 2^i <= m^128.
    // Kept: the guess lies at most two below, where partition_point would take seven steps; it would also owe a proof that the 128 entries rise. (6f)
    fn step_of(&self, s: Significand) -> usize
        ensures { (result < 128) × Largest s.m result }
    {
        (self.start(s)..127)
            .find(
                |i|
                    requires { i.now < 127 }
                { s.m < self.thresholds[*i + 1] },
            )
            .unwrap_or(127)
    }

    // The largest whole number n with 2^n <= q^128.
    pub fn steps(&self, q: f64) -> u64
        requires above_one { T (Ieee.lt (fin false 1 (pos 0)) q) }
        requires finite { T (Ieee.lt q (inf false)) }
        ensures { result ≡ steps_of q }
    {
        let bits = f64::to_bits(q);
        let exponent = bits / 4503599627370496 - 1023;
        let digits = bits % 4503599627370496;
        let s = Significand {
            m: f64::from_bits(digits + 4607182418800017408),
            k: digits / 1099511627776,
        };
        exponent * 128 + self.step_of(s) as u64
    }

    // n for a q above 1, cut to 256 times the top level.
    pub fn cut_steps(&self, q: f64, top: u64) -> u64
        requires above_one { T (Ieee.lt (fin false 1 (pos 0)) q) }
        requires top_in { top ≤ 10 }
        ensures { result ≡ cut_of q top }
    {
        let most = 256 * top;
        if q < f64::INFINITY {
            return self.steps(q).min(most);
        }
        most
    }
}
