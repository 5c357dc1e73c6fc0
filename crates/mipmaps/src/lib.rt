// Which levels a sample reads, and by which filter.
#![tactic(auto)]

ghost use Rattle.std.specs.Prelude.{◌≡◌, ◌*◌, ◌≤◌, Some};
ghost use Rattle.mipmaps.specs.Mipmaps.{texel_filter, mipmap_filter, between, minified, q_at, chosen_of, coordinates_of};

use detail::LevelTable;
use levels::{Filter, MinFilter};

// A texture coordinate and its gradients along x and y.
#[derive(Clone, Copy, Debug, PartialEq)]
pub struct Coordinates {
    pub s: f32,
    pub t: f32,
    pub dsdx: f32,
    pub dtdx: f32,
    pub dsdy: f32,
    pub dtdy: f32,
}

impl From<[f32; 6]> for Coordinates {
    ghost from_gives = { λ l p. p ≡ coordinates_of l };

    // Kept: records and the C interface of the probes have the six laid flat; this is where they get names (6d)
    fn from(numbers: [f32; 6]) -> Coordinates {
        let [s, t, dsdx, dtdx, dsdy, dtdy] = numbers;
        Coordinates {
            s,
            t,
            dsdx,
            dtdx,
            dsdy,
            dtdy,
        }
    }
}

impl Coordinates {
    #[tactic(auto, unfolding(crate::specs::Mipmaps::q_at))]
    fn q(self, width: u32, height: u32) -> f64
        ensures { result ≡ q_at width height self }
    {
        detail::q_of(width, height, self.dsdx, self.dtdx, self.dsdy, self.dtdy)
    }
}

// Which levels a minifying filter reads that uses those above 0.
#[derive(Clone, Copy, Debug, PartialEq, Eq, Hash)]
pub enum Mipmap {
    NearestLevel,
    Between,
}

// A level, and its filter; where the next one is read too, how many 256ths of the way to it.
#[derive(Clone, Copy, Debug, PartialEq, Eq, Hash)]
pub struct Chosen {
    // Kept: a level's number; the definitions speak of it, and the levels themselves are not at hand where it is chosen. (6e)
    pub level: usize,
    pub filter: Filter,
    pub part: Option<u32>,
}

fn texel_filter(min: MinFilter) -> Filter
    ensures { result ≡ texel_filter min }
{
    match min {
        MinFilter::Nearest | MinFilter::NearestMipmapNearest | MinFilter::NearestMipmapLinear =>
            Filter::Nearest,
        MinFilter::Linear | MinFilter::LinearMipmapNearest | MinFilter::LinearMipmapLinear => {
            Filter::Linear
        }
    }
}

fn mipmap_filter(min: MinFilter) -> Option<Mipmap>
    ensures { result ≡ mipmap_filter min }
{
    match min {
        MinFilter::Nearest | MinFilter::Linear => None,
        MinFilter::NearestMipmapNearest | MinFilter::LinearMipmapNearest => {
            Some(Mipmap::NearestLevel)
        }
        MinFilter::NearestMipmapLinear | MinFilter::LinearMipmapLinear => Some(Mipmap::Between),
    }
}

// A level and the next, or one level where the detail is whole.
#[tactic(auto, using(std::proofs::lemmas::Bool::Decides::nat_tests), unfolding(crate::specs::Mipmaps::between))]
fn between_levels(n: u64, filter: Filter) -> Chosen
    ensures { result ≡ between filter n }
{
    let part = (n % 256) as u32;
    Chosen {
        level: (n / 256) as usize,
        filter,
        part: (part != 0).then_some(part),
    }
}

impl Mipmap {
    // The levels at a detail of n.
    #[tactic(auto, unfolding(crate::specs::Mipmaps::minified))]
    fn levels(self, n: u64, filter: Filter) -> Chosen
        requires { n ≤ 256 * 10 }
        ensures { result ≡ minified (Some self) filter n }
    {
        match self {
            Mipmap::NearestLevel => Chosen {
                level: ((n + 128) / 256) as usize,
                filter,
                part: None,
            },
            Mipmap::Between => between_levels(n, filter),
        }
    }
}

// q is not needed where level 0 is read, by one filter.
pub fn chosen_levels(
    table: &LevelTable,
    width: u32,
    height: u32,
    top: usize,
    min: MinFilter,
    mag: Filter,
    p: Coordinates,
) -> Chosen
    requires top_in { top ≤ 10 }
    ensures { result ≡ chosen_of width height top min mag p }
{
    let filter = texel_filter(min);
    let mode = mipmap_filter(min);
    if filter == mag && (top == 0 || mode.is_none()) {
        return Chosen {
            level: 0,
            filter: mag,
            part: None,
        };
    }
    let q = p.q(width, height);
    if q > 1.0 {
        return match mode {
            Some(mipmap) if top > 0 => mipmap.levels(table.cut_steps(q, top as u64), filter),
            _ => Chosen {
                level: 0,
                filter,
                part: None,
            },
        };
    }
    Chosen {
        level: 0,
        filter: mag,
        part: None,
    }
}
