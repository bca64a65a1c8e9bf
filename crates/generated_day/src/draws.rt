// The generator: a number that changes with each draw.
ghost use Rattle.std.specs.Prelude.{◌≡◌, ◌<◌, ◌^◌};
ghost use Rattle.generated_day.specs.Draws.{draw_below, next_seed};

const MODULUS: u64 = 1 << 31;

/// The generator's number after a draw.
pub(crate) fn next_seed(seed: u32) -> u32
    ensures value { result ≡ next_seed seed }
{
    ((u64::from(seed) * 1_103_515_245 + 12_345) % MODULUS) as u32
}

/// What a draw below `k` gives if the generator's number after it is this one.
pub(crate) fn draw_below(k: u32, seed: u32) -> u32
    requires some { 0 < k }
    ensures value { result ≡ draw_below k seed }
    ensures small { result < k }
{
    (seed / 65536) % k
}
