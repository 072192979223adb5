// Floor and ceiling of an f32 as a u32, worked out: the Rust's `floor(x) as u32` and `ceil(x) as u32`.
ghost use Rattle.std.specs.Prelude.{◌≡◌};
ghost use Rattle.template_rules.specs.Whole.{floor_of, ceiling_of};

// The greatest whole number not above x, held to a u32: 0 for a NaN and below 0.
pub fn floor_to_u32(x: f32) -> u32
    ensures { result ≡ floor_of x }
{
    if x > -1.0 {
        if x < 4294967296.0 {
            return std::num::truncating_f32_to_u64(x) as u32;
        }
        return u32::MAX;
    }
    0
}

// The least whole number not below x, held to a u32. From 2^24 on every f32 is whole.
pub fn ceiling_to_u32(x: f32) -> u32
    ensures { result ≡ ceiling_of x }
{
    let n = floor_to_u32(x);
    if n < 16777216 {
        let back = n as f32;
        if back < x {
            return n + 1;
        }
        return n;
    }
    n
}
