// From kilowatts to whole watts and back.
ghost use Rattle.std.specs.Prelude.{◌≡◌, ◌/◌, ◌^◌, ◌<◌};
ghost use Rattle.shares.specs.Watts.{watts_of, kilowatts_of};

use curve::float::to_bits;

// x / 2^places, rounded down.
fn shifted(x: u64, places: u64) -> u64
    requires room { x < 2 ^ 63 }
    requires few { places < 64 }
    ensures { result ≡ x / 2 ^ places }
{
    x >> places
}

// Whole watts of x kW, rounded down from the exact value; 0 if x is not from 0 to 65,536.
// The 53 digits of x times 1,000 fit 63 bits, and are shifted by the exponent. Below 2^-11 kW there is no whole watt.
pub fn watts(kw: f64) -> u64
    ensures { result ≡ watts_of kw }
{
    let bits = to_bits(kw);
    if 0x40f0_0000_0000_0000 < bits {
        return 0;
    }
    let exponent = bits / 0x0010_0000_0000_0000;
    if exponent < 1012 {
        return 0;
    }
    let digits = 0x0010_0000_0000_0000 + bits % 0x0010_0000_0000_0000;
    shifted(digits * 1000, 1075 - exponent)
}

// w watts as kilowatts, rounded once for w to 2^53.
pub fn kilowatts(w: u64) -> f64
    ensures { result ≡ kilowatts_of w }
{
    std::num::nearest_u64_to_f64(w) / 1000.0
}
