// Numbers with their unit, so that no call confuses one with another.

#[derive(Clone, Copy, Default)]
pub struct Kw(pub f64);

#[derive(Clone, Copy, Default)]
pub struct Kwh(pub f64);

#[derive(Clone, Copy, Default)]
pub struct Seconds(pub f64);

#[derive(Clone, Copy, Default)]
pub struct Amperes(pub f64);

#[derive(Clone, Copy, Default)]
pub struct Volts(pub f64);
