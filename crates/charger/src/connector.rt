// Connectors by their codes: 1 Ccs1, 2 Ccs2, 3 Chademo, 4 Gbt, 5 Nacs (connector.rs).
ghost use Rattle.std.specs.Prelude.{◌≡◌, take};
ghost use Rattle.charger.specs.Connector.{has_code, common, contains, row_of, codes_of, named_connectors};

// A charger's row says for each code whether the charger has that connector.
fn has(row: [bool; 5], code: u8) -> bool
    ensures { result ≡ has_code row code }
{
    match code {
        1..=5 => row[usize::from(code - 1)],
        _ => false,
    }
}

// The first of the vehicle's codes that the charger has.
pub fn common_connector(row: [bool; 5], codes: [u8; 5], count: usize) -> Option<u8>
    ensures { result ≡ common row (take count codes) }
{
    codes.iter().take(count).copied().find(|k| has(row, *k))
}

// A vehicle's connectors, in its order of preference: the first `count` codes. The library's vector of fixed capacity is not `Copy`, as a
// vehicle is.
#[derive(Clone, Copy)]
pub struct Connectors {
    pub codes: [u8; 5],
    pub count: usize,
}

// The connectors that a block names: count 0 means Nacs alone.
pub fn connectors_of(codes: [u8; 5], count: usize) -> Connectors
    ensures { result ≡ named_connectors count codes }
{
    if count == 0 {
        return Connectors {
            codes: [5, 0, 0, 0, 0],
            count: 1,
        };
    }
    Connectors { codes, count }
}

impl Connectors {
    // Whether a code is among them.
    fn names(self, code: u8) -> bool
        ensures { result ≡ contains (take self.count self.codes) code }
    {
        self.codes.iter().take(self.count).any(|k| *k == code)
    }
}

// A charger's row from the codes of its block.
pub fn connector_row(codes: [u8; 5], count: usize) -> [bool; 5]
    ensures { result ≡ row_of (codes_of count codes) }
{
    let all = connectors_of(codes, count);
    [1, 2, 3, 4, 5].map(|code| all.names(code))
}
