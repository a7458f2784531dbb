// A check of a plan's blocks: the refusals 4 to 11, in number order, each over the whole plan before the next. Bounds on a
// number of points and on the index of a block are asked by clause, as in `fields` and `ids`.
ghost use Rattle.std.specs.Prelude.{◌≡◌, ◌+◌, ◌*◌, ◌<◌, ◌≤◌, length, take, slice_index_or};
ghost use Rattle.std.specs.Float.{nan};
ghost use Rattle.plan.specs.Search.{first_index, short_of, every, holds, each};
ghost use Rattle.plan.specs.Fields.{f64_at};
ghost use Rattle.plan.specs.Plan.{count_tests, field_tests, new_soc, broken as Plan·broken, rules, first_refusal, check_blocks};
ghost use Rattle.plan.specs.Code.Socs.{new_among};

use crate::answer::{Refusal, Rule};
use crate::blocks::{block, passes, whole_blocks};
use crate::bytes::u32_at;
use crate::fields::{
    charger_ok, f64_at, header_ok, letters_ok, point_count, profile_ok, vehicle_ok,
};
use crate::ids::{id_at, with_id};
use crate::places::{Kind, PlanFile};

// A header, 16 profiles, 32 chargers and 64 vehicles.
const MOST_BLOCKS: usize = 113;

// The rules that are tested block by block, in number order.
const RULES: [Rule; 7] = [
    Rule::Check,
    Rule::Header,
    Rule::Field,
    Rule::NoPoint,
    Rule::EqualSoc,
    Rule::UsedId,
    Rule::NoProfile,
];

// 6: the header's letters and counts.
fn counts_ok(b: &[u8; 512], blocks: usize) -> bool
    ensures { result ≡ holds (count_tests b.now blocks) }
{
    let header = PlanFile { bytes: b };
    let profiles = header.profile_count();
    let chargers = header.charger_count();
    let vehicles = header.vehicle_count();
    letters_ok(b)
        & (profiles <= 16)
        & (chargers <= 32)
        & (vehicles <= 64)
        & (1 + profiles + chargers + vehicles == blocks)
}

// 7: every other field is within its limits, and unnamed and unused bytes are zero.
fn fields_ok(kind: Kind, b: &[u8; 512]) -> bool
    ensures { result ≡ holds (field_tests kind b.now) }
{
    match kind {
        Kind::Header => header_ok(b),
        Kind::Profile => profile_ok(b),
        Kind::Charger => charger_ok(b),
        Kind::Vehicle => vehicle_ok(b),
    }
}

// Reads the SOCs of the first points of a profile's block, as many as there is room for.
fn read_socs(socs: &mut [f64], b: &[u8; 512])
    requires { length socs.old ≤ 30 }
    ensures { socs.new ≡ each (λ j. f64_at b.now (16 + 16 * j)) 0 (length socs.old) }
{
    for (i, soc) in socs.iter_mut().enumerate() {
        *soc = f64_at(b, 16 + 16 * i);
    }
}

// 9: a SOC equals none of those before it.
// There is no early exit, so that the compiler can take many SOCs at once.
fn new_soc(before: &[f64], soc: f64) -> bool
    ensures { result ≡ new_among before.now soc }
{
    let mut new = true;
    for x in before {
        new &= !(*x == soc);
    }
    new
}

// Each SOC is a new one.
fn all_new(socs: &[f64]) -> bool
    ensures { result ≡ every (λ i. new_among (take i socs.now) (slice_index_or socs.now i nan)) 0 (length socs.now) }
{
    for (i, soc) in socs.iter().enumerate() {
        if !new_soc(&socs[..i], *soc) {
            return false;
        }
    }
    true
}

fn new_socs(b: &[u8; 512], n: usize) -> bool
    requires { n ≤ 30 }
    ensures { result ≡ every (new_soc b.now) 0 n }
{
    let mut room = [0.0; 30];
    let socs = &mut room[..n];
    read_socs(socs, b);
    all_new(socs)
}

// 10: an earlier block of its kind has the id of the block at the index k.
fn used_id(plan: &PlanFile, k: usize) -> bool
    requires { 512 * k + 512 ≤ length plan.now }
    ensures { result ≡ Plan·broken Rule.UsedId plan.now k }
{
    let start = plan.start_of(plan.kind_at(k));
    with_id(plan.bytes, start, k, id_at(plan.bytes, k)).is_some()
}

// 11: the block at the index k is a vehicle that names no profile.
fn no_profile(plan: &PlanFile, k: usize) -> bool
    requires { 512 * k + 512 ≤ length plan.now }
    ensures { result ≡ Plan·broken Rule.NoProfile plan.now k }
{
    let kind = plan.kind_at(k);
    let end = plan.start_of(Kind::Charger);
    let id = u32_at(block(plan.bytes, k), 4);
    if end <= k {
        (kind == Kind::Vehicle) & with_id(plan.bytes, 1, end, id).is_none()
    } else {
        false
    }
}

// A plan of whole blocks, and how many they are: no more than a plan has.
#[derive(Drop)]
struct Whole<'a> {
    plan: PlanFile<'a>,
    count: usize,
    ghost whole: { length plan ≡ 512 * count },
    ghost few: { count ≤ 113 },
}

impl Whole<'_> {
    // The block at the index k is one that the rule refuses.
    fn broken(&self, rule: Rule, k: usize) -> bool
        requires { k < self.now.count }
        ensures { result ≡ Plan·broken rule self.now.plan k }
    {
        let plan = &self.plan;
        let b = block(plan.bytes, k);
        let kind = plan.kind_at(k);
        match rule {
            Rule::Length => false,
            Rule::Check => !passes(plan.bytes, k),
            Rule::Header => (k == 0) & !counts_ok(b, self.count),
            Rule::Field => !fields_ok(kind, b),
            Rule::NoPoint => (kind == Kind::Profile) & (point_count(b) == 0),
            Rule::EqualSoc => (kind == Kind::Profile) & !new_socs(b, point_count(b)),
            Rule::UsedId => used_id(plan, k),
            Rule::NoProfile => no_profile(plan, k),
        }
    }

    // The index of the first block that the rule refuses.
    fn first_broken(&self, rule: Rule) -> Option<usize>
        ensures { result ≡ short_of (first_index (Plan·broken rule self.now.plan) 0 self.now.count) self.now.count }
    {
        for k in 0..self.count {
            if self.broken(rule, k) {
                return Some(k);
            }
        }
        None
    }

    // The first refusal of the blocks.
    fn first_refusal(&self) -> Result<(), Refusal>
        ensures { result ≡ first_refusal rules self.now.plan self.now.count }
    {
        for rule in RULES {
            if let Some(k) = self.first_broken(rule) {
                return Err(Refusal::Broken(rule, k + 1));
            }
        }
        Ok(())
    }
}

// What a check of the blocks answers.
pub fn check_blocks(plan: &[u8]) -> Result<(), Refusal>
    ensures { result ≡ check_blocks plan.now }
{
    let count = plan.len() / 512;
    if !whole_blocks(plan.len(), MOST_BLOCKS) {
        return Err(Refusal::Broken(Rule::Length, 0));
    }
    let plan = PlanFile { bytes: plan };
    Whole { plan, count }.first_refusal()
}
