// The plan of a late booking, laid out in the call's own memory.
ghost use Rattle.std.specs.Prelude.{◌≡◌, ◌+◌, ◌≤◌, ◌<◌, length, take};
ghost use Rattle.plan.specs.Places.{vehicle_count};
ghost use Rattle.late_booking.specs.LongerPlan.{longer};

use plan::bytes::put_bytes;
use plan::header::put_header;
use plan::places::PlanFile;

// Lays the longer plan into s, and gives its length.
pub fn put_longer(s: &mut [u8], plan: &PlanFile, car: &[u8; 512]) -> usize
    requires vehicles { vehicle_count plan.now < 65535 }
    requires room { length plan.now + 512 ≤ length s.old }
    ensures { (result ≤ length s.new) × (take result s.new ≡ longer plan.now car.now) }
{
    let n = plan.bytes.len();
    put_header(s, plan, plan.vehicle_count() + 1);
    put_bytes(s, 512, &plan.bytes[512..]);
    put_bytes(s, n, car);
    n + car.len()
}
