// Tests of calls of `files` that no program makes.
#![tactic(auto)]

#[cfg(test)]
mod tests {
    use charger::charger::no_charger;
    use charger::vehicle::{Vehicle, no_vehicle};
    use charger::vehicle_list::VehicleList;
    use engine::session::{Outcome, Session, uncharged};
    use engine::site::Site;
    use files::book_session::{entries, entries_of_plan};
    use files::counted::CountedPlan;
    use fixed_vec::FixedVec;
    use plan::places::PlanFile;

    // A site of two chargers, one with Ccs1 and one with Nacs, and a vehicle that prefers Nacs.
    fn two_chargers() -> Site {
        let mut vehicles = FixedVec::new();
        vehicles.push(Vehicle {
            codes: [5, 1, 0, 0, 0],
            count: 2,
            ..no_vehicle()
        });
        let mut site = Site::empty();
        site.vehicles = VehicleList {
            vehicles,
            queue_places: [0; 64],
        };
        let mut chargers = FixedVec::new();
        chargers.push(no_charger());
        chargers.push(no_charger());
        site.chargers = chargers;
        site.rows[0] = [true, false, false, false, false];
        site.rows[1] = [false, false, false, false, true];
        site
    }

    // Of a site with more chargers than the plan counts, each call names the connectors of those that it counts.
    #[test]
    fn connectors_of_the_chargers_counted(rt: HostRuntime) {
        let mut bytes = [0u8; 1024];
        bytes[6] = 1;
        bytes[512] = 7;
        let file = PlanFile { bytes: &bytes };
        assert_eq!(rt; file.profile_count(), 0);
        assert_eq!(rt; file.charger_count(), 1);
        assert_eq!(rt; file.vehicle_count(), 0);
        let plan = CountedPlan { file };
        let site = two_chargers();
        let sessions = [
            Session::default(),
            Session {
                charger: 1,
                ..Session::default()
            },
            uncharged(0, Outcome::Balked, 0),
        ];
        let by_site = entries(&plan, &site, &sessions);
        let by_plan = entries_of_plan(&plan, &site, &sessions);
        assert_eq!(rt; by_site.len(), 3);
        assert_eq!(rt; by_plan.len(), 3);
        for (k, charger_id, of_site, of_plan) in [(0, 7, 1, 1), (1, 0, 5, 0), (2, 0, 0, 0)] {
            assert_eq!(rt; by_site[k].charger_id, charger_id, "session {k}");
            assert_eq!(rt; by_plan[k].charger_id, charger_id, "session {k}");
            assert_eq!(rt; by_site[k].connector, of_site, "session {k}");
            assert_eq!(rt; by_plan[k].connector, of_plan, "session {k}");
        }
    }
}
