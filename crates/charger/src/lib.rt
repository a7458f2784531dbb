// Connectors, chargers, vehicles, their lists and the waiting queue.
#![tactic(auto)]

pub mod charge_profile_list;
pub mod charger;
pub mod connector;
pub mod vehicle;
pub mod vehicle_list;
pub mod waiting_queue;
