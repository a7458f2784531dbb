// Both engines (events.rs, session.rs, evse/site.rs, simulation/).
#![tactic(auto)]

pub mod discrete;
pub mod events;
pub mod plug_in;
pub mod rising_site;
pub mod session;
pub mod site;
pub mod timestep;
