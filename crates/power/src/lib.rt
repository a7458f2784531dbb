// The site's power, round by round: a charger's state, the cap of each charger, the progress (evse/site.rs).
#![tactic(auto)]

pub mod alone;
pub mod charger_state;
pub mod even_shares;
pub mod power;
pub mod rising;
pub mod rounds;
pub mod thin;
