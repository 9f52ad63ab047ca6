// The planner: owns its facts and its book, and lists the menus page by page.
#![tactic(auto)]

pub mod planner;
pub mod reading;
mod tries;

pub use crate::planner::{HandedBack, Hold, Planner};
pub use laws::listing;
pub use laws::listing::Listing;
