// The listing of a lone table, written into a lent page.
#![tactic(auto)]

mod entries;
pub mod listing;
mod page;
mod section;
