// A pool that cannot edit `sharing`: a rule of its own with its law proved, and the piles of rules that it shares by.

#![tactic(auto)]

mod equal_parts;
mod piles;
#[cfg(test)]
mod tests;

pub use equal_parts::EqualParts;
pub use piles::{Rates, share_in_three_tiers, share_over_equal_parts};
