// Questions 5, 6 and 13 of load: each field in range, the numbers strictly rising, the total weight.
#![tactic(auto)]

mod fields;
pub mod light;
pub mod ranged;
pub mod rising;
