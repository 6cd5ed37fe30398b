//! What files give: a resolution, with names in their normal form and versions. Each law stands on an empty function, and
//! no program runs them.
#![tactic(auto)]

pub mod laws;
