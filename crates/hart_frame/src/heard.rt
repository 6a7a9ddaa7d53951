//! What was heard, as characters: where frames stand in them, why no frame stands at a place, and which damage is always detected.

pub mod character;
pub mod damage;
pub mod found;
pub mod miss;
pub mod start;
