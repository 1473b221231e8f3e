// Changeovers as a drawing (SVG): for each link that went out a ladder, with our point, the links that had a part and the far point as
// vertical lines, time downwards.
#![tactic(auto)]

pub mod draw;
pub mod file;
pub mod groups;
pub mod rows;
pub mod shapes;
