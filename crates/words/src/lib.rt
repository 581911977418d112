// A joint and a bolt table as words and back, and what a joint comes to as words. What is open here is so for the crate of calls, which
// shows that the slices are long enough. Of words that are read a struct knows it; of a slice that is written to it is required, since a
// struct over it would take a borrow of its own for one call.
#![tactic(auto)]

pub mod joints;
pub mod lent;
pub mod results;
pub mod tables;
