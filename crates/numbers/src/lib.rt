// Numbers of seven-bit groups, and runs of them: read from bytes, measured, and put into a lent buffer. What is open here is so for the
// crate of joint files, which shows that there is room for what it puts.
#![tactic(auto)]

pub mod number;
pub mod run;
