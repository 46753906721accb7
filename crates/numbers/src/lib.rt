// Numbers: the scale of a run, the code of one number, and BF16. Numbers come and go as words of 32 bits.
#![tactic(auto)]

pub mod codes;
pub mod scales;
pub mod words;
