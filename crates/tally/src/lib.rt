// The board's arithmetic, computed: counters by FPGA and by crossbar, and the measures made of them.
#![tactic(auto)]

pub mod count;
pub mod measure;
