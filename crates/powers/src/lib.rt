// 01's arc, log, exp, power, ten and log10. No public function has a `requires`.
#![tactic(auto)]

pub mod arc;
pub mod exp;
pub mod log;
pub mod power;
