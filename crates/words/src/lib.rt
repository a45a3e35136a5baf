// 32-bit words of the ECO32.
// Each function's contract is an equation with a definition of specs/.
#![tactic(auto)]

pub mod extension;
