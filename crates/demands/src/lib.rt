#![tactic(auto)]

// The three demands as theorems, on one page (specs/Demands.antt), and their proof. There is no code here.
