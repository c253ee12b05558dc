#![tactic(auto)]

// The marked samples of document 01 as one table, with one proof that the definitions give every value: specs/Samples.antt. There is
// no code to run here; the program `samples_main` runs the same samples through the functions.
