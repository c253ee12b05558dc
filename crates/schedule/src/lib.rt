#![tactic(auto)]

// Endless schedules: reports with sizes and gaps, what a stretch of minutes holds, and the four rules (document 01, "The
// specification"). Definitions in `specs/`; in `proofs/` the laws of stretches and of schedules that repeat, on which every
// crate above stands. There is no code to run here.
