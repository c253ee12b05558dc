#![tactic(auto)]

// Samples of week tables, as one table with one proof that the definitions give every value: specs/Samples.antt. They are ours, and stand apart
// from those of document 01, since counting the minutes of a week one by one takes the proof some seconds. There is no code to run here;
// the program `week_samples_main` runs one of the tables through the functions.
