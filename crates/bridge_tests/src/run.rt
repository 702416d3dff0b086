//! Tests of both runs of a script, in one thread and in two.
mod counting_gate;
mod gate_tests;
mod growth_tests;
mod run_tests;
mod runs;
