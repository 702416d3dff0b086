//! Tests of the one-thread pipe and of the two ends of a ring.
mod end_tests;
mod headline;
mod pipe_tests;
mod thread_tests;
