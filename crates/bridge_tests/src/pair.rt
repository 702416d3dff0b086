//! Tests of the two sides of the bridge, each for its own thread.
mod headline;
mod receipt_tests;
mod response;
mod side_tests;
