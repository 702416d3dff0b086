//! Tests of reading and writing traces.
mod growth_tests;
mod text_tests;
