//! Tests of the program's parts that a run of the program cannot show: the value of its words, and
//! readers and writers that fail. `tests/program/test_program.py` tests the built program.
mod stream_tests;
mod word_tests;
