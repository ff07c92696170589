//! Tests of the words.

mod sample;
mod tasks;
