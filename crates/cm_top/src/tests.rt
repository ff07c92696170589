//! Tests of the top call that are no rows of data.

mod failures;
mod long;
mod outside;
mod told;
