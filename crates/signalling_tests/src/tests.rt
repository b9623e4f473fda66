//! Tests of facts that no clause states: octets from outside, the texts of errors, and that each call ends.
mod call_table;
mod clearing;
mod elements;
mod messages;
mod number_plans;
