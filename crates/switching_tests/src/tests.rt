//! Tests of facts that no clause states: octets from other programs, examples worked by hand, and that each call ends.
mod alaw;
mod buffers;
mod channels;
mod engine;
mod example_traces;
mod halved_stages;
mod rooms;
mod stages;
