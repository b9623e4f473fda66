//! Tests of facts that no clause states: the calls end, also in threads. A worked example has numbers that were found
//! by hand.
mod gates;
mod lock;
mod wires;
