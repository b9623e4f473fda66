//! Tests of facts that no clause states: examples worked by hand, and that each call ends.
mod chains;
mod circuits;
mod full_lines;
mod images;
mod matrices;
mod moved_paths;
mod ports;
