//! Tests of facts that no clause states: the cells of the SDL diagrams, delivery over two links, and texts.
mod bench;
mod hostile;
mod link_lines;
mod schedules;
mod sequences;
mod table;
mod tables;
