// A table of segment records: the ends and wire counts of each row and column.
#![tactic(auto)]

pub mod table;
