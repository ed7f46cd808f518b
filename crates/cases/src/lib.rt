// The worked cases of 01 that are marked, as one list under one theorem, and the cheats that the contracts shut out: definitions and theorems. Beside them the
// lines that the programs of cases print.
#![tactic(auto)]

pub mod lines;
