// Runs what no trace can show of an AIC with its levels beside it (02, 5/12): the words and the byte after each step, pairs that do not agree, and the
// table of levels. What it prints was worked out by hand from 003, 01 and 02.
mod damaged;
mod runs;
mod table;

pub(crate) fn all() {
    table::all();
    runs::starts();
    runs::all();
    damaged::all();
}
