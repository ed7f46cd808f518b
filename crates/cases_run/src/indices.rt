// Runs both sides of what was decided of prioritised indices (02, 6/12): what an index names, what begins a hold and what ends it, which registers there
// are; after each step also what no trace shows, the words that are held. And the starts and the records that are refused. What it prints was worked out by
// hand from 001, 01 and 02.
mod holds;
mod order;
mod part;
mod records;
mod registers;

pub(crate) fn all() {
    records::starts();
    order::all();
    holds::all();
    registers::all();
    records::all();
}
