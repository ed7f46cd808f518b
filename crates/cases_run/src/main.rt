// Runs what no trace can show: the records that each controller takes or refuses, at every limit and just beside it, and their starts; an AIC with its
// levels beside it; what is held of a CIC's prioritised indices. Prints a line for each. Steps, their refusals, endings and the slips that 01 names are
// traces by nature: examples/ has them.
#![tactic(auto)]

mod aic_records;
mod aintc_records;
mod cic_records;
mod core_records;
mod indices;
mod levels;

fn main() {
    aic_records::all();
    core_records::all();
    levels::all();
    cic_records::all();
    aintc_records::all();
    indices::all();
}
