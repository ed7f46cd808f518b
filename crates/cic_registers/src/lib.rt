// The CIC's registers: those of bits, what each one answers, which values it refuses and what a write does (01, CIC, registers; 001, 2.2). Of the
// registers of bits definitions and their laws only: the code stands in cic_room.

#![tactic(auto)]

pub mod hosts;
pub mod layout;
pub mod maps;
