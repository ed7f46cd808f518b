// The AINTC's start, steps and outputs: what each answers and leaves. Definitions and their laws only: the code stands in aintc_room and aintc.
use aintc_record::Aintc;

// What a start answers: its refusal, and the record.
#[derive(Clone, Copy)]
pub struct Begun {
    pub refusal: u32,
    pub aintc: Aintc,
}

// The two outputs, active or not, and the input that is chosen for IRQ, 0 if none is.
#[derive(Clone, Copy)]
pub struct Signals {
    pub refusal: u32,
    pub irq: bool,
    pub fiq: bool,
    pub number: u32,
}
