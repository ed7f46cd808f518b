// The AINTC's record: its registers, its line levels and the two chosen inputs (000, chapter 4).
#![tactic(auto)]

ghost use Rattle.std.specs.Prelude.{◌≡◌, get_or};
ghost use Rattle.aintc_record.specs.Route.{priority_of};
ghost use Rattle.aintc_record.specs.Record.{side, reset, blank};
ghost use Rattle.aintc_record.specs.Bounds.{chosen_bounded, bounded};

// The input that is chosen for an output, with the priority that it had then. While none is, both numbers are 0:
// a flag beside them and no `Option`, since the promises and the callers of other crates read all three.
#[derive(Clone, Copy)]
pub struct Chosen {
    pub active: bool,
    pub number: u8,
    pub priority: u8,
}

// Input k is bit k % 32 of word k / 32, and byte k of the routes: 2 * priority + 1 for FIQ, 2 * priority for IRQ. A mask of 1 masks.
// `guarded` is the protection bit; `autoidle`, `turbo` and `funcidle` only gate clocks and have no effect here.
#[derive(Clone, Copy)]
pub struct Aintc {
    pub lines: [u32; 4],
    pub soft: [u32; 4],
    pub masks: [u32; 4],
    pub routes: [u8; 128],
    pub threshold: u8,
    pub revision: u8,
    pub guarded: bool,
    pub autoidle: bool,
    pub turbo: bool,
    pub funcidle: bool,
    pub irq: Chosen,
    pub fiq: Chosen,
}

// None is chosen.
const NOBODY: Chosen = Chosen {
    active: false,
    number: 0,
    priority: 0,
};

// What a reset leaves, with the lines at these levels.
pub fn reset_to(lines: [u32; 4]) -> Aintc
    ensures { result ≡ reset lines }
{
    Aintc {
        lines,
        masks: [0xFFFFFFFF; 4],
        threshold: 0xFF,
        ..blank()
    }
}

// A record of zeros: what stands where no controller was started.
pub fn blank() -> Aintc
    ensures { result ≡ blank }
{
    Aintc {
        lines: [0; 4],
        soft: [0; 4],
        masks: [0; 4],
        routes: [0; 128],
        threshold: 0,
        revision: 0,
        guarded: false,
        autoidle: false,
        turbo: false,
        funcidle: false,
        irq: NOBODY,
        fiq: NOBODY,
    }
}

// ---- what stands in an array, 0 past its end

pub fn line_word(s: Aintc, n: u32) -> u32
    ensures { result ≡ get_or s.lines n 0 }
{
    s.lines.get(n as usize).copied().unwrap_or(0)
}

pub fn soft_word(s: Aintc, n: u32) -> u32
    ensures { result ≡ get_or s.soft n 0 }
{
    s.soft.get(n as usize).copied().unwrap_or(0)
}

pub fn mask_word(s: Aintc, n: u32) -> u32
    ensures { result ≡ get_or s.masks n 0 }
{
    s.masks.get(n as usize).copied().unwrap_or(0)
}

// The chosen one of the FIQ output, where `fast`, or of the IRQ output.
pub fn side_of(s: Aintc, fast: bool) -> Chosen
    ensures { result ≡ side s fast }
{
    if fast {
        return s.fiq;
    }
    s.irq
}

// ---- a route

// The priority of an input whose route is the byte b: 0 is the highest.
pub fn priority_of(b: u8) -> u8
    ensures { result ≡ priority_of b }
{
    b / 2
}

// ---- the bounds of the two chosen ones

// Whether the one chosen for an output is within its bounds.
fn chosen_bounded(c: Chosen) -> bool
    ensures { result ≡ chosen_bounded c }
{
    if c.active {
        return (c.number <= 127) & (c.priority <= 127);
    }
    (c.number == 0) & (c.priority == 0)
}

// Whether each chosen input and its priority are at most 127, and both numbers are 0 where none is chosen.
pub fn is_bounded(s: Aintc) -> bool
    ensures { result ≡ bounded s }
{
    chosen_bounded(s.irq) & chosen_bounded(s.fiq)
}
