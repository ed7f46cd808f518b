// The player, the listing, the words that a read looks at, the figures of a trace, the bounds of the waits of a source, the stack size of a typed table,
// and CoreInterrupt on a lent record, for callers in Rust and C. A slice goes as a pointer and a length, in this order; a length and an offset are of the
// width of a pointer. include/wisteria.h declares the functions for C, and says what a caller answers for. Numbers stand for kinds, refusals and
// privileges, and parameters that travel together stay apart, since C calls these functions.
#![tactic(auto)]

ghost use Rattle.std.specs.Prelude.{◌≡◌, [], ◌∷◌, ℕ};
ghost use Rattle.text.specs.Text.{laid};
ghost use Rattle.beginning.specs.Play.{play_of};
ghost use Rattle.lines.specs.Listing.{listing_of};
ghost use Rattle.player.specs.After.{words_after};
ghost use Rattle.tally.specs.Tally.{tally_of};
ghost use Rattle.aic_bounds.specs.Bounds.{bound_of};
ghost use Rattle.aic_bounds.specs.Figures.{largest_now};
ghost use Rattle.trace_bounds.specs.Figures.{figures_in, counts_of, terms_of};
ghost use Rattle.tables.specs.Reading.{answer_to};
ghost use Rattle.encode.specs.Encode.{encoded};
ghost use Rattle.explain.specs.Explain.{explained_of, explained_window};
ghost use Rattle.coreinterrupt_room.specs.Lent.{left_by, start_over, step_told};
ghost use Rattle.steps.specs.Refusals.{privileged};
ghost use Rattle.steps.specs.declared.Step.TheVariants.{Read, Write, Line};
ghost use Rattle.trace.specs.Turns.{made};
ghost use Rattle.machine_room.specs.Batch.{steps_in, SteppedAll};
ghost use Rattle.machine_room.specs.Controller.{numbered, Started, Stepped, Showing, shown_in};

// Writes the listing of a trace of at most `limit` steps to the start of the lent buffer. Answers the number of bytes written: what finds no room
// is dropped, and the rest of the buffer stays as it was. A listing of at most 99,999 steps has at most 29 bytes for each step and 58 more.
#[unsafe(no_mangle)]
pub extern "C" fn wisteria_list(trace: &[u8], limit: u32, out: &mut [u8]) -> usize
    ensures { (out.new, result) ≡ laid out.old (listing_of trace.now limit) }
{
    listing::list(trace, limit, out)
}

// The same listing by the loop over any machine, whatever the kind: it is there to be timed beside the other.
#[unsafe(no_mangle)]
pub extern "C" fn wisteria_list_plain(trace: &[u8], limit: u32, out: &mut [u8]) -> usize
    ensures { (out.new, result) ≡ laid out.old (listing_of trace.now limit) }
{
    listing::list_plain(trace, limit, out)
}

// The number of steps played, refused ones among them: at most `limit`, and 0 where the trace has no accepted configuration.
#[unsafe(no_mangle)]
pub extern "C" fn wisteria_steps(trace: &[u8], limit: u32) -> u32
    ensures { result ≡ (play_of trace.now limit).steps }
{
    let p = player::play(trace, limit);
    p.steps
}

// The same number by the loop over any machine, whatever the kind: it is there to be timed beside the other.
#[unsafe(no_mangle)]
pub extern "C" fn wisteria_play_plain(trace: &[u8], limit: u32) -> u32
    ensures { result ≡ (play_of trace.now limit).steps }
{
    let p = player::play_plain(trace, limit);
    p.steps
}

// The number of the refusal that ended the play, 7 to 11, or 0 where the trace was played to its end.
#[unsafe(no_mangle)]
pub extern "C" fn wisteria_refusal(trace: &[u8], limit: u32) -> u32
    ensures { result ≡ (play_of trace.now limit).refusal }
{
    let p = player::play(trace, limit);
    p.refusal
}

// The place of that refusal, counted in bytes from the start of the trace, or the number of bytes of the trace where there is none.
#[unsafe(no_mangle)]
pub extern "C" fn wisteria_offset(trace: &[u8], limit: u32) -> usize
    ensures { result ≡ (play_of trace.now limit).offset }
{
    let p = player::play(trace, limit);
    p.offset
}

// Plays at most `limit` steps of a trace. Answers the status words, of 32 system interrupts each, that a read of the register at an offset would then
// look at: 0 unless the machine is a CIC with prioritised indices (kind 4), and where the read would be refused, the index is held or the register is
// no index.
#[unsafe(no_mangle)]
pub extern "C" fn wisteria_looked(trace: &[u8], limit: u32, offset: u32) -> u32
    ensures { result ≡ words_after trace.now limit offset }
{
    player::looked::words_after(trace, limit, offset)
}

// Writes what each of the 32 sources of an AIC did over the steps played to the lent arrays, source 0 first: the handlers started; the most handlers of
// others started while it waited; the most entries open while a handler of it was open. Of source 0, of another kind of controller, and where the trace
// has no accepted configuration, all are 0. Answers the number of steps refused among those played.
#[unsafe(no_mangle)]
pub extern "C" fn wisteria_figures<'a>(
    trace: &'a [u8],
    limit: u32,
    started: &'a mut [u32; 32],
    waited: &'a mut [u32; 32],
    entries: &'a mut [u32; 32],
) -> u32
    ensures refused { result ≡ (tally_of trace.now limit).refused }
    ensures handlers { started.new ≡ (tally_of trace.now limit).figures.started }
    ensures meanwhile { waited.new ≡ (tally_of trace.now limit).figures.waited }
    ensures deepest { entries.new ≡ (tally_of trace.now limit).figures.entries }
{
    let t = tally::figures(trace, limit);
    let f = t.figures;
    let s = f.started;
    *started = s;
    let w = f.waited;
    *waited = w;
    let e = f.entries;
    *entries = e;
    t.refused
}

// Writes the figures of all waits of a source of an AIC over the steps played to the lent arrays: the waits that began, those of them that did not end,
// those without a bound and the first step by which one has none; and the six terms of the largest bound. Answers this bound: handlers. All are 0 for
// source 0 and for numbers over 31, for another kind of controller, and where the trace has no accepted configuration.
#[unsafe(no_mangle)]
pub extern "C" fn wisteria_bounds<'a>(
    trace: &'a [u8],
    limit: u32,
    source: u32,
    waits: &'a mut [u32; 4],
    terms: &'a mut [u32; 6],
) -> u64
    ensures handlers { result ≡ bound_of (largest_now (figures_in trace.now limit source)) }
    ensures counted { waits.new ≡ counts_of (figures_in trace.now limit source) }
    ensures told { terms.new ≡ terms_of (figures_in trace.now limit source) }
{
    let f = trace_bounds::figures(trace, limit, source);
    let c = trace_bounds::counts_of(f);
    *waits = c;
    let t = trace_bounds::terms_of(f);
    *terms = t;
    trace_bounds::most(f)
}

// Writes the line that answers a typed table to the start of the lent buffer: the stack size that it needs, with the word bytes, or its refusal. Answers
// the number of bytes written: what finds no room is dropped, and the rest of the buffer stays as it was.
#[unsafe(no_mangle)]
pub extern "C" fn wisteria_stack(text: &[u8], out: &mut [u8]) -> usize
    ensures { (out.new, result) ≡ laid out.old (answer_to text.now) }
{
    tables::put_answer(out, text)
}

// Starts the lent CoreInterrupt (01, "CoreInterrupt"): a thin function over the start by value. A refused one leaves every word of the record as it was.
#[unsafe(no_mangle)]
pub extern "C" fn wisteria_core_start(
    core: &mut coreinterrupt::Core,
    fiqs: u32,
    irqs: u32,
    fiqlevel: u32,
    irqlevel: u32,
) -> coreinterrupt_room::lent::Reply
    ensures { (core.new, result) ≡ left_by (start_over core.old fiqs irqs fiqlevel irqlevel) }
{
    let a = coreinterrupt_room::lent::start_over(*core, fiqs, irqs, fiqlevel, irqlevel);
    *core = a.core;
    coreinterrupt_room::lent::Reply {
        refusal: a.refusal,
        value: a.value,
    }
}

// One step on the lent CoreInterrupt, told by its kind and its numbers as a trace tells it: a thin function over the step by value. A refused one leaves every
// word of the record as it was.
#[unsafe(no_mangle)]
pub extern "C" fn wisteria_core_step(
    core: &mut coreinterrupt::Core,
    kind: u32,
    first: u32,
    second: u32,
) -> coreinterrupt_room::lent::Reply
    ensures { (core.new, result) ≡ left_by (step_told core.old kind first second) }
{
    let a = coreinterrupt_room::lent::step_told(*core, kind, first, second);
    *core = a.core;
    coreinterrupt_room::lent::Reply {
        refusal: a.refusal,
        value: a.value,
    }
}

// Writes the explanation of a trace, of which at most `limit` steps are played, to the start of the lent buffer. Answers the number of bytes written: what
// finds no room is dropped, and the rest of the buffer stays as it was. An explanation of 20,000 steps has at most 5,242,880 bytes.
#[unsafe(no_mangle)]
pub extern "C" fn wisteria_explain(trace: &[u8], limit: u32, out: &mut [u8]) -> usize
    ensures { (out.new, result) ≡ laid out.old (explained_of trace.now limit) }
{
    explain::explain(trace, limit, out)
}

// The lines of `steps` steps from the step `first` on, counted from 1, and nothing else.
#[unsafe(no_mangle)]
pub extern "C" fn wisteria_explain_window(
    trace: &[u8],
    limit: u32,
    first: u32,
    steps: u32,
    out: &mut [u8],
) -> usize
    ensures { (out.new, result) ≡ laid out.old (explained_window trace.now limit first steps) }
{
    explain::explain_window(trace, limit, first, steps, out)
}

// Writes the bytes of the trace that a text stands for to the start of the lent buffer, and to the lent array what was expected (0 where the text is taken),
// in which line and as which word of it, each counted from 1. Answers the number of bytes written, as above; of a text that is refused these are the bytes
// of the statements before.
#[unsafe(no_mangle)]
pub extern "C" fn wisteria_encode<'a>(
    text: &'a [u8],
    out: &'a mut [u8],
    refusal: &'a mut [usize; 3],
) -> usize
    ensures bytes { (out.new, result) ≡ laid out.old (encoded text.now).bytes }
    ensures expected { refusal.new ≡ (encoded text.now).refusal.expected ∷ (encoded text.now).refusal.line ∷ (encoded text.now).refusal.word ∷ [] }
{
    let e = encode::encode(text, out);
    let r = e.refusal;
    *refusal = [r.expected as usize, r.line, r.word];
    e.bytes
}

// ---- one controller of any kind, in words that the caller lends (docs/EMBED.md)

// Starts a controller of a kind with the numbers that configure it; numbers beyond its own are not looked at. Answers 0, 9 for an unknown kind or 10 for a
// number beyond its limit, and then no word is written.
#[unsafe(no_mangle)]
pub extern "C" fn wisteria_start<'a>(
    held: &'a mut [u32; 2048],
    kind: u32,
    numbers: &'a [u32; 5],
) -> u32
    ensures { Started held.old kind (numbered numbers.now) held.new result }
{
    let ns = *numbers;
    machine_room::controller::start(held, kind, kinds::Configuration { numbers: ns })
}

// Reads the register at an offset. Answers the refusal, 0 for none; the value is 0 where the read is refused.
#[unsafe(no_mangle)]
pub extern "C" fn wisteria_read<'a>(
    held: &'a mut [u32; 2048],
    offset: u32,
    privilege: u32,
    value: &'a mut u32,
) -> u32
    ensures { Stepped held.old (made (Read offset) privilege) held.new (result, value.new) }
{
    let a = machine_room::controller::read(held, offset, privilege);
    *value = rooms::value_in(a);
    rooms::refusal_in(a)
}

// Writes it. Answers the refusal, 0 for none.
#[unsafe(no_mangle)]
pub extern "C" fn wisteria_write(
    held: &mut [u32; 2048],
    offset: u32,
    privilege: u32,
    value: u32,
) -> u32
    ensures { (v : ℕ) × Stepped held.old (made (Write offset value) privilege) held.new (result, v) }
{
    let a = machine_room::controller::write(held, offset, value, privilege);
    rooms::refusal_in(a)
}

// Puts a line to a level. Answers the refusal, 0 for none.
#[unsafe(no_mangle)]
pub extern "C" fn wisteria_line(held: &mut [u32; 2048], line: u32, level: u32) -> u32
    ensures { (v : ℕ) × Stepped held.old (made (Line line level) privileged) held.new (result, v) }
{
    let a = machine_room::controller::line(held, line, level);
    rooms::refusal_in(a)
}

// The three numbers that a listing's line shows of the controller, or 12 and zeros.
#[unsafe(no_mangle)]
pub extern "C" fn wisteria_outputs<'a>(held: &'a [u32; 2048], columns: &'a mut [u32; 3]) -> u32
    ensures { Showing held.now (shown_in result columns.new) }
{
    let s = machine_room::controller::outputs(held);
    let three = [s.first, s.second, s.third];
    *columns = three;
    s.refusal
}

// Many steps at once, of which the controller is looked at once. Four words tell a step, kind, two numbers and privilege; two answer it, refusal and value. As many
// are carried out as are told whole and as there is room to answer; the header has the same of arrays of structs. Answers 0, or 12 where no controller stands
// in the words, and then so is each step.
#[unsafe(no_mangle)]
pub extern "C" fn wisteria_step_words<'a>(
    held: &'a mut [u32; 2048],
    words: &'a [u32],
    answers: &'a mut [u32],
) -> u32
    ensures { SteppedAll held.old words.now answers.old (steps_in words.now answers.old) held.new answers.new result }
{
    machine_room::controller::steps_in(held, words, answers)
}
