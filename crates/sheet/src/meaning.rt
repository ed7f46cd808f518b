// What each figure of the page counts.
ghost use Rattle.std.specs.Prelude.{◌≡◌};
ghost use Rattle.text.specs.Text.{write};
ghost use Rattle.sheet.specs.Meaning.{meaning};

pub(crate) fn put_meaning(out: &mut [u8], at: usize) -> usize
    ensures { (out.new, result) ≡ write (out.old, at) meaning }
{
    let a = text::put_all(
        out,
        at,
        b"<section id=\"meaning\">\n<h2>What each figure counts</h2>\n<dl>\n\
        <dt>stack</dt><dd>bytes of handler and mark frames open at once. Proved of every trace counted, from reset on: neverMoreKept of stack.</dd>\n\
        <dt>table kept</dt><dd>every source that is enabled has the table's priority, type and forcing, at the start and after every step; \
        a trace that breaks this is left out by 18: keepsIs of stack.</dd>\n\
        <dt>started</dt><dd>handlers of the source that were started, added up over the traces: startedOf of aic_waits.</dd>\n\
        <dt>most seen</dt><dd>handlers of other sources started during one wait of the source, the most of any wait: waitedOf of aic_waits.</dd>\n",
    );
    text::put_all(
        out,
        a,
        b"<dt>at most</dt><dd>handlers of other sources that can be started during one wait, the largest bound of the waits that have one: \
        the sum of pending, edges, commands, turns, closed while active and remembered. No such wait saw more: everyMoment of aic_bounds.</dd>\n\
        <dt>waits without a bound</dt><dd>waits during which a mode or a forcing was written; at most speaks of the others.</dd>\n\
        <dt>closed while active</dt><dd>handlers of level-sensitive sources that ended while their lines were active: \
        where it is not 0, a handler ends before its device is quiet.</dd>\n\
        <dt>entries open</dt><dd>handlers and marks open at once while a handler of the source was among them, the most of any moment: entriesOf of aic_waits.</dd>\n\
        <dt>marks, idle ends, entries left open, steps refused</dt><dd>no errors, and each is often the only sign of one.</dd>\n\
        </dl>\n</section>\n</body>\n</html>\n",
    )
}
