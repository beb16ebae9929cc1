// The memory order of a record.
ghost use Rattle.std.specs.Prelude.{◌≡◌, [], length, MatchResult};
ghost use Rattle.record.specs.Form.{Takes, tested};
ghost use Rattle.record.specs.Order.{event_test, order_form};

use crate::sections::Part;
use arrayvec::ArrayVec;
use faults::Fault;
use tables::EVENTS;

impl Part<'_> {
    // The code of one event more, after `count` of them.
    fn event(self, at: &mut usize, count: usize) -> Result<u32, Fault>
        ensures { Takes (tested self.entry.bytes.now self.entry.start (event_test count)) at.old at.new result }
    {
        let place = self.place(*at);
        let code = self.number(at)?;
        if code as usize >= EVENTS || count >= EVENTS {
            return Err(Fault::EventBeyond(place));
        }
        Ok(code)
    }
}

// Reads the event codes of the order's section.
pub(crate) fn read_order(codes: &mut ArrayVec<u32, EVENTS>, part: Part) -> Result<(), Fault>
    requires { codes.old.items ≡ [] }
    ensures { MatchResult result
        (λ _. (order_form part.entry.bytes.now part.entry.start).is 0 codes.new.items (length part.entry.bytes.now))
        (λ e. (order_form part.entry.bytes.now part.entry.start).amiss 0 e) }
{
    let mut at = 0;
    // `at` goes on by what is read.
    while at < part.bytes.len() {
        let code = part.event(&mut at, codes.len())?;
        codes.push(code);
    }
    Ok(())
}
