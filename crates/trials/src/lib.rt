//! Runs that no record can put to the judge: origin words, sheets of other sizes, questions about single reads.
#![tactic(auto)]

#[cfg(test)]
mod tests {
    use faults::Fault;
    use judging::passing::Trace;
    use judging::proposal::Proposal;
    use machine::play::play;
    use model::call::Call;
    use model::verdict::{Shown, Verdict};
    use rules::sheet::Sheet;
    use rules::wait::{Strong, TotalStoreOrder};
    use rules::words::{NumberWords, Origin, OriginWords};
    use scheduling::schedule::schedule;
    use std::alloc::Global;
    use std::test::Fail;
    use tables::draft::Draft;
    use tables::line::{Access, Entry, Operand};
    use tables::line_id::LineId;
    use tables::tables::Tables;

    fn store(number: u32, cell: u8) -> Entry {
        Entry::Operation(Access::Store(Operand::Written(number)), cell)
    }

    fn load(cell: u8) -> Entry {
        Entry::Operation(Access::Load, cell)
    }

    // Each of two processors stores to its own cell and then loads the other's.
    fn store_buffering(heap: Global) -> Result<Draft, Fail> {
        let mut draft = Draft::new(heap)?;
        draft.add(1, store(1, 0))?;
        draft.add(1, load(1))?;
        draft.add(2, store(1, 1))?;
        draft.add(2, load(0))?;
        Ok(draft)
    }

    // The verdict or the refusal, as text.
    fn told(heap: Global, answer: Result<Verdict, Fault>) -> Result<String, Fail> {
        match answer {
            Ok(verdict) => Ok(Shown(&verdict).to_string(heap)?),
            Err(fault) => Ok(fault.to_string(heap)?),
        }
    }

    // An order of the tables under total store order, with number words.
    fn numbers<'a>(
        tables: &'a Tables,
        order: &'a [u32],
    ) -> Proposal<'a, 'static, TotalStoreOrder, NumberWords> {
        Proposal {
            tables,
            rule: &TotalStoreOrder,
            kind: &NumberWords,
            order,
        }
    }

    // Both loads stand before both stores: 1.2r 2.2r 1.1w 2.1w.
    const LOADS_FIRST: [u32; 4] = [2, 66, 1, 65];

    #[test]
    fn origins_of_start_words(rt: HostRuntime) -> Result<(), Fail> {
        let heap = rt.alloc();
        let draft = store_buffering(heap)?;
        let mut words = [Origin::Start(0); 128];
        words[1] = Origin::Start(1);
        let mut sheet = Sheet::over(&mut words);
        let weak = Proposal {
            tables: draft.tables(),
            rule: &TotalStoreOrder,
            kind: &OriginWords,
            order: &LOADS_FIRST,
        };
        assert_eq!(rt; told(heap, weak.judge(&mut sheet))?.as_str(), "passes");
        let strong = Proposal {
            tables: draft.tables(),
            rule: &Strong,
            kind: &OriginWords,
            order: &LOADS_FIRST,
        };
        assert_eq!(rt;
            told(heap, strong.judge(&mut sheet))?.as_str(),
            "broken Wait 1.1w 1.2r"
        );
        Ok(())
    }

    #[test]
    fn sheets_of_other_sizes(rt: HostRuntime) -> Result<(), Fail> {
        let heap = rt.alloc();
        let draft = store_buffering(heap)?;
        let proposal = numbers(draft.tables(), &LOADS_FIRST);
        let mut short = [0; 127];
        let refused = proposal.judge(&mut Sheet::over(&mut short));
        assert_eq!(rt; told(heap, refused)?.as_str(), "14 call 127");
        let mut long = [0; 200];
        let passed = proposal.judge(&mut Sheet::over(&mut long));
        assert_eq!(rt; told(heap, passed)?.as_str(), "passes");
        Ok(())
    }

    // Two stores of one number: only origins tell them apart. The order is 1.1w 1.2w 2.1r.
    #[test]
    fn origins_of_equal_numbers(rt: HostRuntime) -> Result<(), Fail> {
        let heap = rt.alloc();
        let mut draft = Draft::new(heap)?;
        draft.add(1, store(5, 0))?;
        draft.add(1, store(5, 0))?;
        draft.add(2, load(0))?;
        let mut words = [Origin::Start(0); 128];
        words[32] = Origin::Line(LineId {
            processor: 1,
            line: 1,
        });
        let stale = Proposal {
            tables: draft.tables(),
            rule: &TotalStoreOrder,
            kind: &OriginWords,
            order: &[1, 3, 64],
        };
        let answer = stale.judge(&mut Sheet::over(&mut words));
        assert_eq!(rt; told(heap, answer)?.as_str(), "broken Value 2.1r 1.2w");
        Ok(())
    }

    // The number of the refusal, if there is one.
    fn refusal(answer: Result<Verdict<Trace>, Fault>) -> Option<u32> {
        answer.err().map(Fault::number)
    }

    #[test]
    fn questions_about_single_lines(rt: HostRuntime) -> Result<(), Fail> {
        let draft = store_buffering(rt.alloc())?;
        let proposal = numbers(draft.tables(), &LOADS_FIRST);
        let mut words = [0; 128];
        let mut sheet = Sheet::over(&mut words);
        assert_eq!(rt; refusal(proposal.trace(&mut sheet, 1, 2)), None);
        assert_eq!(rt; refusal(proposal.trace(&mut sheet, 5, 2)), Some(12));
        assert_eq!(rt; refusal(proposal.trace(&mut sheet, 1, 3)), Some(13));
        assert_eq!(rt; refusal(proposal.trace(&mut sheet, 1, 1)), Some(15));
        let lacking = numbers(draft.tables(), &[2, 7]);
        assert_eq!(rt; refusal(lacking.trace(&mut sheet, 1, 2)), Some(17));
        Ok(())
    }

    // The call that has this code in a schedule, whose codes are numbers for its user; only this test reads them back.
    fn call(code: u32) -> Call {
        if code < 4 {
            return Call::Issue(code + 1);
        }
        let place = code - 4;
        Call::Drain(place / 32 + 1, place % 32 + 1)
    }

    // The schedule of an order that passes, played on a new machine, gives back the order and its words.
    #[test]
    fn schedule_is_played(rt: HostRuntime) -> Result<(), Fail> {
        let heap = rt.alloc();
        let draft = store_buffering(heap)?;
        let mut words = [0; 128];
        let mut codes = [0; 6];
        let mut sheet = Sheet::over(&mut words);
        let made = schedule(
            &numbers(draft.tables(), &LOADS_FIRST),
            &mut sheet,
            &mut codes,
        )?;
        assert!(rt; made == Ok(6));
        let calls = codes.map(call);
        let mut answers = [9; 128];
        let ended = play(
            draft,
            &TotalStoreOrder,
            &NumberWords,
            &mut Sheet::over(&mut answers),
            &calls,
        );
        assert!(rt; ended.order() == LOADS_FIRST.as_slice());
        assert_eq!(rt; answers[1], 0);
        assert_eq!(rt; answers[33], 0);
        assert_eq!(rt; answers[0], 9);
        Ok(())
    }
}
