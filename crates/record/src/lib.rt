//! Records: rule, tables, claims and memory order as bytes.
#![tactic(auto)]

mod entries;
mod order;
mod sections;
mod tabled;
mod whole;

pub use sections::{Part, section};
pub use whole::{Contents, LONGEST, MARK, read};

#[cfg(test)]
mod tests {
    use super::*;
    use faults::Fault;
    use rules::rule::Rule;
    use rules::sheet::Sheet;
    use std::test::Fail;
    use tables::draft::Draft;

    // Two stores and two loads, of which each processor has one, and their four events.
    const RECORD: [u8; 26] = [
        0x53, 0x4F, 0x52, 0x31, 2, 6, 1, 0, 1, 0, 1, 9, 6, 1, 1, 1, 0, 0, 8, 0, 0, 4, 2, 0x42, 1,
        0x41,
    ];

    #[test]
    fn a_record_is_read(rt: HostRuntime) -> Result<(), Fail> {
        let mut places = [7; 128];
        let mut output = [5; 6];
        let mut sheet = Sheet::over(&mut places);
        let contents = read(Draft::new(rt.alloc())?, &RECORD, &mut sheet, &mut output)?;
        assert_eq!(rt; contents.rule, Rule::TotalStoreOrder);
        assert_eq!(rt; contents.count, 4);
        assert_eq!(rt; output, [2, 0x42, 1, 0x41, 5, 5]);
        assert_eq!(rt; sheet.get(1), Some(9));
        assert_eq!(rt; sheet.get(33), Some(8));
        assert_eq!(rt; sheet.get(0), Some(7));
        assert_eq!(rt; sheet.get(32), Some(7));
        Ok(())
    }

    // Bytes, and what is amiss with them.
    const REFUSALS: [(&[u8], Fault); 10] = [
        (b"SOR2", Fault::MarkMissing),
        (b"SOR1", Fault::NumberEnds(4)),
        (b"SOR1\x03", Fault::RuleUnknown(4)),
        (b"SOR1\x01\x02\x00\x40", Fault::CellBeyond(7)),
        (b"SOR1\x01\x02\x00\x3F\x00", Fault::NumberEnds(8)),
        (b"SOR1\x01\x03\x02\x00\x01\x00", Fault::CopyAmiss(8)),
        (b"SOR1\x01\x01\x06", Fault::EntryUnknown(6)),
        (
            b"SOR1\x01\x00\x00\x00\x00\x02\x80\x02",
            Fault::EventBeyond(10),
        ),
        (b"SOR1\x01\x00\x00\x00\x00\x00\x00", Fault::BytesLeft(10)),
        (
            b"SOR1\x01\x00\x00\x00\x00\x02\x00\x00",
            Fault::OutputShort(2),
        ),
    ];

    fn refusal(rt: &HostRuntime, bytes: &[u8]) -> Result<Option<Fault>, Fail> {
        let mut places = [7; 128];
        let mut output = [5; 1];
        let mut sheet = Sheet::over(&mut places);
        match read(Draft::new(rt.alloc())?, bytes, &mut sheet, &mut output) {
            Ok(_) => Ok(None),
            Err(fault) => Ok(Some(fault)),
        }
    }

    #[test]
    fn faults_come_from_left_to_right(rt: HostRuntime) -> Result<(), Fail> {
        for (bytes, fault) in REFUSALS {
            assert_eq!(rt; refusal(&rt, bytes)?, Some(fault));
        }
        Ok(())
    }
}
