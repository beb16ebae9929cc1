//! Numbers of 32 bits in groups of seven, lowest first, in the fewest bytes.
#![tactic(auto)]

mod reading;
mod writing;

pub use reading::read_number;
pub use writing::{number_size, write_number};

/// The most bytes that a number of 32 bits takes.
const GROUPS: u8 = 5;

#[cfg(test)]
mod tests {
    use super::*;
    use faults::Fault;

    #[test]
    fn reads(rt: HostRuntime) {
        assert_eq!(rt; read_number(&[0x7F], 0, 0), Ok((127, 1)));
        assert_eq!(rt; read_number(&[0x80, 0x01], 0, 0), Ok((128, 2)));
        assert_eq!(rt;
            read_number(&[0xFF, 0xFF, 0xFF, 0xFF, 0x0F], 0, 0),
            Ok((u32::MAX, 5))
        );
        assert_eq!(rt;
            read_number(&[0x80, 0x00], 7, 0),
            Err(Fault::NumberMalformed(7))
        );
        assert_eq!(rt;
            read_number(&[0xFF, 0xFF, 0xFF, 0xFF, 0x10], 0, 0),
            Err(Fault::NumberMalformed(0))
        );
        assert_eq!(rt; read_number(&[0x05, 0x80], 7, 1), Err(Fault::NumberEnds(8)));
    }

    #[test]
    fn writes(rt: HostRuntime) {
        let mut out = [0; 6];
        assert_eq!(rt; write_number(&mut out, 0, 127), Ok(1));
        assert_eq!(rt; write_number(&mut out, 1, 128), Ok(3));
        assert_eq!(rt;
            write_number(&mut out, 2, u32::MAX),
            Err(Fault::OutputShort(7))
        );
        assert_eq!(rt; out, [0x7F, 0x80, 0x01, 0, 0, 0]);
    }
}
