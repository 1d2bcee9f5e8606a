// Letters and their blocks of 512 bytes: names, faults, the reader, the writer, and the laws between the two.
#![tactic(auto)]

mod faults;
mod fields;
mod laws;
mod letters;
mod masks;
mod names;
mod writer;

pub use faults::BlockFault;
pub use fields::Block;
pub use laws::{letters_and_blocks_correspond, worked_examples};
pub use letters::Letter;
pub use names::{Name, Named};
pub use writer::{block_of, write};

// The worked examples, and each refusal at its edge.
#[cfg(test)]
mod tests {
    use crate::fields::check_of;
    use crate::*;
    use std::test::Fail;

    // Letter 3.1.1, which names 0.2.1 and 1.0.1, with a body of two bytes.
    fn sample() -> Result<Block, BlockFault> {
        let name = Name {
            station: 3,
            channel: 1,
            number: 1,
        };
        let mut named: Named = [None; 64];
        named[2] = Some(1);
        named[8] = Some(1);
        block_of(name, &named, &[7, 9])
    }

    // The sample with one byte changed, and its check right again.
    fn changed(at: usize, value: u8) -> Result<Block, BlockFault> {
        let mut block = sample()?;
        if let Some(byte) = block.get_mut(at) {
            *byte = value;
        }
        let check = check_of(&block).to_be_bytes();
        block[508..512].copy_from_slice(&check);
        Ok(block)
    }

    // The number and place of a refusal, or none.
    fn told<T: Drop>(answer: Result<T, BlockFault>) -> Option<(u8, usize)> {
        answer.err().map(|fault| (fault.number(), fault.place()))
    }

    // What writing a letter into memory of 512 bytes tells, and the check of the block.
    fn written(name: Name, named: &Named, body: &[u8]) -> (Option<(u8, usize)>, u32) {
        let mut block: Block = [0; 512];
        let answer = told(write(name, named, body, &mut block));
        (answer, check_of(&block))
    }

    #[test]
    fn worked_checks(rt: HostRuntime) {
        let first = Name {
            station: 1,
            channel: 0,
            number: 1,
        };
        assert_eq!(rt; written(first, &[None; 64], &[]), (None, 14));
        assert_eq!(rt; written(first, &[None; 64], &[7]), (None, 1990));
        assert_eq!(rt; told(Letter::read(&[0; 512])), Some((22, 0)));
    }

    #[test]
    fn parts_come_back(rt: HostRuntime) -> Result<(), Fail> {
        let letter = Letter::read(&sample()?)?;
        assert_eq!(rt; letter.name().number, 1);
        assert_eq!(rt; letter.named(2), Some(1));
        assert_eq!(rt; letter.named(3), None);
        assert_eq!(rt; letter.named(64), None);
        assert_eq!(rt; letter.names(), 2);
        assert_eq!(rt; letter.body(), [7, 9].as_slice());
        assert_eq!(rt; letter.mask(), 260);
        assert_eq!(rt; letter.check(), 4726);
        Ok(())
    }

    #[test]
    fn reading_refuses(rt: HostRuntime) -> Result<(), Fail> {
        let table = [
            (0, 2, Some((22, 0))),
            (1, 2, Some((22, 1))),
            (2, 7, None),
            (2, 8, Some((23, 2))),
            (3, 8, Some((23, 3))),
            (7, 0, Some((23, 4))),
            (4, 1, Some((23, 4))),
            (8, 225, Some((23, 8))),
            (27, 0, Some((23, 24))),
            (28, 1, Some((23, 28))),
            (9, 1, Some((24, 9))),
            (15, 1, Some((24, 15))),
            (32, 1, Some((24, 32))),
            (279, 1, Some((24, 279))),
            (281, 1, None),
            (282, 1, Some((24, 282))),
            (507, 1, Some((24, 507))),
        ];
        for (at, value, answer) in table {
            assert_eq!(rt; told(Letter::read(&changed(at, value)?)), answer);
        }
        let mut block = sample()?;
        assert_eq!(rt; told(Letter::read(&block[0..511])), Some((20, 0)));
        block[280] = 8;
        assert_eq!(rt; told(Letter::read(&block)), Some((21, 508)));
        Ok(())
    }

    #[test]
    fn writing_refuses(rt: HostRuntime) {
        let body = [1u8; 225];
        let mut named: Named = [None; 64];
        let table = [
            (8, 0, 1, 0, Some((23, 2))),
            (0, 8, 1, 0, Some((23, 3))),
            (0, 0, 0, 0, Some((23, 4))),
            (7, 7, 1_000_000, 224, None),
            (7, 7, 1_000_001, 225, Some((23, 4))),
            (0, 0, 1, 225, Some((23, 8))),
        ];
        for (station, channel, last, length, answer) in table {
            let name = Name {
                station,
                channel,
                number: last,
            };
            assert!(rt; length <= 225);
            assert_eq!(rt; written(name, &named, &body[0..length]).0, answer);
        }
        named[9] = Some(1);
        named[63] = Some(1_000_001);
        let name = Name {
            station: 0,
            channel: 0,
            number: 1,
        };
        let mut block: Block = [5; 512];
        assert_eq!(rt; told(write(name, &named, &[], &mut block)), Some((23, 28)));
        assert!(rt; block[0] == 5);
        assert_eq!(rt;
            told(write(name, &named, &body, &mut block[0..511])),
            Some((20, 0))
        );
    }

    #[test]
    fn names_are_shown(rt: HostRuntime) -> Result<(), Fail> {
        let name = Name {
            station: 3,
            channel: 0,
            number: 1_000_000,
        };
        let text = format!(in rt.alloc(); "{name}")?;
        assert_eq!(rt; text.as_str(), "3.0.1000000");
        Ok(())
    }

    #[test]
    fn faults_are_shown(rt: HostRuntime) -> Result<(), Fail> {
        let fault = BlockFault::Check;
        let text = format!(in rt.alloc(); "{fault}")?;
        assert_eq!(rt; text.as_str(), "refused 21 at 508");
        Ok(())
    }
}
