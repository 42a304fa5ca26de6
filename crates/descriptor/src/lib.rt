// Descriptors: the bytes by which sites tell each other a layout.
#![tactic(auto)]

mod exchange;

pub use decoding::Fault;
pub use exchange::{Mismatch, same_placement};
pub use reader::read;
pub use writer::{LONGEST, write};

#[cfg(test)]
mod tests {
    use super::*;
    use masked::Refusal;
    use std::test::Fail;

    // The number of the refusal and its place, or none where the input is accepted.
    fn refused(input: &[u8]) -> Option<(u8, usize)> {
        read(input)
            .err()
            .map(|fault| (fault.refusal.number(), fault.place))
    }

    #[test]
    fn reads_what_it_wrote(rt: HostRuntime) -> Result<(), Fail> {
        let texts: [&[u8]; 3] = [
            &[0, 3, 3, 10, 5],
            &[1, 15, 15, 17],
            &[2, 127, 0x80, 1, 0x81, 1],
        ];
        for text in texts {
            let layout = read(text)?;
            let mut bytes = [0xffu8; LONGEST];
            assert_eq!(rt; write(&layout, &mut bytes)?, text.len());
            assert!(rt; text.len() < LONGEST);
            assert_eq!(rt; &bytes[0..text.len()], text);
            assert_eq!(rt; bytes[text.len()], 0xff);
        }
        Ok(())
    }

    #[test]
    fn refuses_what_does_not_end(rt: HostRuntime) {
        assert_eq!(rt; refused(&[]), Some((1, 0)));
        assert_eq!(rt; refused(&[0, 3, 0x80]), Some((1, 3)));
        assert_eq!(rt; refused(&[0, 0x80, 0x80, 0x80, 0x80]), Some((2, 1)));
        assert_eq!(rt; refused(&[0x80, 0]), Some((3, 0)));
        assert_eq!(rt; refused(&[0, 0, 0, 0, 0]), None);
        assert_eq!(rt; refused(&[0, 0, 0, 0, 0, 0]), Some((11, 5)));
    }

    #[test]
    fn refuses_what_is_not_legal(rt: HostRuntime) {
        assert_eq!(rt; refused(&[3]), Some((4, 0)));
        assert_eq!(rt; refused(&[0, 0x80, 0x20]), Some((5, 1)));
        assert_eq!(rt; refused(&[0, 3, 3, 11, 4]), Some((6, 3)));
        assert_eq!(rt; refused(&[0, 1, 1, 0x80, 0x80, 0x80, 8, 1]), Some((7, 3)));
        assert_eq!(rt; refused(&[0, 3, 3, 10, 6]), Some((8, 4)));
        assert_eq!(rt; refused(&[1, 3, 3, 3]), Some((9, 3)));
        assert_eq!(rt; refused(&[1, 15, 15, 16]), Some((10, 3)));
        assert_eq!(rt; refused(&[1, 0, 4, 5]), Some((10, 3)));
    }

    #[test]
    fn compares_placements(rt: HostRuntime) {
        assert_eq!(rt;
            same_placement(&[1, 15, 15, 17], &[1, 15, 15, 17]),
            Ok(true)
        );
        assert_eq!(rt;
            same_placement(&[1, 15, 15, 17], &[2, 15, 15, 17]),
            Ok(false)
        );
        let fault = Fault {
            refusal: Refusal::Ended,
            place: 1,
        };
        assert_eq!(rt; same_placement(&[0], &[3]), Err(Mismatch::Left(fault)));
        assert_eq!(rt;
            same_placement(&[0, 0, 0, 0, 0], &[2]),
            Err(Mismatch::Right(fault))
        );
    }
}
