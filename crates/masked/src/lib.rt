// Numbers under a mask: the bits of a number, put at the one-bits of a mask.
#![tactic(auto)]

mod arithmetic;
mod dilation;
mod field;
mod refusal;

pub use arithmetic::{difference, equal, less, minus_one, plus_one, sum};
pub use dilation::dilate;
pub use field::{gather, spread, width};
pub use refusal::Refusal;

#[cfg(test)]
mod tests {
    use super::*;

    #[test]
    fn widths(rt: HostRuntime) {
        assert_eq!(rt; width(0), 0);
        assert_eq!(rt; width(1), 1);
        assert_eq!(rt; width(4095), 12);
        assert_eq!(rt; width(4096), 13);
        assert_eq!(rt; width(0xffff_ffff), 32);
    }

    #[test]
    fn spreads(rt: HostRuntime) {
        assert_eq!(rt; spread(5, 0x23), Ok(33));
        assert_eq!(rt; spread(17, 0xdc), Ok(132));
        assert_eq!(rt; spread(8, 0x23), Err(Refusal::Field));
        assert_eq!(rt; spread(0, 0), Ok(0));
        assert_eq!(rt; spread(1, 0), Err(Refusal::Field));
        assert_eq!(rt; spread(0xffff_ffff, 0xffff_ffff), Ok(0xffff_ffff));
    }

    #[test]
    fn gathers(rt: HostRuntime) {
        assert_eq!(rt; gather(33, 0x23), Ok(5));
        assert_eq!(rt; gather(4, 0x23), Err(Refusal::Field));
        assert_eq!(rt; gather(0xffff_ffff, 0xffff_ffff), Ok(0xffff_ffff));
    }

    #[test]
    fn sums(rt: HostRuntime) {
        assert_eq!(rt; sum(33, 2, 0x23), Ok(35));
        assert_eq!(rt; sum(33, 3, 0x23), Ok(0));
        assert_eq!(rt; sum(1, 1, 5), Ok(4));
        assert_eq!(rt; sum(0, 0, 0), Ok(0));
        assert_eq!(rt; sum(1, 0, 0), Err(Refusal::Field));
        assert_eq!(rt; sum(0xffff_ffff, 2, 0xffff_ffff), Ok(1));
        assert_eq!(rt; difference(4, 1, 5), Ok(1));
        assert_eq!(rt; difference(0, 1, 0x23), Ok(35));
    }

    #[test]
    fn neighbours(rt: HostRuntime) {
        assert_eq!(rt; plus_one(3, 0x23), Ok(32));
        assert_eq!(rt; plus_one(35, 0x23), Ok(0));
        assert_eq!(rt; minus_one(0, 0x23), Ok(35));
        assert_eq!(rt; minus_one(0, 0), Ok(0));
        assert_eq!(rt; minus_one(0, 0xffff_ffff), Ok(0xffff_ffff));
        assert_eq!(rt; less(3, 32, 0x23), Ok(true));
        assert_eq!(rt; less(4, 32, 0x23), Err(Refusal::Field));
        assert_eq!(rt; equal(32, 32, 0x23), Ok(true));
    }

    #[test]
    fn dilates(rt: HostRuntime) {
        assert_eq!(rt; dilate(255), Ok(0x5555));
        assert_eq!(rt; dilate(256), Ok(0x1_0000));
        assert_eq!(rt; dilate(65535), Ok(0x5555_5555));
        assert_eq!(rt; dilate(65536), Err(Refusal::Field));
    }
}
