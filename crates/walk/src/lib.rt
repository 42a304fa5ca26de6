// The order in which the tiles of a matrix product are visited.
#![tactic(auto)]

mod cubes;
mod place;
mod sizes;

pub use place::triple_at;
pub use sizes::{Sizes, Triple, count, height};

#[cfg(test)]
mod tests {
    use super::*;

    fn triple(row: u32, column: u32, middle: u32) -> Option<Triple> {
        Some(Triple {
            row,
            column,
            middle,
        })
    }

    #[test]
    fn small_walk(rt: HostRuntime) {
        let sizes = Sizes {
            rows: 3,
            columns: 2,
            middle: 4,
            order: 1,
        };
        assert_eq!(rt; count(sizes), 4);
        assert_eq!(rt; triple_at(sizes, 0), triple(0, 0, 0));
        assert_eq!(rt; triple_at(sizes, 1), triple(0, 0, 1));
        assert_eq!(rt; triple_at(sizes, 2), triple(1, 0, 1));
        assert_eq!(rt; triple_at(sizes, 3), triple(1, 0, 0));
        assert_eq!(rt; triple_at(sizes, 4), None);
    }

    #[test]
    fn ninth(rt: HostRuntime) {
        let sizes = Sizes {
            rows: 4,
            columns: 4,
            middle: 4,
            order: 0,
        };
        assert_eq!(rt; height(sizes), 2);
        assert_eq!(rt; triple_at(sizes, 8), triple(1, 0, 2));
    }

    #[test]
    fn long_and_not_allowed(rt: HostRuntime) {
        let long = Sizes {
            rows: 4096,
            columns: 1,
            middle: 1,
            order: 0,
        };
        assert_eq!(rt; count(long), 4096);
        assert_eq!(rt; triple_at(long, 4095), triple(2048, 0, 0));
        let wide = Sizes {
            rows: 1,
            columns: 4097,
            middle: 1,
            order: 0,
        };
        assert_eq!(rt; count(wide), 0);
        assert_eq!(rt; triple_at(wide, 0), None);
    }
}
