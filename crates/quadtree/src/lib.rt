// Blocks of a quadtree, and the numbers by which they go.
#![tactic(auto)]

mod block;

pub use block::Block;

#[cfg(test)]
mod tests {
    use super::*;
    use masked::Refusal;

    #[test]
    fn indices(rt: HostRuntime) {
        let block = Block {
            level: 2,
            morton: 7,
        };
        assert_eq!(rt; block.ahnentafel(), Ok(55));
        assert_eq!(rt; block.level_order(), Ok(12));
        assert_eq!(rt; Block::from_ahnentafel(55), Ok(block));
        assert_eq!(rt; Block::from_level_order(12), Ok(block));
        assert_eq!(rt; block.row(), 1);
        assert_eq!(rt; block.column(), 3);
    }

    #[test]
    fn last_block(rt: HostRuntime) {
        let last = Block {
            level: 12,
            morton: 16_777_215,
        };
        assert_eq!(rt; last.ahnentafel(), Ok(67_108_863));
        assert_eq!(rt; last.level_order(), Ok(22_369_620));
        assert_eq!(rt; Block::from_ahnentafel(67_108_863), Ok(last));
        assert_eq!(rt; Block::from_level_order(22_369_620), Ok(last));
        assert_eq!(rt; last.row(), 4095);
    }

    #[test]
    fn refusals(rt: HostRuntime) {
        let too_deep = Block {
            level: 13,
            morton: 0,
        };
        assert_eq!(rt; too_deep.ahnentafel(), Err(Refusal::Block));
        assert_eq!(rt; too_deep.level_order(), Err(Refusal::Block));
        let too_far = Block {
            level: 2,
            morton: 16,
        };
        assert_eq!(rt; too_far.ahnentafel(), Err(Refusal::Block));
        assert_eq!(rt; Block::from_ahnentafel(2), Err(Refusal::Block));
        assert_eq!(rt; Block::from_ahnentafel(4), Err(Refusal::Block));
        assert_eq!(rt; Block::from_ahnentafel(67_108_864), Err(Refusal::Block));
        assert_eq!(rt; Block::from_level_order(22_369_621), Err(Refusal::Block));
    }
}
