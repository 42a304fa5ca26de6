// A block of a quadtree: its level and its Morton index, and the two indices that number the blocks of all levels.
ghost use Rattle.std.specs.Prelude.{◌≡◌};
ghost use Rattle.fields.specs.Fields.{gather as gather_of};
ghost use Rattle.quadtree.specs.Blocks.{ahnentafel_of, level_order_of, start_answer, index_answer, BlockAt};
ghost use Rattle.quadtree.specs.Laws.{Tree, Ahnentafel, LevelOrder, ThereAndBack};
ghost use Rattle.quadtree.specs.Places.{row_of, column_of, ChildRows, ChildColumns};

use masked::{Refusal, gather};

// The Ahnentafel index of the first block of each level: three times the number of its blocks. The thirteen are laid down, and so
// are written out.
const LEVEL_STARTS: [u32; 13] = [
    3, 12, 48, 192, 768, 3_072, 12_288, 49_152, 196_608, 786_432, 3_145_728, 12_582_912, 50_331_648,
];

// The odd bits of a Morton index, which make up the row.
const ROW_BITS: u32 = 0xaaaa_aaaa;

// The even bits, which make up the column.
const COLUMN_BITS: u32 = 0x5555_5555;

// The bits of a Morton index under a mask.
fn bits_under(morton: u32, mask: u32) -> u32
    ensures { result ≡ gather_of morton mask }
{
    gather(morton & mask, mask).unwrap()
}

// A block at level l, 0 to 12, has a Morton index below 4^l. Other values can be written, and are no block.
#[derive(Clone, Copy, PartialEq, Eq, Debug)]
pub struct Block {
    pub level: u32,
    pub morton: u32,
}

impl Block {
    // The Ahnentafel index at which the block's level starts.
    fn level_start(self) -> Result<u32, Refusal>
        ensures { result ≡ start_answer self.level self.morton }
    {
        if self.level > 12 {
            return Err(Refusal::Block);
        }
        let start = LEVEL_STARTS[self.level as usize];
        if self.morton >= start / 3 {
            return Err(Refusal::Block);
        }
        Ok(start)
    }

    // The index by which the root is block 3, and the children of block a are 4a to 4a + 3.
    pub fn ahnentafel(self) -> Result<u32, Refusal>
        ensures value { result ≡ index_answer ahnentafel_of self.level self.morton }
        ensures tree { Tree }
        ensures law { Ahnentafel }
    {
        let start = self.level_start()?;
        Ok(start + self.morton)
    }

    // The index that counts the blocks level by level: the root is block 0, and the children of block i are 4i + 1 to 4i + 4.
    pub fn level_order(self) -> Result<u32, Refusal>
        ensures value { result ≡ index_answer level_order_of self.level self.morton }
        ensures law { LevelOrder }
    {
        let start = self.level_start()?;
        Ok((start / 3 - 1) / 3 + self.morton)
    }

    // The block that has the Ahnentafel index.
    pub fn from_ahnentafel(index: u32) -> Result<Block, Refusal>
        ensures value { BlockAt ahnentafel_of index result }
        ensures law { ThereAndBack ahnentafel_of }
    {
        // Thirteen starts, one after another: a search for the start alone would still have to ask how many blocks it has.
        for (level, start) in LEVEL_STARTS.iter().enumerate() {
            if index >= *start && index - *start < *start / 3 {
                return Ok(Block {
                    level: level as u32,
                    morton: index - *start,
                });
            }
        }
        Err(Refusal::Block)
    }

    // The block that has the level-order index: what is left of it once the blocks of the levels above are counted off.
    pub fn from_level_order(index: u32) -> Result<Block, Refusal>
        ensures value { BlockAt level_order_of index result }
        ensures law { ThereAndBack level_order_of }
    {
        let mut morton = index;
        for (level, start) in LEVEL_STARTS.iter().enumerate() {
            let blocks = *start / 3;
            if morton < blocks {
                return Ok(Block {
                    level: level as u32,
                    morton,
                });
            }
            morton -= blocks;
        }
        Err(Refusal::Block)
    }

    // The row of the block among those of its level: the odd bits of the Morton index.
    pub fn row(self) -> u32
        ensures value { result ≡ row_of self.morton }
        ensures law { ChildRows }
    {
        bits_under(self.morton, ROW_BITS)
    }

    // The column of the block among those of its level: the even bits of the Morton index.
    pub fn column(self) -> u32
        ensures value { result ≡ column_of self.morton }
        ensures law { ChildColumns }
    {
        bits_under(self.morton, COLUMN_BITS)
    }
}
