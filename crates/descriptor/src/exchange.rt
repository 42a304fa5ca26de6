// What two sites settle before they exchange a block.

ghost use Rattle.descriptor.specs.Comparing.{Compared};
ghost use Rattle.decoding.specs.Laws.{OneForm};

use decoding::Fault;
use reader::read;

// Which of two descriptors was refused, and why.
#[derive(Clone, Copy, PartialEq, Eq, Debug)]
pub enum Mismatch {
    Left(Fault),
    Right(Fault),
}

// Whether two descriptors say one placement: one shape, and one cell for every row and column. The left is judged first.
// Each placement has one descriptor, so once both are read their bytes tell.
pub fn same_placement(left: &[u8], right: &[u8]) -> Result<bool, Mismatch>
    ensures answer { Compared left.now right.now result }
    ensures law { OneForm }
{
    read(left).map_err(Mismatch::Left)?;
    read(right).map_err(Mismatch::Right)?;
    Ok(left == right)
}
