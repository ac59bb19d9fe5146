// The image of a sealed map.
ghost use Rattle.image.specs.Writes.{Writes};
ghost use Rattle.navigator.specs.State.{state};

use crate::map::Map;
use image::write_network;
use measure::Measure;
use network::Refusal;

// Writes the links and turn entries to the front of a buffer, and answers how many bytes they take. Closed marks, measure
// and question are not written.
pub fn write_image<M: Measure + Drop>(map: &Map<M>, buffer: &mut [u8]) -> Result<usize, Refusal>
    ensures { Writes (state map.now.town).roads.plan buffer.old result buffer.new }
{
    write_network(&map.town.network, buffer)
}
