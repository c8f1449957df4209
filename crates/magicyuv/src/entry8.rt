// The host's boundary at depth 8: numbers and slices in and a Reply out, proved to say just the answer of document 01's entry. entry16.rt is
// the same for depths 10, 12 and 14, whose samples are 16-bit.
ghost use Rattle.scope.specs.declared.Entry.TheVariants.{Eight};
ghost use Rattle.magicyuv.specs.Boundary.{numbers, Hosted};

use crate::Reply;
use crate::numbers::Numbers;
use scope::Geometry;

// Document 01's entry for depth 8. Its parameters are those of the exported function of its name, so the eight numbers come one by one.
pub fn magicyuv_decode8(
    frame: &[u8],
    lengths: &[u8],
    planes: &mut [u8],
    workspace: &mut [u32],
    width: u32,
    height: u32,
    slice_height: u32,
    family: u32,
    sx: u32,
    sy: u32,
    depth: u32,
    interlaced: u32,
) -> Reply
    ensures { Hosted Eight frame.now (numbers width height slice_height family sx sy depth interlaced) lengths.now planes.old workspace.old result planes.new workspace.new }
{
    let numbers = Numbers {
        width,
        height,
        slice_height,
        family,
        sx,
        sy,
        depth,
        interlaced,
    };
    let g = match Geometry::try_from(numbers) {
        Ok(g) => g,
        Err(why) => return crate::reply_of(Err(why)), // they say no geometry
    };
    let decoded = decode::decode8(frame, g, lengths, planes, workspace);
    crate::reply_of(decoded)
}
