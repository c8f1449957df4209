// What the archive libmagicyuv.a exports: the four functions of crate magicyuv under their names, as extern "C", each with the clauses that it
// has there and a call of it. A crate is a library or a static library, so the library that other crates stand on has no exports of
// its own. The two frame entries are one text twice, since C has no generics. Document 01, "Both entries are callable from our Rust host on numbers and slices".
#![tactic(auto)]

ghost use Rattle.scope.specs.declared.Entry.TheVariants.{Eight, Deep};
ghost use Rattle.magicyuv.specs.Boundary.{numbers, Hosted, BuiltFor, ReadFor};

use magicyuv::Reply;

// Document 01's entry for depth 8.
#[unsafe(no_mangle)]
pub extern "C" fn magicyuv_decode8(
    frame: &[u8],
    lengths: &[u8],
    planes: &mut [u8],
    workspace: &mut [u32],
    width: u32,
    height: u32,
    slice_height: u32,
    family: u32,
    sx: u32,
    sy: u32,
    depth: u32,
    interlaced: u32,
) -> Reply
    ensures { Hosted Eight frame.now (numbers width height slice_height family sx sy depth interlaced) lengths.now planes.old workspace.old result planes.new workspace.new }
{
    magicyuv::magicyuv_decode8(
        frame,
        lengths,
        planes,
        workspace,
        width,
        height,
        slice_height,
        family,
        sx,
        sy,
        depth,
        interlaced,
    )
}

// Document 01's entry for depths 10, 12 and 14.
#[unsafe(no_mangle)]
pub extern "C" fn magicyuv_decode16(
    frame: &[u8],
    lengths: &[u8],
    planes: &mut [u16],
    workspace: &mut [u32],
    width: u32,
    height: u32,
    slice_height: u32,
    family: u32,
    sx: u32,
    sy: u32,
    depth: u32,
    interlaced: u32,
) -> Reply
    ensures { Hosted Deep frame.now (numbers width height slice_height family sx sy depth interlaced) lengths.now planes.old workspace.old result planes.new workspace.new }
{
    magicyuv::magicyuv_decode16(
        frame,
        lengths,
        planes,
        workspace,
        width,
        height,
        slice_height,
        family,
        sx,
        sy,
        depth,
        interlaced,
    )
}

// A table built by itself.
#[unsafe(no_mangle)]
pub extern "C" fn magicyuv_build(lengths: &[u8], workspace: &mut [u32]) -> Reply
    ensures { BuiltFor lengths.now workspace.old result workspace.new }
{
    magicyuv::magicyuv_build(lengths, workspace)
}

// A reading by itself.
#[unsafe(no_mangle)]
pub extern "C" fn magicyuv_read(
    lengths: &[u8],
    payload: &[u8],
    workspace: &mut [u32],
    samples: &mut [u16],
) -> Reply
    ensures { ReadFor lengths.now payload.now workspace.old samples.old result workspace.new samples.new }
{
    magicyuv::magicyuv_read(lengths, payload, workspace, samples)
}
