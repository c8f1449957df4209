// Document 01's frame entries, `decode8` for depth 8 and `decode16` for depths 10, 12 and 14: the checks, every slice read in wire order
// into its own rows of the planes, G added, and what is left in lent memory. One text serves both widths of samples; what a width
// brings is trait Width's.
#![tactic(auto)]

ghost use Rattle.std.specs.Prelude.{◌≡◌, ℕ, ◌*◌, ◌^◌, ◌<◌, length, true};
ghost use Rattle.scope.specs.Geometry.{plane_count, slice_count, depth_fits};
ghost use Rattle.scope.specs.Layout.{slice_at};
ghost use Rattle.scope.specs.Frame.{picture_of, Decoded};
ghost use Rattle.scope.specs.declared.Entry.{Entry};
ghost use Rattle.scope.specs.declared.Entry.TheVariants.{Eight, Deep};
ghost use Rattle.scope.specs.Answers.{done};
ghost use Rattle.scope.specs.Pieces.{in_order, room_check, rest_of};
ghost use Rattle.stretches.specs.Stretch.{all_elements};
ghost use Rattle.decode.specs.Depths.{eight_served, deep_served};
ghost use Rattle.layout.specs.Placed.{Placed};
ghost use Rattle.planes.specs.Standing.{Planes};
ghost use Rattle.picture.specs.Steps.{table_look, read_at, samples_for, plane_of, Ready, with_rows, picture_by};

use geometry::SoundGeometry;
use predict::Predicted;
use raw::ReadRaw;
use scope::{Answer, Entry, Geometry, SliceAt};
use tables::Codes;

// A width of samples: the entry that serves it.
trait Width: ReadRaw + Predicted {
    ghost ENTRY: { Entry };

    const ENTRY: Entry;

    // Each depth that the entry serves is one of this width.
    ghost entry_depth: { (d : ℕ) → depth_fits ENTRY d ≡ true → Self.Depth d };
}

// Depth 8.
impl Width for u8 {
    ghost ENTRY = { Eight };

    ghost entry_depth = { eight_served };

    const ENTRY: Entry = Entry::Eight;
}

// Depths 10, 12 and 14.
impl Width for u16 {
    ghost ENTRY = { Deep };

    ghost entry_depth = { deep_served };

    const ENTRY: Entry = Entry::Deep;
}

// A slice, by its plane's table, into its rows of the planes. Here and below the frame, its geometry, the workspace and the codes go side by side:
// what is known of them together (`Ready`) is said of the width's limit, so a struct would need a type parameter that no field of it has.
fn place_slice<T: Width>(
    frame: &[u8],
    g: SoundGeometry,
    a: SliceAt,
    workspace: &[u32],
    codes: Codes,
    planes: &mut [T],
) -> Answer
    requires ready { Ready T.limit frame.now g.of workspace.now codes }
    requires a_value { (a ≡ slice_at frame.now g.of a.number) × (a.number < slice_count g.of) }
    requires placed { Placed frame.now g.of a.number a.plane a.place }
    requires planes_len { length planes.old ≡ all_elements g.of }
    requires depth_value { T.Depth g.of.depth }
    ensures answer { result ≡ read_at (table_look workspace.now codes) frame.now g.of a.number }
    ensures planes { result ≡ done → T.values planes.new ≡ with_rows g.of a (samples_for (table_look workspace.now codes) frame.now g.of a.number) (T.values planes.old) }
{
    let p = a.plane;
    let r = stretches::stretch_of(g, p, a.first, a.rows);
    let end = r.at + r.rows * r.pitch;
    slice::read(
        frame,
        g.of,
        a,
        r.pitch,
        &workspace[codes.from[p]..codes.to[p]],
        codes.longest[p],
        &mut planes[r.at..end],
    )
}

// Every slice in wire order, each into its place.
fn read_slices<T: Width>(
    frame: &[u8],
    g: SoundGeometry,
    workspace: &[u32],
    codes: Codes,
    planes: &mut [T],
) -> Answer
    requires ready { Ready T.limit frame.now g.of workspace.now codes }
    requires planes_len { length planes.old ≡ all_elements g.of }
    requires depth_value { T.Depth g.of.depth }
    ensures answer { result ≡ in_order (slice_count g.of) (read_at (table_look workspace.now codes) frame.now g.of) }
    ensures planes { result ≡ done → Planes g.of (plane_of (samples_for (table_look workspace.now codes) frame.now g.of) frame.now g.of) (T.values planes.new) }
{
    let t = sides::slice_count(g);
    let mut seen = [0usize; 4];
    for s in 0..t {
        let p = layout::plane_index(frame, g, s);
        let k = seen[p];
        let a = layout::slice_at(frame, g, s, p, k);
        place_slice(frame, g, a, workspace, codes, planes)?;
        seen[p] = k + 1;
    }
    Ok(()) // every slice is in its place
}

// The slices, then the colours. A refusal, 15 or 14, is given once some slices were read.
fn read_planes<T: Width>(
    frame: &[u8],
    g: SoundGeometry,
    workspace: &[u32],
    codes: Codes,
    planes: &mut [T],
) -> Answer
    requires ready { Ready T.limit frame.now g.of workspace.now codes }
    requires planes_len { length planes.old ≡ all_elements g.of }
    requires depth_value { T.Depth g.of.depth }
    ensures answer { result ≡ in_order (slice_count g.of) (read_at (table_look workspace.now codes) frame.now g.of) }
    ensures planes { result ≡ done → T.values planes.new ≡ picture_by g.of (plane_of (samples_for (table_look workspace.now codes) frame.now g.of) frame.now g.of) }
{
    read_slices(frame, g, workspace, codes, planes)?;
    buffer::add_green(g, planes);
    Ok(())
}

// The checks, the tables, the reading and the colours. What a refusal leaves in lent memory is not said: the entry clears it.
fn run<T: Width>(
    frame: &[u8],
    g: SoundGeometry,
    lengths: &[u8],
    planes: &mut [T],
    workspace: &mut [u32],
) -> Answer
    requires lengths_len { length lengths.now ≡ plane_count g.of * 2 ^ g.of.depth }
    requires planes_len { length planes.old ≡ all_elements g.of }
    requires depth_value { T.Depth g.of.depth }
    ensures answer { result ≡ rest_of frame.now g.of lengths.now (room_check g.of lengths.now (length workspace.old)) }
    ensures planes { result ≡ done → T.values planes.new ≡ picture_of frame.now g.of lengths.now }
{
    let codes = tables::codes_of(g, lengths);
    let room = checks::check_room(codes.need, workspace.len());
    checks::check_frame(frame, g, codes.answer, room, codes.shortest)?; // 5 to 14: nothing was written
    tables::build_all(g, lengths, codes, workspace);
    read_planes(frame, g, workspace, codes, planes)
}

// An entry. Refusals 1 to 4 leave planes and workspace as found; any other leaves both wholly zero; success leaves the workspace
// zero.
fn decode<T: Width>(
    frame: &[u8],
    g: Geometry,
    lengths: &[u8],
    planes: &mut [T],
    workspace: &mut [u32],
) -> Answer
    ensures { Decoded T.ENTRY frame.now g lengths.now (T.values planes.old) workspace.old result (T.values planes.new) workspace.new }
{
    incoming::lent_checks(T::ENTRY, g, lengths.len(), planes.len())?; // 1 to 4: both are as found
    let g = SoundGeometry { of: g };
    let answer = run(frame, g, lengths, planes, workspace);
    if answer.is_err() {
        buffer::clear_planes(planes);
    }
    memory::clear_u32(workspace); // the tables go
    answer
}

// The entry for depth 8. The two entries stand side by side under their names: the demands, the exports and the host speak of each.
pub fn decode8(
    frame: &[u8],
    g: Geometry,
    lengths: &[u8],
    planes: &mut [u8],
    workspace: &mut [u32],
) -> Answer
    ensures { Decoded Eight frame.now g lengths.now planes.old workspace.old result planes.new workspace.new }
{
    decode(frame, g, lengths, planes, workspace)
}

// The entry for depths 10, 12 and 14.
pub fn decode16(
    frame: &[u8],
    g: Geometry,
    lengths: &[u8],
    planes: &mut [u16],
    workspace: &mut [u32],
) -> Answer
    ensures { Decoded Deep frame.now g lengths.now planes.old workspace.old result planes.new workspace.new }
{
    decode(frame, g, lengths, planes, workspace)
}
