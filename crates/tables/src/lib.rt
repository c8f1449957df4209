// The codes of all planes of a frame, from one pass over each plane's lengths, and their tables, one after another in the
// workspace. Document 01, refusals 9 and 10, and "Words and lookup".
#![tactic(auto)]

ghost use Rattle.std.specs.Prelude.{◌≡◌, ◌*◌, ◌^◌, ◌<◌, ◌≤◌, length};
ghost use Rattle.scope.specs.Geometry.{plane_count, lengths_of};
ghost use Rattle.scope.specs.Lookup.{table_of};
ghost use Rattle.scope.specs.Frame.{need_of_all};
ghost use Rattle.scope.specs.Answers.{done};
ghost use Rattle.lists.specs.Parts.{replaced};
ghost use Rattle.words.specs.Weigh.{weighed};
ghost use Rattle.tables.specs.Tables.{plane_need, table_start, with_tables, Tables};
ghost use Rattle.tables.specs.Codes.{no_codes, with_code, codes_of};

use builder::build_part;
use geometry::{SoundGeometry, plane_count, symbol_count};
use scope::{Answer, Refusal};
use words::{Code, weigh};

// What 9 and 10 say of the planes' lengths; where each plane's table starts and ends in the workspace; its longest and its shortest
// length; and all planes' needs together. 0 for the planes that a family lacks, and throughout where a plane is refused. Neither a Result nor
// one array of records: check_frame (checks) takes 9 and 10 as an answer and the shortest lengths by themselves, since refusals 5 to 8 stand
// before them and an entry without a workspace has no tables.
#[derive(Clone, Copy)]
pub struct Codes {
    pub answer: Answer,
    pub from: [usize; 4],
    pub to: [usize; 4],
    pub longest: [usize; 4],
    pub shortest: [usize; 4],
    pub need: usize,
}

// An answer, and no plane's code.
fn no_codes(answer: Answer) -> Codes
    ensures { result ≡ no_codes answer }
{
    Codes {
        answer,
        from: [0; 4],
        to: [0; 4],
        longest: [0; 4],
        shortest: [0; 4],
        need: 0,
    }
}

// The codes with plane p's, whose table starts where the one before it ends.
fn with_code(c: Codes, p: usize, code: Code) -> Codes
    requires { (p < 4) × (c.need ≤ 1064960) × (code.need ≤ 266240) }
    ensures { result ≡ with_code c p code.longest code.shortest code.need }
{
    let from = c.need;
    let to = from + code.need;
    let mut next = c;
    next.from[p] = from;
    next.to[p] = to;
    next.longest[p] = code.longest;
    next.shortest[p] = code.shortest;
    next.need = to;
    next
}

// 9 and 10 of plane p of those lent, or its code. That the lengths are as many as the planes ask relates them to the geometry of the call.
fn weigh_plane(g: SoundGeometry, lengths: &[u8], p: usize) -> Result<Code, Refusal>
    requires { (length lengths.now ≡ plane_count g.of * 2 ^ g.of.depth) × (p < plane_count g.of) }
    ensures { result ≡ weighed (lengths_of g.of lengths.now p) p }
{
    let n = symbol_count(g.of.depth);
    weigh(&lengths[p * n..p * n + n], p)
}

// 9 and 10 plane by plane, and the codes of planes that pass.
pub fn codes_of(g: SoundGeometry, lengths: &[u8]) -> Codes
    requires { length lengths.now ≡ plane_count g.of * 2 ^ g.of.depth }
    ensures { result ≡ codes_of g.of lengths.now }
{
    let f = g.of.family;
    let planes = plane_count(f);
    let mut c = no_codes(Ok(()));
    for p in 0..planes {
        match weigh_plane(g, lengths, p) {
            Err(why) => return no_codes(Err(why)),
            Ok(code) => c = with_code(c, p, code),
        }
    }
    c
}

// Plane p's table, in its stretch of the workspace.
fn build_plane(g: SoundGeometry, lengths: &[u8], codes: Codes, p: usize, workspace: &mut [u32])
    requires lengths_len { (length lengths.now ≡ plane_count g.of * 2 ^ g.of.depth) × (p < plane_count g.of) }
    requires codes_value { (codes ≡ codes_of g.of lengths.now) × (codes.answer ≡ done) }
    requires lengths_in_bounds { need_of_all g.of lengths.now ≤ length workspace.old }
    ensures { workspace.new ≡ replaced workspace.old (table_start g.of lengths.now p) (plane_need g.of lengths.now p) (table_of (lengths_of g.of lengths.now p)) }
{
    let n = symbol_count(g.of.depth);
    let m = codes.longest[p];
    let from = codes.from[p];
    let to = codes.to[p];
    build_part(&lengths[p * n..p * n + n], m, workspace, from, to);
}

// All planes' tables, one after another from the front of the workspace; the words behind them stay as found.
pub fn build_all(g: SoundGeometry, lengths: &[u8], codes: Codes, workspace: &mut [u32])
    requires lengths_len { length lengths.now ≡ plane_count g.of * 2 ^ g.of.depth }
    requires codes_value { (codes ≡ codes_of g.of lengths.now) × (codes.answer ≡ done) }
    requires lengths_in_bounds { need_of_all g.of lengths.now ≤ length workspace.old }
    ensures tables { Tables g.of lengths.now workspace.new }
    ensures workspace { workspace.new ≡ with_tables g.of lengths.now workspace.old }
{
    let f = g.of.family;
    let planes = plane_count(f);
    for p in 0..planes {
        build_plane(g, lengths, codes, p, workspace);
    }
}
