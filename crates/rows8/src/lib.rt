// The loops over a row of a slice at depth 8, past column 0. Document 01, "Prediction, slice by slice". Sums wrap, which is modulo 2^8. Column 0
// is set first, by predict; the loop over the other columns has no test but its end, and carries left and top-left. Where a row starts and ends and
// how far back the row f up stands are plain numbers, here and in rows16: each loop counts with them, and asks less of them than the next.
#![tactic(auto)]

ghost use Rattle.std.specs.Prelude.{◌≡◌, ◌+◌, ◌-◌, ◌<◌, ◌≤◌, length};
ghost use Rattle.scope.specs.Prediction.{gradient, clamp_median};
ghost use Rattle.memory.specs.Loop.{swept};
ghost use Rattle.rows.specs.Rows.{leftward, across};

// left + top - top-left, with left added last: it is the sample made just before.
fn gradient_u8(left: u8, top: u8, topleft: u8) -> u8
    ensures { result ≡ gradient 8 left top topleft }
{
    top.wrapping_sub(topleft).wrapping_add(left)
}

// The modular gradient, clamped between the smaller and the larger of left and top. In this order `min` and `max` are compiled with one
// comparison for both; as `left.min(top)` a row takes a seventh longer.
fn clamp_median_u8(left: u8, top: u8, topleft: u8) -> u8
    ensures { result ≡ clamp_median 8 left top topleft }
{
    let g = gradient_u8(left, top, topleft);
    let lo = top.min(left);
    let hi = left.max(top);
    lo.max(hi.min(g))
}

// Adds the left sample across, four samples a turn, and says where fewer than four are left. A sample waits for the one before
// it; the sums among four residues wait for none, so that a turn waits once. The sum of all four reaches `left` in the next turn:
// were it used only in this one, the compiler would take it apart and add one residue after the other again.
fn left_fours_u8(s: &mut [u8], start: usize, end: usize) -> usize
    requires { (0 < start) × (start ≤ end) × (end ≤ length s.old) }
    ensures lower_bound { (start ≤ result) × (result ≤ end) }
    ensures s_after { s.new ≡ swept (leftward 8) s.old start (result - start) }
{
    let mut left = s[start - 1];
    let mut sum = 0u8;
    let mut i = start;
    // A `while`: the place where it stops is the answer.
    while 4 <= end - i {
        left = left.wrapping_add(sum);
        let a = s[i];
        let ab = a.wrapping_add(s[i + 1]);
        let abc = ab.wrapping_add(s[i + 2]);
        sum = abc.wrapping_add(s[i + 3]);
        s[i] = left.wrapping_add(a);
        s[i + 1] = left.wrapping_add(ab);
        s[i + 2] = left.wrapping_add(abc);
        s[i + 3] = left.wrapping_add(sum);
        i += 4;
    }
    i
}

// Adds the left sample across: by fours, then the samples that are left over.
pub fn left_row_u8(s: &mut [u8], start: usize, end: usize)
    requires { (0 < start) × (start ≤ end) × (end ≤ length s.old) }
    ensures { s.new ≡ swept (leftward 8) s.old start (end - start) }
{
    let from = left_fours_u8(s, start, end);
    let mut left = s[from - 1];
    for i in from..end {
        left = s[i].wrapping_add(left);
        s[i] = left;
    }
}

// Adds the gradient across.
pub fn gradient_row_u8(s: &mut [u8], start: usize, end: usize, back: usize)
    requires { (0 < back) × (back < start) × (start ≤ end) × (end ≤ length s.old) }
    ensures { s.new ≡ swept (across 8 (gradient 8) back) s.old start (end - start) }
{
    let mut left = s[start - 1];
    let mut topleft = s[start - back - 1];
    for i in start..end {
        let top = s[i - back];
        left = s[i].wrapping_add(gradient_u8(left, top, topleft));
        s[i] = left;
        topleft = top;
    }
}

// Adds the median of depth 8 across.
pub fn median_row_u8(s: &mut [u8], start: usize, end: usize, back: usize)
    requires { (0 < back) × (back < start) × (start ≤ end) × (end ≤ length s.old) }
    ensures { s.new ≡ swept (across 8 (clamp_median 8) back) s.old start (end - start) }
{
    let mut left = s[start - 1];
    let mut topleft = s[start - back - 1];
    for i in start..end {
        let top = s[i - back];
        left = s[i].wrapping_add(clamp_median_u8(left, top, topleft));
        s[i] = left;
        topleft = top;
    }
}
