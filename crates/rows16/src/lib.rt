// The loops over a row of a slice, past column 0, at a depth above 8, as rows8 has those of depth 8. Document 01, "Prediction, slice by
// slice". Sums wrap at 16 bits and are then taken modulo 2^depth, which divides 2^16. Residues may be 2^depth or more; the samples made are
// below it. No twin of rows8: the medians are two definitions, Left goes by fours there and carries its sum past the remainder here, and so
// does Gradient.
#![tactic(auto)]

ghost use Rattle.std.specs.Prelude.{◌≡◌, ◌+◌, ◌-◌, ◌%◌, ◌^◌, ◌<◌, ◌≤◌, length};
ghost use Rattle.scope.specs.Prediction.{gradient, t87_median};
ghost use Rattle.memory.specs.Loop.{swept};
ghost use Rattle.rows.specs.Rows.{leftward, across, Above};

// A residue and the gradient, with one remainder for all of it; 2^depth divides the 2^16 at which the sums wrap.
fn gradient_sum_u16(residue: u16, left: u16, top: u16, topleft: u16, depth: usize) -> u16
    requires { (topleft < 2 ^ depth) × (depth ≤ 16) }
    ensures { result ≡ (residue + gradient depth left top topleft) % 2 ^ depth }
{
    let known = residue.wrapping_add(top).wrapping_sub(topleft);
    memory::sum_u16(known, left, depth)
}

// The median of T.87: left + top less top-left, where top-left is first brought between the smaller and the larger of left and
// top. So a top-left of at least the larger gives the smaller, one of at most the smaller gives the larger, with no branch. As in
// rows8, this order is compiled with one comparison for `min` and `max`.
fn t87_median_u16(left: u16, top: u16, topleft: u16) -> u16
    ensures { result ≡ t87_median left top topleft }
{
    let lo = top.min(left);
    let hi = left.max(top);
    hi - (lo.max(hi.min(topleft)) - lo)
}

// Adds the left sample across. From sample to sample goes a sum that wraps at 16 bits; its remainder modulo 2^depth is the sample.
// So a sample waits for one addition, and the remainder is taken beside it.
pub fn left_row_u16(s: &mut [u16], start: usize, end: usize, depth: usize)
    requires start_nonzero { (0 < start) × (start ≤ end) × (end ≤ length s.old) }
    requires depth_bound { depth ≤ 16 }
    ensures { s.new ≡ swept (leftward depth) s.old start (end - start) }
{
    let mut sum = s[start - 1];
    for i in start..end {
        sum = s[i].wrapping_add(sum);
        s[i] = memory::sum_u16(sum, 0, depth);
    }
}

// Adds the gradient across, by a sum that wraps at 16 bits, as left_row_u16 has it. The samples above are below 2^depth.
pub fn gradient_row_u16(s: &mut [u16], start: usize, end: usize, back: usize, depth: usize)
    requires back_nonzero { (0 < back) × (back < start) × (start ≤ end) × (end ≤ length s.old) }
    requires above { Above depth back s.old start end }
    requires depth_bound { depth ≤ 16 }
    ensures { s.new ≡ swept (across depth (gradient depth) back) s.old start (end - start) }
{
    let mut sum = s[start - 1];
    let mut topleft = s[start - back - 1];
    for i in start..end {
        let top = s[i - back];
        sum = gradient_sum_u16(s[i], sum, top, topleft, 16);
        s[i] = memory::sum_u16(sum, 0, depth);
        topleft = top;
    }
}

// Adds the median of T.87 across.
pub fn median_row_u16(s: &mut [u16], start: usize, end: usize, back: usize, depth: usize)
    requires back_nonzero { (0 < back) × (back < start) × (start ≤ end) × (end ≤ length s.old) }
    requires depth_bound { depth ≤ 16 }
    ensures { s.new ≡ swept (across depth t87_median back) s.old start (end - start) }
{
    let mut left = s[start - 1];
    let mut topleft = s[start - back - 1];
    for i in start..end {
        let top = s[i - back];
        left = memory::sum_u16(s[i], t87_median_u16(left, top, topleft), depth);
        s[i] = left;
        topleft = top;
    }
}
